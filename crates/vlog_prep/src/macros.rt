//! The macros that are defined.

ghost use Rattle.std.specs.Prelude.{◌≡◌, ℕ, List, None, Some, Option, option_map, is_some, bytes_eq, if◌then◌else◌, OnOk};
ghost use Rattle.vlog_prep.specs.Table.{found};

use crate::piece::Piece;
use std::alloc::{AllocError, Global};
use std::collections::HashMap;

/// The pieces of each macro by its name.
#[derive(Drop)]
pub struct Macros<'a> {
    table: HashMap<&'a [u8], &'a [Piece]>,
}

impl<'a> Macros<'a> {
    /// No macro is defined.
    pub fn new(alloc: Global) -> Macros<'a>
        ensures { (q : List ℕ) → found result q ≡ None }
    {
        Macros {
            table: HashMap::new(alloc),
        }
    }

    /// The pieces of the macro of this name.
    pub fn get(&self, name: &[u8]) -> Option<&'a [Piece]>
        ensures { option_map (λ r. r.now) result ≡ found self.now name.now }
    {
        match self.table.get(name) {
            Some(body) => Some(*body),
            None => None,
        }
    }

    /// A macro has this name.
    pub fn has(&self, name: &[u8]) -> bool
        ensures { result ≡ is_some (found self.now name.now) }
    {
        self.get(name).is_some()
    }

    /// Defines the macro of this name.
    pub fn define(&mut self, name: &'a [u8], body: &'a [Piece]) -> Result<(), AllocError>
        ensures { OnOk result ((q : List ℕ) → found self.new q ≡ (if bytes_eq name.now q then Some body.now else found self.old q)) }
    {
        self.table.insert(name, body)?;
        Ok(())
    }

    /// No macro has this name any more.
    pub fn undefine(&mut self, name: &[u8])
        ensures { (q : List ℕ) → found self.new q ≡ (if bytes_eq name.now q then None else found self.old q) }
    {
        let _ = self.table.remove(name);
    }
}
