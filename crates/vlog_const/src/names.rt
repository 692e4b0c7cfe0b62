//! Names and what they mean.

ghost use Rattle.std.specs.Prelude.{◌≡◌, [], ◌∷◌, ◌++◌, ℕ, List, not, is_some, option_map, if◌then◌else◌, IfOk, OnErr};
ghost use Rattle.vlog_const.specs.declared.names.Named.{Named};

use bit_base::bits::Bits;
use bit_base::text::Text;
use indexmap::IndexMap;
use std::alloc::{AllocError, Global};
use std::marker::Model;
use vlog_values::facts::Shape;

/// A constant: its bits, least first, and its sign.
#[derive(Drop)]
pub struct Const {
    pub bits: Bits,
    pub signed: bool,
}

/// What a name means: a constant, or a net by its number, its shape, and the place of its lowest bit.
#[derive(Drop)]
pub enum Named {
    Constant(Const),
    Signal { net: u32, shape: Shape, lsb: u32 },
}

/// Names and what they mean, in the order in which they were added.
#[derive(Drop)]
pub struct Scope {
    names: IndexMap<Text, Named>,
}

impl Model for Scope {
    ghost Value = { List (List ℕ × Named) };

    ghost view = { λ s. s.names.entries };
}

impl Scope {
    ghost use Rattle.vlog_const.specs.Names.{found, has_bits};

    /// No name.
    pub fn empty(alloc: Global) -> Scope
        ensures { result ≡ [] }
    {
        Scope {
            names: IndexMap::new(alloc),
        }
    }

    /// What a name means.
    pub fn find(&self, name: &Text) -> Option<&Named>
        ensures { option_map (λ n. n.now) result ≡ found name.now self.now }
    {
        self.names.get(name)
    }

    /// Adds a name: `false` where it is there already.
    pub fn add(&mut self, name: Text, what: Named) -> Result<bool, AllocError>
        requires { has_bits what }
        ensures added { IfOk result (λ new. new ≡ not (is_some (found name self.old))) }
        ensures list { IfOk result (λ new. self.new ≡ (if new then self.old ++ (name, what) ∷ [] else self.old)) }
        ensures err { OnErr result (self.new ≡ self.old) }
    {
        if self.find(&name).is_some() {
            return Ok(false);
        }
        self.names.insert(name, what)?;
        Ok(true)
    }
}
