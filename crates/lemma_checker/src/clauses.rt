//! Lists of clauses, kept flat.

ghost use Rattle.std.specs.Prelude.{◌≡◌, ◌+◌, ◌<◌, ◌≤◌, ◌==◌, List, [], ◌∷◌, ◌++◌, length, slice_get, Some, IfSome, OnOk, OnErr, take, get_or};
ghost use Rattle.std.specs.Option.{option_copied};
ghost use Rattle.lemma_checker.specs.Clauses.{AreDistinct};
ghost use Rattle.lemma_checker.specs.Pieces.{start_at, pieces, AreClauses};

use crate::literal::Literal;
use std::alloc::{AllocError, Global};
use std::marker::Model;
use std::vec::Vec;

/// Clauses in one list of literals, one clause after another, with the place where each ends. They
/// are seen as the list of the clauses, in none of which a literal stands twice.
#[derive(Debug, Drop)]
pub struct Clauses {
    literals: Vec<Literal>,
    ends: Vec<usize>,
}

impl Model for Clauses {
    ghost use Rattle.std.specs.Prelude.{List};
    ghost use Rattle.lemma_checker.specs.declared.literal.Literal.{Literal};

    ghost Value = { List (List Literal) };

    ghost use Rattle.lemma_checker.specs.Pieces.{pieces, AreClauses};

    ghost view = { λ c. pieces c.literals.items 0 c.ends.items };

    ghost invariant = { λ c. AreClauses c.literals.items c.ends.items };
}

/// The place where piece `i` starts.
fn start_of(ends: &[usize], i: usize) -> usize
    requires within { i ≤ length ends.now }
    ensures { result ≡ start_at 0 ends.now i }
{
    if i == 0 { 0 } else { ends[i - 1] }
}

/// Piece `i` of the literals.
fn piece<'a>(literals: &'a [Literal], ends: &[usize], i: usize) -> &'a [Literal]
    requires within { i < length ends.now }
    requires clauses { AreClauses literals.now ends.now }
    ensures value { slice_get (pieces literals.now 0 ends.now) i ≡ Some result.now }
{
    let start = start_of(ends, i);
    let end = ends[i];
    &literals[start..end]
}

/// Adds the literals and their end, or neither.
fn append(
    literals: &mut Vec<Literal>,
    ends: &mut Vec<usize>,
    clause: &[Literal],
) -> Result<(), AllocError>
    ensures literals { OnOk result (literals.new.items ≡ literals.old.items ++ clause.now) }
    ensures ends { OnOk result (ends.new.items ≡ ends.old.items ++ (length literals.old.items + length clause.now) ∷ []) }
    ensures err { OnErr result ((literals.new.items ≡ literals.old.items) × (ends.new.items ≡ ends.old.items)) }
{
    let before = literals.len();
    literals.extend_from_slice(clause)?;
    match ends.push(literals.len()) {
        Ok(()) => Ok(()),
        Err(_) => {
            literals.truncate(before);
            Err(AllocError)
        }
    }
}

impl Clauses {
    /// No clauses. It takes no memory.
    pub fn new(alloc: Global) -> Clauses
        ensures { result ≡ [] }
    {
        Clauses {
            literals: Vec::new(alloc),
            ends: Vec::new(alloc),
        }
    }

    /// Where its memory comes from.
    pub fn allocator(&self) -> Global {
        *self.literals.allocator()
    }

    /// The number of clauses.
    pub fn len(&self) -> usize
        ensures { result ≡ length self.now }
    {
        self.ends.len()
    }

    /// Whether there are no clauses.
    pub fn is_empty(&self) -> bool
        ensures { result ≡ (length self.now == 0) }
    {
        self.ends.is_empty()
    }

    /// Clause `i`, counted from 0.
    pub fn clause(&self, i: usize) -> &[Literal]
        requires within { i < length self.now }
        ensures value { slice_get self.now i ≡ Some result.now }
        ensures distinct { AreDistinct result.now }
    {
        piece(self.literals.as_slice(), self.ends.as_slice(), i)
    }

    /// Clause `i`, counted from 0, if there is one.
    pub fn get(&self, i: usize) -> Option<&[Literal]>
        ensures value { option_copied result ≡ slice_get self.now i }
        ensures distinct { IfSome result (λ c. AreDistinct c.now) }
    {
        if i < self.len() {
            Some(self.clause(i))
        } else {
            None
        }
    }

    /// Adds a clause.
    pub fn push(&mut self, clause: &[Literal]) -> Result<(), AllocError>
        requires distinct { AreDistinct clause.now }
        ensures ok { OnOk result (self.new ≡ self.old ++ clause.now ∷ []) }
        ensures err { OnErr result (self.new ≡ self.old) }
    {
        append(&mut self.literals, &mut self.ends, clause)?;
        Ok(())
    }
}
