//! The trail: the literals that are true, in the order in which they became so.

ghost use Rattle.std.specs.Prelude.{◌≡◌, ℕ, ◌+◌, ◌*◌, ◌<◌, ◌≤◌, Bool, true, false, List, [], ◌∷◌, ◌++◌, length, take, replicate, Some, slice_get, slice_set, OnOk, IfOk};
ghost use Rattle.lemma_checker.specs.Clauses.{at, set_of, has, AreDistinct};

use lemma_checker::literal::Literal;
use lemma_checker::resolver::unmark;
use std::alloc::{AllocError, Global};
use std::vec::Vec;

/// The true literals in order, each with the number of the clause that gave it (0 where it was
/// chosen), the places where the levels start, from level 1 on, how many of the literals are
/// propagated, and by literal number whether it is true.
#[derive(Debug, Drop)]
pub struct Trail {
    pub literals: Vec<Literal>,
    pub reasons: Vec<u32>,
    pub starts: Vec<usize>,
    pub done: usize,
    pub values: Vec<bool>,
}

/// Takes the values of the literals past a place back, the last first.
fn unset(values: &mut [bool], literals: &[Literal], place: usize)
    requires within { place ≤ length literals.now }
    requires same { at values.old ≡ set_of literals.now }
    requires once { AreDistinct literals.now }
    ensures { at values.new ≡ set_of (take place literals.now) }
{
    let mut left = literals.len();
    while left > place {
        left -= 1;
        unmark(values, literals[left].0 as usize);
    }
}

impl Trail {
    /// The trail without literals, over the variables 1 to `vars`.
    pub fn new(alloc: Global, vars: u32) -> Result<Trail, AllocError>
        ensures empty { IfOk result (λ t. (t.literals.items ≡ []) × ((t.reasons.items ≡ []) × ((t.starts.items ≡ []) × (t.values.items ≡ replicate (2 * vars + 2) false)))) }
        ensures done { IfOk result (λ t. t.done ≡ 0) }
    {
        let mut values = Vec::new(alloc);
        values.resize(2 * vars as usize + 2, false)?;
        Ok(Trail {
            literals: Vec::new(alloc),
            reasons: Vec::new(alloc),
            starts: Vec::new(alloc),
            done: 0,
            values,
        })
    }

    /// Adds a literal with its reason.
    pub fn push(&mut self, literal: Literal, reason: u32) -> Result<(), AllocError>
        requires below { literal.0 < length self.old.values.items }
        ensures literals { OnOk result (self.new.literals.items ≡ self.old.literals.items ++ literal ∷ []) }
        ensures reasons { OnOk result (self.new.reasons.items ≡ self.old.reasons.items ++ reason ∷ []) }
        ensures values { OnOk result (self.new.values.items ≡ slice_set self.old.values.items literal.0 true) }
        ensures starts { self.new.starts.items ≡ self.old.starts.items }
        ensures size { length self.new.values.items ≡ length self.old.values.items }
        ensures done { self.new.done ≡ self.old.done }
    {
        self.literals.push(literal)?;
        self.reasons.push(reason)?;
        self.values[literal.0 as usize] = true;
        Ok(())
    }

    /// Begins a level with a literal.
    pub fn choose(&mut self, literal: Literal) -> Result<(), AllocError>
        requires below { literal.0 < length self.old.values.items }
        ensures literals { OnOk result (self.new.literals.items ≡ self.old.literals.items ++ literal ∷ []) }
        ensures reasons { OnOk result (self.new.reasons.items ≡ self.old.reasons.items ++ 0 ∷ []) }
        ensures values { OnOk result (self.new.values.items ≡ slice_set self.old.values.items literal.0 true) }
        ensures starts { OnOk result (self.new.starts.items ≡ self.old.starts.items ++ length self.old.literals.items ∷ []) }
        ensures done { self.new.done ≡ self.old.done }
    {
        let place = self.literals.len();
        self.starts.push(place)?;
        self.push(literal, 0)?;
        Ok(())
    }

    /// Goes back to the literals before a place, and to so many levels.
    pub fn cut(&mut self, levels: usize, place: usize)
        requires within { place ≤ length self.old.literals.items }
        requires same { at self.old.values.items ≡ set_of self.old.literals.items }
        requires once { AreDistinct self.old.literals.items }
        ensures literals { self.new.literals.items ≡ take place self.old.literals.items }
        ensures reasons { self.new.reasons.items ≡ take place self.old.reasons.items }
        ensures starts { self.new.starts.items ≡ take levels self.old.starts.items }
        ensures values { at self.new.values.items ≡ set_of (take place self.old.literals.items) }
        ensures size { length self.new.values.items ≡ length self.old.values.items }
        ensures done { self.new.done ≡ place }
    {
        unset(self.values.as_mut_slice(), self.literals.as_slice(), place);
        self.literals.truncate(place);
        self.reasons.truncate(place);
        self.starts.truncate(levels);
        self.done = place;
    }
}
