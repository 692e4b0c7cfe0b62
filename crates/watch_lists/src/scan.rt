//! Unit propagation by looking at all clauses: the plain form.

ghost use Rattle.std.specs.Prelude.{◌≡◌, ℕ, ◌+◌, ◌-◌, ◌*◌, ◌^◌, ◌<◌, ◌≤◌, ◌%◌, Bool, true, false, List, [], ◌∷◌, ◌++◌, length, take, Option, Some, None, slice_get, OnOk, IfOk, Ok, count_by, not};
ghost use Rattle.lemma_checker.specs.Clauses.{at, set_of, has, opposite};
ghost use Rattle.lemma_checker.specs.Chains.{numbered};
ghost use Rattle.lemma_checker.specs.Propagation.{AreApart, IsInEachClosed};
ghost use Rattle.watch_lists.specs.declared.scan.Swept.TheVariants.{More};
ghost use Rattle.watch_lists.specs.Scans.{StatusIs, SweptIs, ToldIs, IsTrailOf, AreWithin};

use crate::trail::Trail;
use lemma_checker::clauses::Clauses;
use lemma_checker::literal::Literal;
use lemma_checker::resolver::{clause_at, is_marked};
use std::alloc::AllocError;
use std::vec::Vec;

/// How a clause stands under the values.
#[derive(Clone, Copy, Debug, Drop)]
pub enum Status {
    /// A literal is true, or two are open.
    Quiet,
    /// All literals are false.
    False,
    /// All other literals are false, and this one is open.
    Unit(Literal),
}

/// What one look at all clauses did.
#[derive(Clone, Copy, Debug, Drop)]
pub enum Swept {
    /// Every clause is quiet.
    Same,
    /// Literals were added.
    More,
    /// The clause of this number is false.
    Conflict(u32),
}

/// How the clause stands under the values.
pub fn status_of(clause: &[Literal], values: &[bool]) -> Status
    requires apart { AreApart (at values.now) }
    ensures { StatusIs result clause.now (at values.now) }
{
    let mut left: Option<Literal> = None;
    for literal in clause {
        if is_marked(values, literal.0 as usize) {
            return Status::Quiet;
        }
        if !is_marked(values, literal.opposite().0 as usize) {
            match left {
                None => left = Some(*literal),
                Some(first) => {
                    if first.0 != literal.0 {
                        return Status::Quiet;
                    }
                }
            }
        }
    }
    match left {
        None => Status::False,
        Some(literal) => Status::Unit(literal),
    }
}

/// Looks at each clause once, in order, and adds the literals that are forced.
fn sweep(formula: &Clauses, added: &Clauses, trail: &mut Trail) -> Result<Swept, AllocError>
    requires trail { IsTrailOf (formula.now ++ added.now) trail.old }
    requires over { AreWithin (length trail.old.values.items) (formula.now ++ added.now) }
    requires few { length formula.now + length added.now < 2 ^ 32 - 1 }
    ensures trail { OnOk result (IsTrailOf (formula.now ++ added.now) trail.new) }
    ensures swept { IfOk result (λ o. SweptIs o (formula.now ++ added.now) (at trail.new.values.items)) }
    ensures least { OnOk result ((from : ℕ → Bool) → IsInEachClosed (formula.now ++ added.now) from (set_of trail.old.literals.items) → IsInEachClosed (formula.now ++ added.now) from (set_of trail.new.literals.items)) }
    ensures kept { OnOk result ((l : ℕ) → has l trail.old.literals.items ≡ true → has l trail.new.literals.items ≡ true) }
    ensures starts { trail.new.starts.items ≡ trail.old.starts.items }
    ensures size { length trail.new.values.items ≡ length trail.old.values.items }
    ensures fewer { OnOk result (count_by not trail.new.values.items ≤ count_by not trail.old.values.items) }
    ensures falls { result ≡ Ok More → count_by not trail.new.values.items < count_by not trail.old.values.items }
{
    let end = (formula.len() + added.len()) as u32 + 1;
    let mut more = false;
    for number in 1..end {
        let Some(clause) = clause_at(formula, added, number) else {
            unreachable!();
        };
        match status_of(clause, trail.values.as_slice()) {
            Status::Quiet => {}
            Status::False => return Ok(Swept::Conflict(number)),
            Status::Unit(literal) => {
                trail.push(literal, number)?;
                more = true;
            }
        }
    }
    Ok(if more { Swept::More } else { Swept::Same })
}

/// Adds what unit propagation gives, by looking at all clauses again and again: a clause's number
/// where all its literals are false.
pub fn propagate(
    formula: &Clauses,
    added: &Clauses,
    trail: &mut Trail,
) -> Result<Option<u32>, AllocError>
    requires trail { IsTrailOf (formula.now ++ added.now) trail.old }
    requires over { AreWithin (length trail.old.values.items) (formula.now ++ added.now) }
    requires few { length formula.now + length added.now < 2 ^ 32 - 1 }
    ensures trail { OnOk result (IsTrailOf (formula.now ++ added.now) trail.new) }
    ensures told { IfOk result (λ o. ToldIs o (formula.now ++ added.now) (set_of trail.new.literals.items)) }
    ensures least { OnOk result (IsInEachClosed (formula.now ++ added.now) (set_of trail.old.literals.items) (set_of trail.new.literals.items)) }
    ensures kept { OnOk result ((l : ℕ) → has l trail.old.literals.items ≡ true → has l trail.new.literals.items ≡ true) }
    ensures starts { trail.new.starts.items ≡ trail.old.starts.items }
    ensures size { length trail.new.values.items ≡ length trail.old.values.items }
    ensures fewer { OnOk result (count_by not trail.new.values.items ≤ count_by not trail.old.values.items) }
{
    'sweeps: loop {
        match sweep(formula, added, trail)? {
            Swept::Same => return Ok(None),
            Swept::Conflict(number) => return Ok(Some(number)),
            Swept::More => {}
        }
    }
}
