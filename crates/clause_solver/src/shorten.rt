//! Resolving literals away from the set that is to be learned, before the solver goes back.

ghost use Rattle.std.specs.Prelude.{◌≡◌, ◌≢◌, ℕ, ◌+◌, ◌-◌, ◌*◌, ◌/◌, ◌^◌, ◌<◌, ◌≤◌, Bool, true, false, List, [], ◌∷◌, ◌++◌, length, take, Option, Some, None, slice_get, OnOk, IfOk, IfSome, IfNone};
ghost use Rattle.lemma_checker.specs.Clauses.{at, set_of, has, opposite};
ghost use Rattle.lemma_checker.specs.Checker.{Lists};
ghost use Rattle.watch_lists.specs.Scans.{IsTrailOf, AreWithin};
ghost use Rattle.clause_solver.specs.Analyses.{IsShort, StepStops};

use crate::walk::{Found, level_between, lower_end};
use lemma_checker::chain::{Chain, ChainFault};
use lemma_checker::clauses::Clauses;
use lemma_checker::literal::Literal;
use lemma_checker::resolver::{clause_at, is_marked, resolve};
use std::alloc::AllocError;
use std::vec::Vec;
use watch_lists::trail::Trail;

/// Resolves the marked set with the reason of the literal at a place, if the set has its opposite
/// and the literal was not chosen.
fn drop_at(
    formula: &Clauses,
    added: &Clauses,
    trail: &Trail,
    p: usize,
    seen: &mut [bool],
    touched: &mut Vec<Literal>,
    chain: &mut Chain,
) -> Result<(), AllocError>
    requires trail { IsTrailOf (formula.now ++ added.now) trail.now }
    requires over { AreWithin (length trail.now.values.items) (formula.now ++ added.now) }
    requires within { p < length trail.now.literals.items }
    requires size { length seen.old ≡ length trail.now.values.items }
    requires lists { Lists seen.old touched.old.items }
    requires inside { (l : ℕ) → at seen.old l ≡ true → has (opposite l) trail.now.literals.items ≡ true }
    ensures { OnOk result ((i low : ℕ) → p < low → low ≤ i → IsShort (length trail.now.values.items) (formula.now ++ added.now) trail.now.literals.items i low seen.old touched.old.items chain.old.ids.items chain.old.pivots.items → IsShort (length trail.now.values.items) (formula.now ++ added.now) trail.now.literals.items i low seen.new touched.new.items chain.new.ids.items chain.new.pivots.items) }
{
    let literal = trail.literals[p];
    if !is_marked(seen, literal.opposite().0 as usize) {
        return Ok(());
    }
    let reason = trail.reasons[p];
    let Some(clause) = clause_at(formula, added, reason) else {
        return Ok(());
    };
    let pivot = literal.variable();
    chain.ids.push(reason)?;
    chain.pivots.push(pivot)?;
    match resolve(seen, touched, clause, pivot) {
        Ok(()) => Ok(()),
        Err(ChainFault::NoMemory) => Err(AllocError),
        Err(ChainFault::BadStep) => unreachable!(),
    }
}

/// The level to go back to from place `i`, after the literals at these places were resolved away,
/// as far as they stand before `found.low`.
pub fn shorten(
    formula: &Clauses,
    added: &Clauses,
    trail: &Trail,
    i: usize,
    found: Found,
    drops: &[usize],
    seen: &mut [bool],
    touched: &mut Vec<Literal>,
    chain: &mut Chain,
) -> Result<Found, AllocError>
    requires trail { IsTrailOf (formula.now ++ added.now) trail.now }
    requires over { AreWithin (length trail.now.values.items) (formula.now ++ added.now) }
    requires within { i < length trail.now.literals.items }
    requires stops { StepStops (length trail.now.values.items) (formula.now ++ added.now) trail.now.literals.items trail.now.starts.items i found.level found.low seen.old touched.old.items chain.old.ids.items chain.old.pivots.items }
    ensures { IfOk result (λ f. StepStops (length trail.now.values.items) (formula.now ++ added.now) trail.now.literals.items trail.now.starts.items i f.level f.low seen.new touched.new.items chain.new.ids.items chain.new.pivots.items) }
{
    for place in drops {
        if *place >= found.low {
            continue;
        }
        drop_at(formula, added, trail, *place, seen, touched, chain)?;
    }
    let low = lower_end(seen, trail.literals.as_slice(), i);
    match level_between(trail.starts.as_slice(), low, i) {
        Some(level) => Ok(Found { level, low }),
        None => unreachable!(),
    }
}
