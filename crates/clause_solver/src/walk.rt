//! Going back along the trail from a false clause, by resolution with the reasons.

ghost use Rattle.std.specs.Prelude.{◌≡◌, ◌≢◌, ℕ, ◌+◌, ◌-◌, ◌*◌, ◌/◌, ◌^◌, ◌<◌, ◌≤◌, Bool, true, false, List, [], ◌∷◌, ◌++◌, length, take, Option, Some, None, slice_get, OnOk, IfOk, IfSome, IfNone};
ghost use Rattle.lemma_checker.specs.Clauses.{at, set_of, has, opposite};
ghost use Rattle.lemma_checker.specs.Checker.{Lists};
ghost use Rattle.watch_lists.specs.Trails.{HasStart};
ghost use Rattle.watch_lists.specs.Scans.{IsTrailOf, AreWithin};
ghost use Rattle.clause_solver.specs.Walks.{IsEnd, IsBetween, IsFound, AreRising};

use lemma_checker::chain::ChainFault;
use lemma_checker::literal::Literal;
use lemma_checker::resolver::{clause_at, is_marked, resolve};
use std::alloc::AllocError;
use std::vec::Vec;
use watch_lists::trail::Trail;

/// The place up to which the marked literals' opposites stand, of those before `i`.
pub fn lower_end(seen: &[bool], literals: &[Literal], i: usize) -> usize
    requires within { i ≤ length literals.now }
    ensures { IsEnd (at seen.now) literals.now i result }
{
    let mut low = i;
    while low > 0 {
        let literal = literals[low - 1];
        if is_marked(seen, literal.opposite().0 as usize) {
            return low;
        }
        low -= 1;
    }
    low
}

/// The first level that starts at `low` or later, if it doesn't start past `i`.
pub fn level_between(starts: &[usize], low: usize, i: usize) -> Option<usize>
    requires rising { AreRising starts.now }
    ensures some { IfSome result (λ k. IsBetween starts.now low i k) }
    ensures none { IfNone result ((j a : ℕ) → slice_get starts.now j ≡ Some a → low ≤ a → i < a) }
{
    let mut level = starts.len();
    while level > 0 && starts[level - 1] >= low {
        level -= 1;
    }
    if level < starts.len() && starts[level] <= i {
        Some(level)
    } else {
        None
    }
}

/// A level to go back to, and the place before which all literals are denied but the one that is
/// denied at the place of the walk.
#[derive(Clone, Copy, Debug, Drop)]
pub struct Found {
    pub level: usize,
    pub low: usize,
}

/// The level to go back to from place `i`, if the literal there can be the one that the clause
/// forces. It isn't tried where `open` says that it is too early, unless the literal was chosen.
pub fn stop_at(open: usize, id: u32, seen: &[bool], trail: &Trail, i: usize) -> Option<Found>
    requires within { i < length trail.now.literals.items }
    requires start { id ≡ 0 → HasStart trail.now.starts.items i }
    requires rising { AreRising trail.now.starts.items }
    ensures some { IfSome result (λ f. IsFound (at seen.now) trail.now.literals.items trail.now.starts.items i f.level f.low) }
    ensures none { IfNone result (id ≢ 0) }
{
    if open > 1 && id != 0 {
        return None;
    }
    let low = lower_end(seen, trail.literals.as_slice(), i);
    match level_between(trail.starts.as_slice(), low, i) {
        Some(level) => Some(Found { level, low }),
        None => None,
    }
}
