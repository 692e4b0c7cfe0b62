//! What is learned from a conflict: a chain, and the level to go back to.

ghost use Rattle.std.specs.Prelude.{◌≡◌, ◌≢◌, ℕ, ◌+◌, ◌-◌, ◌*◌, ◌/◌, ◌^◌, ◌<◌, ◌≤◌, Bool, true, false, List, [], ◌∷◌, ◌++◌, length, take, Option, Some, None, slice_get, OnOk, IfOk, IfSome, IfNone};
ghost use Rattle.lemma_checker.specs.declared.literal.Literal.{Literal};
ghost use Rattle.lemma_checker.specs.Clauses.{at, set_of, has, opposite};
ghost use Rattle.lemma_checker.specs.Checker.{Lists};
ghost use Rattle.watch_lists.specs.Scans.{IsTrailOf, AreWithin, IsConflictNumber};
ghost use Rattle.lemma_checker.specs.Chains.{chain_result};
ghost use Rattle.clause_solver.specs.Walks.{IsWalk, IsStop, IsClearing};
ghost use Rattle.clause_solver.specs.Analyses.{IsMarkedAt, StepStops, StepIs, AnalysisIs};

use crate::plan::Plan;
use crate::shorten::shorten;
use crate::walk::{Found, stop_at};
use lemma_checker::chain::{Chain, ChainFault};
use lemma_checker::clauses::Clauses;
use lemma_checker::literal::Literal;
use lemma_checker::resolver::{clause_at, clear, is_marked, merge, resolve};
use std::alloc::{AllocError, Global};
use std::vec::Vec;
use watch_lists::trail::Trail;

/// Where the solver goes back to: the level, the literal that the learned clause then forces, and
/// the one of its others that was denied last; the same literal where it has no other.
#[derive(Clone, Copy, Debug, Drop)]
pub struct Stop {
    pub literal: Literal,
    pub second: Literal,
    pub level: usize,
}

/// The chain of the learned clause, and where to go back to; nowhere where the clause is empty.
#[derive(Debug, Drop)]
pub struct Analysis {
    pub chain: Chain,
    pub stop: Option<Stop>,
}

/// Resolves the marked set with the reason of the literal at the place.
fn resolve_here(
    formula: &Clauses,
    added: &Clauses,
    trail: &Trail,
    i: usize,
    id: u32,
    seen: &mut [bool],
    touched: &mut Vec<Literal>,
    chain: &mut Chain,
) -> Result<(), AllocError>
    requires trail { IsTrailOf (formula.now ++ added.now) trail.now }
    requires over { AreWithin (length trail.now.values.items) (formula.now ++ added.now) }
    requires within { i < length trail.now.literals.items }
    requires reason { slice_get trail.now.reasons.items i ≡ Some id }
    requires forced { id ≢ 0 }
    requires walk { IsWalk (length trail.now.values.items) (formula.now ++ added.now) trail.now.literals.items (i + 1) seen.old touched.old.items chain.old.ids.items chain.old.pivots.items }
    requires marked { IsMarkedAt (at seen.old) trail.now.literals.items i }
    ensures { OnOk result (IsWalk (length trail.now.values.items) (formula.now ++ added.now) trail.now.literals.items i seen.new touched.new.items chain.new.ids.items chain.new.pivots.items) }
{
    let Some(clause) = clause_at(formula, added, id) else {
        unreachable!();
    };
    let pivot = trail.literals[i].variable();
    chain.ids.push(id)?;
    chain.pivots.push(pivot)?;
    match resolve(seen, touched, clause, pivot) {
        Ok(()) => Ok(()),
        Err(ChainFault::NoMemory) => Err(AllocError),
        Err(ChainFault::BadStep) => unreachable!(),
    }
}

/// How many of these literals are of a level.
fn count_of_level(literals: &[Literal], levels: &[u32], level: usize) -> usize {
    literals
        .iter()
        .filter(|x| levels.get(x.variable() as usize).copied().unwrap_or(0) as usize == level)
        .count()
}

/// One step back: at a literal whose opposite isn't marked the walk goes on; at another one it stops
/// where the clause so far forces the opposite at some level's start, else the clause is resolved
/// with the literal's reason. `open` says how many marked literals are of the last level.
fn step_back(
    formula: &Clauses,
    added: &Clauses,
    trail: &Trail,
    i: usize,
    seen: &mut [bool],
    touched: &mut Vec<Literal>,
    chain: &mut Chain,
    open: &mut usize,
    levels: &[u32],
) -> Result<Option<Found>, AllocError>
    requires trail { IsTrailOf (formula.now ++ added.now) trail.now }
    requires over { AreWithin (length trail.now.values.items) (formula.now ++ added.now) }
    requires within { i < length trail.now.literals.items }
    requires walk { IsWalk (length trail.now.values.items) (formula.now ++ added.now) trail.now.literals.items (i + 1) seen.old touched.old.items chain.old.ids.items chain.old.pivots.items }
    ensures { IfOk result (λ o. StepIs o (length trail.now.values.items) (formula.now ++ added.now) trail.now.literals.items trail.now.starts.items i seen.new touched.new.items chain.new.ids.items chain.new.pivots.items) }
{
    let literal = trail.literals[i];
    if !is_marked(seen, literal.opposite().0 as usize) {
        return Ok(None);
    }
    let id = trail.reasons[i];
    if let Some(found) = stop_at(*open, id, seen, trail, i) {
        return Ok(Some(found));
    }
    let before = touched.len();
    resolve_here(formula, added, trail, i, id, seen, touched, chain)?;
    let more = match touched.get(before..) {
        Some(new) => count_of_level(new, levels, trail.starts.len()),
        None => 0,
    };
    // the literal of the pivot in the reason is a new one of the level too, and goes with its opposite
    *open = open.saturating_sub(2).saturating_add(more);
    Ok(None)
}

/// Resolves the marked set with the reason of the literal at a place before the first level, if the
/// set has its opposite.
fn clear_at(
    formula: &Clauses,
    added: &Clauses,
    trail: &Trail,
    p: usize,
    seen: &mut [bool],
    touched: &mut Vec<Literal>,
    chain: &mut Chain,
) -> Result<(), AllocError>
    requires trail { IsTrailOf (formula.now ++ added.now) trail.now }
    requires over { AreWithin (length trail.now.values.items) (formula.now ++ added.now) }
    requires within { p < length trail.now.literals.items }
    requires before { (i a : ℕ) → slice_get trail.now.starts.items i ≡ Some a → p < a }
    requires size { length seen.old ≡ length trail.now.values.items }
    requires lists { Lists seen.old touched.old.items }
    requires inside { (l : ℕ) → at seen.old l ≡ true → has (opposite l) trail.now.literals.items ≡ true }
    ensures { OnOk result ((bottom : ℕ) (first : ℕ → Bool) → p < bottom → IsClearing (length trail.now.values.items) (formula.now ++ added.now) trail.now.literals.items bottom (p + 1) first seen.old touched.old.items chain.old.ids.items chain.old.pivots.items → IsClearing (length trail.now.values.items) (formula.now ++ added.now) trail.now.literals.items bottom p first seen.new touched.new.items chain.new.ids.items chain.new.pivots.items) }
{
    let literal = trail.literals[p];
    if !is_marked(seen, literal.opposite().0 as usize) {
        return Ok(());
    }
    let reason = trail.reasons[p];
    let Some(clause) = clause_at(formula, added, reason) else {
        unreachable!();
    };
    let pivot = literal.variable();
    chain.ids.push(reason)?;
    chain.pivots.push(pivot)?;
    match resolve(seen, touched, clause, pivot) {
        Ok(()) => Ok(()),
        Err(ChainFault::NoMemory) => Err(AllocError),
        Err(ChainFault::BadStep) => unreachable!(),
    }
}

/// The literal that is denied just before `low`, if that is past `bottom`; else this one.
fn last_denied(literals: &[Literal], bottom: usize, low: usize, literal: Literal) -> Literal
    requires within { low ≤ length literals.now }
    ensures high { (y : Literal) → bottom < low → slice_get literals.now (low - 1) ≡ Some y → result.0 ≡ opposite y.0 }
    ensures low { low ≤ bottom → result ≡ literal }
{
    if low > bottom {
        literals[low - 1].opposite()
    } else {
        literal
    }
}

/// Where to go back to from place `i`, after the literals that are denied before the first level
/// were resolved away.
fn clear_bottom(
    formula: &Clauses,
    added: &Clauses,
    trail: &Trail,
    i: usize,
    found: Found,
    seen: &mut [bool],
    touched: &mut Vec<Literal>,
    chain: &mut Chain,
) -> Result<Stop, AllocError>
    requires trail { IsTrailOf (formula.now ++ added.now) trail.now }
    requires over { AreWithin (length trail.now.values.items) (formula.now ++ added.now) }
    requires within { i < length trail.now.literals.items }
    requires stops { StepStops (length trail.now.values.items) (formula.now ++ added.now) trail.now.literals.items trail.now.starts.items i found.level found.low seen.old touched.old.items chain.old.ids.items chain.old.pivots.items }
    ensures lists { OnOk result (Lists seen.new touched.new.items) }
    ensures chain { OnOk result (chain_result (formula.now ++ added.now) chain.new.ids.items chain.new.pivots.items ≡ Some (at seen.new)) }
    ensures stop { IfOk result (λ s. IsStop trail.now.literals.items trail.now.starts.items (at seen.new) s.literal.0 s.second.0 s.level) }
{
    let bottom = trail.starts[0];
    let mut p = bottom;
    while p > 0 {
        p -= 1;
        clear_at(formula, added, trail, p, seen, touched, chain)?;
    }
    let literal = trail.literals[i].opposite();
    let second = last_denied(trail.literals.as_slice(), bottom, found.low, literal);
    Ok(Stop {
        literal,
        second,
        level: found.level,
    })
}

/// The chain that the conflict gives, and where to go back to. The plan only guides the search.
pub fn analyze(
    alloc: Global,
    formula: &Clauses,
    added: &Clauses,
    trail: &Trail,
    conflict: u32,
    seen: &mut [bool],
    touched: &mut Vec<Literal>,
    plan: &mut Plan,
) -> Result<Analysis, AllocError>
    requires trail { IsTrailOf (formula.now ++ added.now) trail.now }
    requires over { AreWithin (length trail.now.values.items) (formula.now ++ added.now) }
    requires conflict { IsConflictNumber (formula.now ++ added.now) conflict (set_of trail.now.literals.items) }
    requires size { length seen.old ≡ length trail.now.values.items }
    requires lists { Lists seen.old touched.old.items }
    ensures lists { OnOk result (Lists seen.new touched.new.items) }
    ensures analysis { IfOk result (λ a. AnalysisIs (formula.now ++ added.now) trail.now.literals.items trail.now.starts.items a) }
{
    clear(seen, touched);
    let Some(clause) = clause_at(formula, added, conflict) else {
        unreachable!();
    };
    merge(seen, touched, clause)?;
    let mut ids = Vec::new(alloc);
    ids.push(conflict)?;
    let mut chain = Chain {
        ids,
        pivots: Vec::new(alloc),
    };
    let mut open = count_of_level(
        touched.as_slice(),
        plan.levels.as_slice(),
        trail.starts.len(),
    );
    let mut i = trail.literals.len();
    while i > 0 {
        i -= 1;
        let levels = plan.levels.as_slice();
        let step = step_back(
            formula, added, trail, i, seen, touched, &mut chain, &mut open, levels,
        )?;
        if let Some(found) = step {
            plan.make(formula, added, trail, seen, touched.as_slice(), found.low)?;
            let drops = plan.drops.as_slice();
            let found = shorten(
                formula, added, trail, i, found, drops, seen, touched, &mut chain,
            )?;
            let stop = clear_bottom(formula, added, trail, i, found, seen, touched, &mut chain)?;
            return Ok(Analysis {
                chain,
                stop: Some(stop),
            });
        }
    }
    Ok(Analysis { chain, stop: None })
}
