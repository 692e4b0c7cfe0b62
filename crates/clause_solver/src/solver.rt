//! The clause solver: turns of descent, analysis and learning.

ghost use Rattle.std.specs.Prelude.{◌≡◌, ℕ, ◌+◌, ◌-◌, ◌*◌, ◌^◌, ◌<◌, ◌≤◌, Bool, true, false, List, [], ◌∷◌, ◌++◌, length, slice_get, Option, Some, None, OnOk, OnErr, IfOk, IfSome, IfNone};
ghost use Rattle.lemma_checker.specs.Clauses.{at, set_of};
ghost use Rattle.lemma_checker.specs.Chains.{has_empty};
ghost use Rattle.lemma_checker.specs.Checker.{Lists};
ghost use Rattle.lemma_checker.specs.declared.literal.Literal.{Literal};
ghost use Rattle.lemma_checker.specs.Propagation.{DoesNotConflict, AreNew};
ghost use Rattle.watch_lists.specs.declared.trail.Trail.{Trail};
ghost use Rattle.watch_lists.specs.Scans.{IsTrailOf, IsConflictNumber};
ghost use Rattle.watch_lists.specs.Watches.{AreSound, Holds, Fits, ArePairGuarded};
ghost use Rattle.clause_solver.specs.Analyses.{AnalysisIs};
ghost use Rattle.clause_solver.specs.Solver.{all_of, ArePairOrOne, IsReady, TurnIs, RoundIs, SolvedIs, IsAboutFormula, IfSpent, IsFull};

use crate::analysis::{Analysis, Stop, analyze};
use crate::answer::Solved;
use crate::ends::{model, refute, to_bottom};
use crate::leading::Leading;
use crate::order::Order;
use crate::plan::Plan;
use crate::search::descend;
use crate::turn::Turn;
use lemma_checker::chain::ChainFault;
use lemma_checker::formula::Formula;
use lemma_checker::lemmas::Lemmas;
use lemma_checker::literal::Literal;
use std::alloc::{AllocError, Global};
use std::vec::Vec;
use watch_lists::trail::Trail;
use watch_lists::watches::Watches;

/// Analyzes a conflict over the lemmas' clauses.
fn settle(
    alloc: Global,
    lemmas: &Lemmas,
    trail: &Trail,
    conflict: u32,
    seen: &mut [bool],
    touched: &mut Vec<Literal>,
    plan: &mut Plan,
) -> Result<Analysis, AllocError>
    requires trail { IsTrailOf (all_of lemmas.now) trail.now }
    requires size { length trail.now.values.items ≡ 2 * lemmas.now.formula.vars + 2 }
    requires conflict { IsConflictNumber (all_of lemmas.now) conflict (set_of trail.now.literals.items) }
    requires seen { length seen.old ≡ length trail.now.values.items }
    requires lists { Lists seen.old touched.old.items }
    ensures lists { OnOk result (Lists seen.new touched.new.items) }
    ensures analysis { IfOk result (λ a. AnalysisIs (all_of lemmas.now) trail.now.literals.items trail.now.starts.items a) }
{
    let formula = &lemmas.formula;
    analyze(
        alloc,
        &formula.clauses,
        &lemmas.added,
        trail,
        conflict,
        seen,
        touched,
        plan,
    )
}

/// Watches the last added clause at the literal that it forces, and at the one that was denied last.
fn watch_last(lemmas: &Lemmas, watches: &mut Watches, stop: Stop) -> Result<(), AllocError>
    requires some { 0 < length lemmas.now.added }
    requires sound { AreSound watches.old }
    requires size { length watches.old.lists.items ≡ 2 * lemmas.now.formula.vars + 2 }
    requires pair { (c : List Literal) → slice_get lemmas.now.added (length lemmas.now.added - 1) ≡ Some c → ArePairOrOne c stop.literal.0 stop.second.0 }
    ensures holds { OnOk result ((vars : ℕ) (clauses : List (List Literal)) (c : List Literal) → slice_get lemmas.now.added (length lemmas.now.added - 1) ≡ Some c → Holds watches.old vars clauses → Holds watches.new vars (clauses ++ c ∷ [])) }
    ensures fits { OnOk result ((t : Trail) (c : List Literal) → slice_get lemmas.now.added (length lemmas.now.added - 1) ≡ Some c → Fits watches.old t → ArePairGuarded c stop.literal.0 stop.second.0 t → Fits watches.new t) }
{
    let last = lemmas.added.len() - 1;
    let clause = lemmas.added.clause(last);
    watches.add(clause, stop.literal, stop.second)?;
    Ok(())
}

/// Adds the learned clause, and goes back with the literal that it forces.
fn finish(
    lemmas: &mut Lemmas,
    watches: &mut Watches,
    trail: &mut Trail,
    analysis: Analysis,
) -> Result<Turn, AllocError>
    requires ready { IsReady lemmas.old watches.old trail.old }
    requires few { length lemmas.old.formula.clauses + length lemmas.old.added < 2 ^ 31 }
    requires analysis { AnalysisIs (all_of lemmas.old) trail.old.literals.items trail.old.starts.items analysis }
    ensures vars { lemmas.new.formula.vars ≡ lemmas.old.formula.vars }
    ensures clauses { lemmas.new.formula.clauses ≡ lemmas.old.formula.clauses }
    ensures turn { IfOk result (λ turn. TurnIs turn lemmas.old lemmas.new watches.new trail.old trail.new) }
{
    let Analysis { chain, stop } = analysis;
    let id = match lemmas.try_chain(chain) {
        Ok(id) => id,
        Err(ChainFault::NoMemory) => return Err(AllocError),
        Err(ChainFault::BadStep) => unreachable!(),
    };
    match stop {
        None => Ok(Turn::Refuted),
        Some(stop) => {
            let place = trail.starts[stop.level];
            trail.cut(stop.level, place);
            trail.push(stop.literal, id)?;
            watch_last(lemmas, watches, stop)?;
            Ok(Turn::Learned)
        }
    }
}

/// Lets the variables be chosen again that lose their values where the solver goes back.
fn release(order: &mut Order, trail: &Trail, analysis: &Analysis) -> Result<(), AllocError> {
    if let Some(stop) = analysis.stop {
        if let Some(place) = trail.starts.get(stop.level) {
            order.release(trail, *place)?;
        }
    }
    Ok(())
}

/// One turn: a descent, and what is learned from the conflict, if there is one.
fn take_turn(
    alloc: Global,
    lemmas: &mut Lemmas,
    watches: &mut Watches,
    trail: &mut Trail,
    seen: &mut [bool],
    touched: &mut Vec<Literal>,
    order: &mut Order,
) -> Result<Turn, AllocError>
    requires ready { IsReady lemmas.old watches.old trail.old }
    requires few { length lemmas.old.formula.clauses + length lemmas.old.added < 2 ^ 31 }
    requires seen { length seen.old ≡ 2 * lemmas.old.formula.vars + 2 }
    requires lists { Lists seen.old touched.old.items }
    ensures vars { lemmas.new.formula.vars ≡ lemmas.old.formula.vars }
    ensures clauses { lemmas.new.formula.clauses ≡ lemmas.old.formula.clauses }
    ensures lists { OnOk result (Lists seen.new touched.new.items) }
    ensures turn { IfOk result (λ turn. RoundIs turn lemmas.old lemmas.new watches.new trail.new) }
{
    let Some(conflict) = descend(lemmas, watches, trail, order)? else {
        return Ok(Turn::Assigned);
    };
    let plan = &mut order.plan;
    let analysis = settle(alloc, lemmas, trail, conflict, seen, touched, plan)?;
    order.bump(touched.as_slice(), trail.values.as_slice());
    release(order, trail, &analysis)?;
    let turn = finish(lemmas, watches, trail, analysis)?;
    Ok(turn)
}

/// The lemmas, where no conflict is left at the bottom level; else the refutation.
fn conclude(
    alloc: Global,
    lemmas: Lemmas,
    watches: &mut Watches,
    trail: &mut Trail,
    seen: &mut [bool],
    touched: &mut Vec<Literal>,
    plan: &mut Plan,
) -> Result<Solved, AllocError>
    requires ready { IsReady lemmas watches.old trail.old }
    requires few { length lemmas.formula.clauses + length lemmas.added < 2 ^ 31 }
    requires seen { length seen.old ≡ 2 * lemmas.formula.vars + 2 }
    requires lists { Lists seen.old touched.old.items }
    ensures { IfOk result (λ s. SolvedIs s lemmas.formula (length lemmas.added)) }
{
    let mut lemmas = lemmas;
    to_bottom(trail);
    let Some(conflict) = watches.propagate(trail)? else {
        return Ok(Solved::Spent(lemmas));
    };
    let analysis = settle(alloc, &lemmas, trail, conflict, seen, touched, plan)?;
    match finish(&mut lemmas, watches, trail, analysis)? {
        Turn::Refuted => Ok(Solved::Unsat(refute(lemmas))),
        Turn::Learned | Turn::Assigned => unreachable!(),
    }
}

/// Turns until there is an answer or the budget is spent.
fn rounds(
    alloc: Global,
    lemmas: Lemmas,
    watches: &mut Watches,
    trail: &mut Trail,
    seen: &mut [bool],
    touched: &mut Vec<Literal>,
    order: &mut Order,
    budget: u32,
) -> Result<Solved, AllocError>
    requires ready { IsReady lemmas watches.old trail.old }
    requires first { lemmas.added ≡ [] }
    requires few { length lemmas.formula.clauses + budget < 2 ^ 31 }
    requires seen { length seen.old ≡ 2 * lemmas.formula.vars + 2 }
    requires lists { Lists seen.old touched.old.items }
    ensures { IfOk result (λ s. SolvedIs s lemmas.formula budget) }
{
    let mut lemmas = lemmas;
    for turn in 0..budget {
        match take_turn(alloc, &mut lemmas, watches, trail, seen, touched, order)? {
            Turn::Assigned => {
                let satisfied = model(alloc, lemmas, trail.values.as_slice())?;
                return Ok(Solved::Sat(satisfied));
            }
            Turn::Refuted => return Ok(Solved::Unsat(refute(lemmas))),
            Turn::Learned => {
                if order.restarts() {
                    order.release(trail, 0)?;
                    to_bottom(trail);
                }
            }
        }
    }
    let solved = conclude(
        alloc,
        lemmas,
        watches,
        trail,
        seen,
        touched,
        &mut order.plan,
    )?;
    Ok(solved)
}

/// As [`solve`]; these variables are chosen before all others.
pub fn solve_leading(
    alloc: Global,
    formula: Formula,
    leading: Leading,
    budget: u32,
) -> Result<Solved, AllocError>
    requires some { 1 ≤ budget }
    requires few { length formula.clauses + budget < 2 ^ 31 }
    ensures answer { IfOk result (λ s. SolvedIs s formula budget) }
    ensures same_formula { IfOk result (λ s. IsAboutFormula s formula) }
    ensures spent_full { IfOk result (λ s. IfSpent s (λ l. IsFull l budget)) }
    ensures spent_new { IfOk result (λ s. IfSpent s (λ l. AreNew l.formula.clauses l.added)) }
    ensures spent_no_conflict { IfOk result (λ s. IfSpent s (λ l. DoesNotConflict (all_of l) (λ _. false))) }
    ensures spent_not_small { IfOk result (λ s. IfSpent s (λ l. budget < 3 ^ l.formula.vars)) }
{
    let vars = formula.vars;
    let mut trail = Trail::new(alloc, vars)?;
    let mut order = Order::new(alloc, vars, leading)?;
    let mut seen = Vec::new(alloc);
    seen.resize(2 * vars as usize + 2, false)?;
    let mut touched = Vec::new(alloc);
    let mut watches = Watches::of(alloc, &formula)?;
    let lemmas = Lemmas::of(formula);
    let solved = rounds(
        alloc,
        lemmas,
        &mut watches,
        &mut trail,
        seen.as_mut_slice(),
        &mut touched,
        &mut order,
        budget,
    )?;
    Ok(solved)
}

/// Finds values that satisfy the formula, or chains that refute it; it gives up after `budget`
/// lemmas.
pub fn solve(alloc: Global, formula: Formula, budget: u32) -> Result<Solved, AllocError>
    requires some { 1 ≤ budget }
    requires few { length formula.clauses + budget < 2 ^ 31 }
    ensures answer { IfOk result (λ s. SolvedIs s formula budget) }
    ensures same_formula { IfOk result (λ s. IsAboutFormula s formula) }
    ensures spent_full { IfOk result (λ s. IfSpent s (λ l. IsFull l budget)) }
    ensures spent_new { IfOk result (λ s. IfSpent s (λ l. AreNew l.formula.clauses l.added)) }
    ensures spent_no_conflict { IfOk result (λ s. IfSpent s (λ l. DoesNotConflict (all_of l) (λ _. false))) }
    ensures spent_not_small { IfOk result (λ s. IfSpent s (λ l. budget < 3 ^ l.formula.vars)) }
{
    solve_leading(alloc, formula, Leading::none(), budget)
}
