//! Thinning a list of clauses to those that are kept.

ghost use Rattle.std.specs.Prelude.{◌≡◌, ◌+◌, ◌^◌, ◌<◌, ◌≤◌, [], length, map, slice_index_or, IfOk, OnOk};
ghost use Rattle.gate_graph.specs.Runs.{next_state};
ghost use Rattle.std.specs.List.{filter};
ghost use Rattle.lemma_checker.specs.Chains.{ReachesEmpty};
ghost use Rattle.lemma_checker.specs.Checker.{link};
ghost use Rattle.unroll_cnf.specs.Latches.{meets, AreOfLatches, weight};
ghost use Rattle.unroll_cnf.specs.Queries.{keep_clauses};
ghost use Rattle.unroll_cnf.specs.Runs.{IsKeepEdge};
ghost use Rattle.unroll_cnf.specs.Meaning.{edges_of, HasSizes};
ghost use Rattle.invariant_miner.specs.Kept.{IsAbove, IsGreatestClosed};
ghost use Rattle.invariant_miner.specs.Thinned.{AskedIs, LeavesSet, IsInductive, IsAskable, IsMiningSpent, IfKept, IfMiningSpent};

use crate::asked::Asked;
use crate::set::InductiveSet;
use crate::sift::sift;
use crate::thinned::Thinned;
use clause_solver::answer::Solved;
use clause_solver::leading::Leading;
use clause_solver::solver::solve_leading;
use gate_graph::Circuit;
use lemma_checker::answer::Satisfied;
use std::alloc::{AllocError, Global};
use std::vec::Vec;
use unroll_cnf::{CircuitRun, LatchClause, keep_query, run_of};

/// The most lemmas that a query may take.
pub const MOST_LEMMAS: u32 = 200_000;

/// The state after the one edge of the run.
fn after_edge(alloc: Global, circuit: &Circuit, run: &CircuitRun) -> Result<Vec<bool>, AllocError>
    requires sizes { HasSizes circuit.now run.now }
    requires one { length run.now.inputs.items ≡ 1 }
    ensures { IfOk result (λ v. v.items ≡ next_state circuit.now run.now.start.items (slice_index_or (edges_of run.now) 0 [])) }
{
    let inputs = run.inputs[0].as_slice();
    let next = circuit.next_state(alloc, run.start.as_slice(), inputs)?;
    Ok(next)
}

/// The state after the edge that the values of the keep query stand for.
fn left_state(
    alloc: Global,
    circuit: &Circuit,
    set: &[LatchClause],
    model: &Satisfied,
) -> Result<Vec<bool>, AllocError>
    requires of { AreOfLatches (length circuit.now.latches.items) set.now }
    requires query { model.now.formula.clauses ≡ keep_clauses circuit.now set.now }
    ensures { IfOk result (λ v. LeavesSet circuit.now set.now v.items) }
{
    let run = run_of(alloc, circuit, 1, model)?;
    let next = after_edge(alloc, circuit, &run)?;
    Ok(next)
}

/// Whether every edge keeps the set. Edges that break the clause at this place are looked for first.
fn ask(
    alloc: Global,
    circuit: &Circuit,
    set: &[LatchClause],
    place: u32,
    budget: u32,
) -> Result<Asked, AllocError>
    requires some { 1 ≤ budget }
    requires few { budget ≤ MOST_LEMMAS }
    requires askable { IsAskable circuit.now set.now }
    ensures { IfOk result (AskedIs circuit.now set.now budget) }
{
    let query = keep_query(alloc, circuit, set)?;
    let first = circuit.graph.size().saturating_add(1);
    let next = first.saturating_add(place);
    match solve_leading(alloc, query, Leading { first, next }, budget)? {
        Solved::Unsat(refutation) => Ok(Asked::Closed(refutation.chains())),
        Solved::Spent(lemmas) => Ok(Asked::Spent(lemmas)),
        Solved::Sat(model) => {
            let next = left_state(alloc, circuit, set, &model)?;
            Ok(Asked::Leaves(next))
        }
    }
}

/// The place of the first clause that the state doesn't meet, from which the next search goes on.
fn first_unmet(clauses: &[LatchClause], state: &[bool]) -> u32 {
    let mut place = 0u32;
    for clause in clauses {
        if !clause.meets(state) {
            return place;
        }
        place = place.saturating_add(1);
    }
    0
}

/// Drops the clauses that the state doesn't meet.
fn keep_met(clauses: &mut Vec<LatchClause>, state: &[bool])
    ensures { clauses.new.items ≡ filter (meets state.now) clauses.old.items }
{
    clauses.retain(|clause| clause.meets(state));
}

/// Drops the clauses that a state after an edge doesn't meet, and others that edges from states beside
/// it break.
fn narrow(
    alloc: Global,
    circuit: &Circuit,
    clauses: &mut Vec<LatchClause>,
    state: &[bool],
) -> Result<(), AllocError>
    requires leaves { LeavesSet circuit.now clauses.old.items state.now }
    ensures above { OnOk result (IsAbove circuit.now clauses.old.items clauses.new.items) }
    ensures fewer { OnOk result (length clauses.new.items < length clauses.old.items) }
{
    keep_met(clauses, state);
    sift(alloc, circuit, clauses, state)?;
    Ok(())
}

/// The greatest closed set of clauses of the list, in its order, with the chains that show it closed.
/// Where a query of the search takes more than `budget` lemmas, these lemmas.
pub fn thin(
    alloc: Global,
    circuit: &Circuit,
    list: Vec<LatchClause>,
    budget: u32,
) -> Result<Thinned, AllocError>
    requires some { 1 ≤ budget }
    requires few { budget ≤ MOST_LEMMAS }
    requires askable { IsAskable circuit.now list.items }
    ensures kept { IfOk result (λ t. IfKept t (λ set. IsGreatestClosed circuit.now list.items set.clauses.items)) }
    ensures kept_chains { IfOk result (λ t. IfKept t (IsInductive circuit.now)) }
    ensures kept_askable { IfOk result (λ t. IfKept t (λ set. IsAskable circuit.now set.clauses.items)) }
    ensures mining_spent { IfOk result (λ t. IfMiningSpent t (IsMiningSpent circuit.now list.items budget)) }
{
    let mut current = list;
    let start = vec![in alloc; false; circuit.latches.len()]?;
    sift(alloc, circuit, &mut current, start.as_slice())?;
    let mut place = 0;
    'thinning: loop {
        match ask(alloc, circuit, current.as_slice(), place, budget)? {
            Asked::Closed(chains) => {
                return Ok(Thinned::Kept(InductiveSet {
                    clauses: current,
                    chains,
                }));
            }
            Asked::Spent(lemmas) => return Ok(Thinned::MiningSpent(lemmas)),
            Asked::Leaves(state) => {
                place = first_unmet(current.as_slice(), state.as_slice());
                narrow(alloc, circuit, &mut current, state.as_slice())?;
            }
        }
    }
}
