//! Asking the solver.

ghost use Rattle.std.specs.Prelude.{◌≡◌, ◌+◌, ◌*◌, ◌^◌, ◌<◌, ◌≤◌, length, IfOk};
ghost use Rattle.invariant_miner.specs.Thinned.{IsAskable};
ghost use Rattle.k_induction.specs.Verdicts.{BaseIs, StepIs};

use crate::answer::Answer;
use clause_solver::answer::Solved;
use clause_solver::solver::solve;
use gate_graph::Circuit;
use invariant_miner::MOST_LEMMAS;
use std::alloc::{AllocError, Global};
use unroll_cnf::limits::MOST_EDGES;
use unroll_cnf::{LatchClause, base_query, run_of, step_query};

/// Whether a run of `k` edges from the start is bad at its last edge.
pub(crate) fn ask_base(
    alloc: Global,
    circuit: &Circuit,
    k: u32,
    budget: u32,
) -> Result<Answer, AllocError>
    requires some { 1 ≤ k }
    requires few { k ≤ MOST_EDGES }
    requires budget { 1 ≤ budget }
    requires small_budget { budget ≤ MOST_LEMMAS }
    ensures { IfOk result (BaseIs circuit.now k budget) }
{
    let query = base_query(alloc, circuit, k)?;
    match solve(alloc, query, budget)? {
        Solved::Unsat(refutation) => Ok(Answer::Refuted(refutation.chains())),
        Solved::Spent(lemmas) => Ok(Answer::Spent(lemmas)),
        Solved::Sat(model) => {
            let found = run_of(alloc, circuit, k, &model)?;
            Ok(Answer::Holds(found))
        }
    }
}

/// Whether a run from a state that meets the set is good at its first `k` edges and bad at the next.
pub(crate) fn ask_step(
    alloc: Global,
    circuit: &Circuit,
    set: &[LatchClause],
    k: u32,
    budget: u32,
) -> Result<Answer, AllocError>
    requires few { k ≤ MOST_EDGES }
    requires budget { 1 ≤ budget }
    requires small_budget { budget ≤ MOST_LEMMAS }
    requires askable { IsAskable circuit.now set.now }
    ensures { IfOk result (StepIs circuit.now set.now k budget) }
{
    let query = step_query(alloc, circuit, k, set)?;
    match solve(alloc, query, budget)? {
        Solved::Unsat(refutation) => Ok(Answer::Refuted(refutation.chains())),
        Solved::Spent(lemmas) => Ok(Answer::Spent(lemmas)),
        Solved::Sat(model) => {
            let found = run_of(alloc, circuit, k + 1, &model)?;
            Ok(Answer::Holds(found))
        }
    }
}
