//! The verdict on a circuit.

ghost use Rattle.std.specs.Prelude.{◌≡◌, ℕ, ◌+◌, ◌^◌, ◌<◌, ◌≤◌, Bool, List, length, map, IfOk};
ghost use Rattle.gate_graph.specs.Runs.{IsSafe};
ghost use Rattle.unroll_cnf.specs.Runs.{IsBaseRun};
ghost use Rattle.invariant_miner.specs.Thinned.{IsInductive, IsAskable};
ghost use Rattle.k_induction.specs.Safety.{HasNoStep};
ghost use Rattle.k_induction.specs.Verdicts.{HasParts, SafeWithin, SafeByStep, BadIsShortest, LooseIsGood, SpentIsSpent, IsBadOrSpent, IsSafeOrSpent};

use crate::found::Found;
use crate::search::search;
use crate::verdict::{BadRun, LooseRun, SafeCircuit, Verdict};
use gate_graph::Circuit;
use invariant_miner::{InductiveSet, MOST_LEMMAS};
use std::alloc::{AllocError, Global};
use unroll_cnf::limits::MOST_EDGES;

/// The verdict on the circuit by base and step queries of 1 edge up to the bound, the step queries
/// from states that meet the set.
pub fn decide(
    alloc: Global,
    circuit: Circuit,
    set: InductiveSet,
    bound: u32,
    budget: u32,
) -> Result<Verdict, AllocError>
    requires some { 1 ≤ bound }
    requires few { bound ≤ MOST_EDGES }
    requires budget { 1 ≤ budget }
    requires small_budget { budget ≤ MOST_LEMMAS }
    requires set { IsInductive circuit set }
    requires askable { IsAskable circuit set.clauses.items }
    ensures same_parts { IfOk result (HasParts circuit set) }
    ensures safe_within { IfOk result (SafeWithin bound) }
    ensures safe_by_step { IfOk result (SafeByStep circuit set.clauses.items) }
    ensures bad_is_shortest { IfOk result (BadIsShortest circuit bound) }
    ensures loose_good { IfOk result (LooseIsGood circuit set.clauses.items bound) }
    ensures spent { IfOk result (SpentIsSpent circuit set.clauses.items bound budget) }
    ensures bad_is_found { (s : List Bool) (xs : List (List Bool)) (k : ℕ) → IsBaseRun circuit k s xs → 1 ≤ k → k ≤ bound → IfOk result IsBadOrSpent }
    ensures safe_is_found { IsSafe circuit → (k : ℕ) → k ≤ bound → HasNoStep circuit set.clauses.items k → IfOk result IsSafeOrSpent }
{
    match search(alloc, &circuit, set.clauses.as_slice(), bound, budget)? {
        Found::Proof { k, bases, step } => {
            let safe = SafeCircuit::of(circuit, set, k, bases, step);
            Ok(Verdict::Safe(safe))
        }
        Found::Bad(bad) => Ok(Verdict::Bad(BadRun { circuit, run: bad })),
        Found::Loose(loose) => Ok(Verdict::Loose(LooseRun {
            circuit,
            set,
            run: loose,
        })),
        Found::BudgetSpent { query, k, lemmas } => Ok(Verdict::BudgetSpent { query, k, lemmas }),
    }
}
