//! The verdicts on a circuit.

ghost use Rattle.std.specs.Prelude.{◌≡◌, ◌≤◌, length, map};
ghost use Rattle.gate_graph.specs.Runs.{IsSafe};
ghost use Rattle.unroll_cnf.specs.Meaning.{edges_of, HasSizes};
ghost use Rattle.unroll_cnf.specs.declared.limits.TheConstants.{MOST_EDGES};
ghost use Rattle.invariant_miner.specs.Thinned.{IsAskable};
ghost use Rattle.k_induction.specs.Safety.{IsBadRun, IsLooseRun};
ghost use Rattle.k_induction.specs.Chains.{AreBases, RefuteStep, RefuteKeep};

use crate::query::Query;
use gate_graph::Circuit;
use invariant_miner::InductiveSet;
use lemma_checker::chain::Chain;
use lemma_checker::lemmas::Lemmas;
use std::vec::Vec;
use unroll_cnf::CircuitRun;

/// A circuit of which no run from the start has a bad edge, with what shows it: chains that refute
/// the base queries of 1 to `k` edges, the step query of `k` edges from the set, and the keep query
/// of the set.
#[derive(Drop)]
pub struct SafeCircuit {
    pub circuit: Circuit,
    pub set: InductiveSet,
    pub k: u32,
    pub bases: Vec<Vec<Chain>>,
    pub step: Vec<Chain>,
    pub ghost some: { 1 ≤ k },
    pub ghost few: { k ≤ MOST_EDGES },
    pub ghost counted: { length bases.items ≡ k },
    pub ghost askable: { IsAskable circuit set.clauses.items },
    pub ghost bases_refute: { AreBases circuit (map (λ b. b.items) bases.items) },
    pub ghost step_refutes: { RefuteStep circuit set.clauses.items k step.items },
    pub ghost keep_refutes: { RefuteKeep circuit set.clauses.items set.chains.items },
    pub ghost safe: { IsSafe circuit },
}

impl SafeCircuit {
    /// The circuit, where these chains refute the base queries of 1 to `k` edges, the step query of
    /// `k` edges from the set, and the set's own chains its keep query: no run from the start is bad.
    pub fn of(
        circuit: Circuit,
        set: InductiveSet,
        k: u32,
        bases: Vec<Vec<Chain>>,
        step: Vec<Chain>,
    ) -> SafeCircuit
        requires some { 1 ≤ k }
        requires few { k ≤ MOST_EDGES }
        requires counted { length bases.items ≡ k }
        requires askable { IsAskable circuit set.clauses.items }
        requires bases_refute { AreBases circuit (map (λ b. b.items) bases.items) }
        requires step_refutes { RefuteStep circuit set.clauses.items k step.items }
        requires keep_refutes { RefuteKeep circuit set.clauses.items set.chains.items }
        ensures circuit { result.circuit ≡ circuit }
        ensures set { result.set ≡ set }
        ensures k { result.k ≡ k }
        ensures bases { result.bases ≡ bases }
        ensures step { result.step ≡ step }
    {
        SafeCircuit {
            circuit,
            set,
            k,
            bases,
            step,
        }
    }
}

/// A circuit with a run from the start that is bad at its last edge and at none before.
#[derive(Drop)]
pub struct BadRun {
    pub circuit: Circuit,
    pub run: CircuitRun,
    pub ghost sizes: { HasSizes circuit run },
    pub ghost bad: { ∥ IsBadRun circuit run.start.items (edges_of run) ∥₁ },
}

/// A circuit with a run from a state that meets the set, bad at its last edge and at none before.
/// The state may be one that no run from the start reaches.
#[derive(Drop)]
pub struct LooseRun {
    pub circuit: Circuit,
    pub set: InductiveSet,
    pub run: CircuitRun,
    pub ghost sizes: { HasSizes circuit run },
    pub ghost loose: { IsLooseRun circuit set.clauses.items run.start.items (edges_of run) },
}

/// The verdict on a circuit.
#[derive(Drop)]
pub enum Verdict {
    Safe(SafeCircuit),
    Bad(BadRun),
    Loose(LooseRun),
    /// As many lemmas as the budget on the query of `k` edges, and no answer.
    BudgetSpent {
        query: Query,
        k: u32,
        lemmas: Lemmas,
    },
}
