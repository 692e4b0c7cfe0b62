//! Sets of clauses that are kept.

ghost use Rattle.std.specs.Prelude.{◌≡◌, []};

use lemma_checker::chain::Chain;
use std::alloc::Global;
use std::vec::Vec;
use unroll_cnf::LatchClause;

/// Clauses that every edge of a circuit keeps, and the chains that reach the empty clause in the
/// keep query of the circuit that the set was made for.
#[derive(Debug, Drop)]
pub struct InductiveSet {
    pub clauses: Vec<LatchClause>,
    pub chains: Vec<Chain>,
}

impl InductiveSet {
    ghost use Rattle.gate_graph.specs.declared.circuits.Circuit.{Circuit};
    ghost use Rattle.invariant_miner.specs.Thinned.{IsInductive, IsAskable};

    /// The set without clauses, which every circuit keeps. It takes no memory.
    pub fn empty(alloc: Global) -> InductiveSet
        ensures clauses { result.clauses.items ≡ [] }
        ensures chains { (c : Circuit) → IsInductive c result }
        ensures askable { (c : Circuit) → IsAskable c result.clauses.items }
    {
        InductiveSet {
            clauses: Vec::new(alloc),
            chains: Vec::new(alloc),
        }
    }
}
