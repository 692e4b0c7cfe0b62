//! What the search over the queries found.

use crate::query::Query;
use lemma_checker::chain::Chain;
use lemma_checker::lemmas::Lemmas;
use std::vec::Vec;
use unroll_cnf::CircuitRun;

/// What the search over base and step queries found.
#[derive(Debug, Drop)]
pub enum Found {
    /// Chains that refute the base queries up to `k` and the step query of `k`.
    Proof {
        k: u32,
        bases: Vec<Vec<Chain>>,
        step: Vec<Chain>,
    },
    /// A shortest bad run.
    Bad(CircuitRun),
    /// A run of the step query of the bound.
    Loose(CircuitRun),
    /// As many lemmas as the budget on the query of `k` edges.
    BudgetSpent {
        query: Query,
        k: u32,
        lemmas: Lemmas,
    },
}
