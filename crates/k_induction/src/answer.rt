//! What the solver found out about a query.

use lemma_checker::chain::Chain;
use lemma_checker::lemmas::Lemmas;
use std::vec::Vec;
use unroll_cnf::CircuitRun;

/// What the solver found out about a base or step query.
#[derive(Debug, Drop)]
pub enum Answer {
    /// There is no such run; the chains reach the empty clause in the query.
    Refuted(Vec<Chain>),
    /// There is this one.
    Holds(CircuitRun),
    /// As many lemmas as the budget, and no answer.
    Spent(Lemmas),
}
