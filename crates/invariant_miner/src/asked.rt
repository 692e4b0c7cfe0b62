//! Whether a set is kept.

use lemma_checker::chain::Chain;
use lemma_checker::lemmas::Lemmas;
use std::vec::Vec;

/// What the solver found out about the keep query of a set.
#[derive(Debug, Drop)]
pub enum Asked {
    /// Every edge keeps the set; the chains reach the empty clause in the query.
    Closed(Vec<Chain>),
    /// An edge from a state that meets the set leads to this state, which doesn't.
    Leaves(Vec<bool>),
    /// As many lemmas as the budget, and no answer.
    Spent(Lemmas),
}
