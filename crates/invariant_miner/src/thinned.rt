//! What thinning a list of clauses gives.

use crate::set::InductiveSet;
use lemma_checker::lemmas::Lemmas;

/// The part of a list that is kept, or why it wasn't found.
#[derive(Debug, Drop)]
pub enum Thinned {
    /// The greatest closed set of clauses of the list.
    Kept(InductiveSet),
    /// As many lemmas as the budget, and no answer.
    MiningSpent(Lemmas),
}
