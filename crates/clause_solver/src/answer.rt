//! The solver's answers.

use lemma_checker::answer::{Refutation, Satisfied};
use lemma_checker::lemmas::Lemmas;

/// What the solver found out about a formula.
#[derive(Debug, Drop)]
pub enum Solved {
    /// Values that satisfy it.
    Sat(Satisfied),
    /// Chains that reach the empty clause, so nothing satisfies it.
    Unsat(Refutation),
    /// As many lemmas as the budget, and no answer.
    Spent(Lemmas),
}
