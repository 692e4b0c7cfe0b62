//! Clauses, resolution chains, and what follows from them.
#![tactic(auto)]

pub mod answer;
pub mod chain;
pub mod checker;
pub mod clause;
pub mod clauses;
pub mod formula;
pub mod laws;
pub mod lemmas;
pub mod literal;
pub mod resolver;
