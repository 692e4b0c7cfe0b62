//! Bounded model checking and k-induction: the verdict on a circuit.
#![tactic(auto)]

pub mod answer;
mod asking;
pub mod decide;
pub mod found;
pub mod query;
mod search;
pub mod verdict;

pub use query::Query;
pub use verdict::{BadRun, LooseRun, SafeCircuit, Verdict};
