//! The clause solver.
#![tactic(auto)]

pub mod analysis;
pub mod answer;
pub mod ends;
pub mod leading;
pub mod order;
pub mod plan;
pub mod search;
pub mod shorten;
pub mod solver;
pub mod turn;
pub mod walk;
