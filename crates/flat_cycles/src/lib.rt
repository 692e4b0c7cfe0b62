//! The shortest loop of a graph that begins at a node and has none before it.
#![tactic(auto)]

pub mod search;
pub mod visit;
