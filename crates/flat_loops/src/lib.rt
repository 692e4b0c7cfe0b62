//! Which items of a flat design feed on which, and an order of them or a loop.
#![tactic(auto)]

pub mod feeds;
pub mod graph;
pub mod order;
pub mod sort;
