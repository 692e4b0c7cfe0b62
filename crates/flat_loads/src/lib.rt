//! What the statements, the items and the whole of a flat design cost, and whether it is too large.
#![tactic(auto)]

pub mod cost;
pub mod drives;
pub mod size;
