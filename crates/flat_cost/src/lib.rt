//! What the expressions of a flat design cost.
#![tactic(auto)]

pub mod assign;
pub mod laws;
pub mod price;
pub mod sources;
