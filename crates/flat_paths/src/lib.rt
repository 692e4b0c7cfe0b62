//! Paths through a statement: one number for each `if` and `case` met.
#![tactic(auto)]

pub mod laws;
