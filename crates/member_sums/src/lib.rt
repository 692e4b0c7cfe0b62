//! How much the interrupt fields of all registers weigh together.
#![tactic(auto)]

pub mod laws;
