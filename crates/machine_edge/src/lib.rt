//! The edge of a register machine that wires stand for.
#![tactic(auto)]

pub mod laws;
