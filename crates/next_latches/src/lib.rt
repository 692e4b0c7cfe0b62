//! The latches of a register map after an edge, as gates.
#![tactic(auto)]

pub mod latches;
pub mod laws;

pub use latches::next_latches;
