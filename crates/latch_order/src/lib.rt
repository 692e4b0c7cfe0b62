//! The latches of a register map, field by field: which of them are a field's bits and flags.
#![tactic(auto)]

pub mod latches;
pub mod laws;

pub use latches::{StateGates, latch_count, push_latches, state_gates, stored_gates};
