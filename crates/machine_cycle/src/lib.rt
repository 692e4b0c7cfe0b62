//! A register map before its outputs, from its latches: the next state and the answer, as gates.
#![tactic(auto)]

pub mod cycle;

pub use cycle::{Cycle, cycle_gates};
