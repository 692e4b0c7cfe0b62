//! What the interrupt fields of a register raise, as gates.
#![tactic(auto)]

pub mod laws;
pub mod raises;

pub use raises::{intr_wire, member_wire, raise_wire};
