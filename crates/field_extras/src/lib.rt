//! Counters and interrupts: how a field of such a kind steps at an edge.
#![tactic(auto)]

pub mod counter;
pub mod interrupt;
