//! The steps of counters and of interrupt fields, as gates.
#![tactic(auto)]

pub mod counter;
pub mod interrupt;
pub mod numbers;

pub use counter::{CountGates, count_gates};
pub use interrupt::{InterruptGates, interrupt_gates, raised_wire};
