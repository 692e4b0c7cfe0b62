//! What hardware makes of a field at an edge, as gates.
#![tactic(auto)]

pub mod kinds;
pub mod laws;
pub mod side;
pub mod source;

pub use kinds::{any_of_four, any_of_three, forced_word};
pub use side::{CounterGates, HardwareGates, counter_gates, intr_gates, plain_gates};
pub use source::{SourceGates, source_gates};
