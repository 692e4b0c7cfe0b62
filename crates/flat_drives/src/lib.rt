//! Drivers of bits: two drivers, none, and driven inputs.
#![tactic(auto)]

pub mod bits;
pub mod kinds;
pub mod offending;
pub mod open;
