//! The latch that is answered of a whole design.
#![tactic(auto)]

pub mod item;
pub mod latched;
