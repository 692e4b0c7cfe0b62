//! Drivers of a whole design: each bit that needs a driver has one, and none has two.
#![tactic(auto)]

pub mod driving;
