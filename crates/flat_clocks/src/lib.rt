//! The clock and the asynchronous reset of a design, and what offends against them.
#![tactic(auto)]

pub mod clock;
pub mod event;
pub mod reading;
pub mod role;
pub mod signal;
