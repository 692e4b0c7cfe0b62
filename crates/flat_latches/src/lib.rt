//! Bits of combinational processes that some path leaves unassigned.
#![tactic(auto)]

pub mod latch;
pub mod path;
