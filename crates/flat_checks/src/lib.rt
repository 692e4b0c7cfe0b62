//! The checks of a flat design below that of its clock, one kind of offence after the other.
#![tactic(auto)]

pub mod check;
pub mod cycle;
