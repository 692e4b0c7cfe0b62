//! An order of the items that no clock starts, or the cycle that is shown where there is none.
#![tactic(auto)]

pub mod first;
pub mod ordered;
