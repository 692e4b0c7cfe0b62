//! Checked flat designs.
#![tactic(auto)]

pub mod check;
pub mod clock;
pub mod design;
pub mod fault;
pub mod law;
