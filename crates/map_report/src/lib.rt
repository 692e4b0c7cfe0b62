//! What is reported of a register map: a line for each field.
#![tactic(auto)]

pub mod digits;
pub mod law;
pub mod lines;
pub mod name;
