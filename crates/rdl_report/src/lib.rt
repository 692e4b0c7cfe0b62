//! The report of a description: its register map, line by line, or what it is refused for.
#![tactic(auto)]

pub mod describe;
pub mod law;
