//! Races between the processes of a flat design.
#![tactic(auto)]

pub mod assigns;
pub mod race;
pub mod readers;
