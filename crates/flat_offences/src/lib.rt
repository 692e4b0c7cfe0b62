//! Offences of a design: the first of several, and the nets that bits belong to.
#![tactic(auto)]

pub mod least;
pub mod offence;
pub mod owner;
