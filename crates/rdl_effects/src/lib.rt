//! What the effective values of a description are refused for.
#![tactic(auto)]

pub mod effect;
pub mod field;
pub mod limit;
pub mod reference;
pub mod register;
