//! The fields of a description, each with what its effective properties make of it.
#![tactic(auto)]

pub mod expr;
pub mod field;
pub mod named;
mod part;
pub mod path;
pub mod register;
