//! The register map of a description, as far as its numbers can be told.
#![tactic(auto)]

pub mod extra;
pub mod field;
pub mod gate;
pub mod map;
pub mod signal;
