//! The register map of a description, or what the description is refused for.
#![tactic(auto)]

pub mod elaborate;
pub mod law;
pub mod parts;
