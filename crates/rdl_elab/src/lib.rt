//! What a description is refused for.
#![tactic(auto)]

pub mod description;
mod unlike;
