//! Expressions, statements and items of a flat design whose sizes and signs are those of the rules.
#![tactic(auto)]

pub mod fit;
pub mod rule;
