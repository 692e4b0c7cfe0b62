//! Flat designs: nets, expressions, statements and items, and what they mean.
#![tactic(auto)]

pub mod expr;
pub mod item;
pub mod laws;
pub mod net;
pub mod stmt;
