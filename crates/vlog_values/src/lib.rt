//! Verilog expressions of which sizes and signs are known, and what they come to.
#![tactic(auto)]

pub mod checks;
pub mod evaluate;
pub mod facts;
pub mod operators;
pub mod sized;
pub mod words;
