//! Sizes, signs and constants of Verilog expressions.
#![tactic(auto)]

pub mod calls;
pub mod literal;
pub mod names;
pub mod operators;
pub mod read;
pub mod size;
pub mod sizing;
