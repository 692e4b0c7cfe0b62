//! The operators of Verilog words as calls: their answers are lists of bits, least first.
#![tactic(auto)]

pub mod bitwise;
pub mod moves;
pub mod numbers;
pub mod signed;
