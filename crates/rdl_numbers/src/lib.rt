//! The bus words and the fields of a description in the order of a register map, and their numbers.
#![tactic(auto)]

pub mod input;
pub mod number;
pub mod order;
