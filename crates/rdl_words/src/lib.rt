//! The bus words of registers, and those that two registers have in common.
#![tactic(auto)]

pub mod clash;
pub mod word;
