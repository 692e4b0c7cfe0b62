//! The operators of flat expressions on a stack of words, without memory for each word.
#![tactic(auto)]

mod operators;
mod rows;
pub mod stack;
mod start;
