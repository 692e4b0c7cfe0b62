//! Verilog: its tokens, its trees, and why a text is refused.
#![tactic(auto)]

pub mod fault;
mod reading;
mod terminals;
#[cfg(test)]
mod tests;
pub mod token;
pub mod tree_expressions;
pub mod tree_modules;
pub mod tree_statements;
pub mod words;

pub use reading::at_most_one_reading;
