//! From the files of a Verilog text to its tokens after directives and macros.
#![tactic(auto)]

mod bytes;
pub mod condition;
pub mod directive;
mod lengths;
pub mod lexeme;
mod macros;
pub mod piece;
mod places;
pub mod prepare;
mod progress;
mod reading;
mod scan;
#[cfg(test)]
mod tests;
