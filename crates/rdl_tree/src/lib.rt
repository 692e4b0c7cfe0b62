//! Descriptions in SystemRDL: their tokens and their trees.
#![tactic(auto)]

mod bytes;
pub mod fault;
mod lengths;
mod numbers;
pub mod piece;
mod places;
pub mod reserved;
pub mod scan;
pub mod token;
pub mod tree;
