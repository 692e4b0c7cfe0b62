//! The joint run of a block and its register machine, edge by edge, and the first edge at which
//! they differ.
#![tactic(auto)]

pub mod block;
pub mod expression;
pub mod fault;
mod fields;
mod form;
pub mod input;
pub mod joint;
pub mod laws;
mod lines;
pub mod map;
pub mod pins;
pub mod read;
pub mod replay;
pub mod runs;
pub mod text;
pub mod trace;
