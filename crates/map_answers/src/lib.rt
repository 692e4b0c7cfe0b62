//! The answer of a register map to a bus event, as gates.
#![tactic(auto)]

pub mod counts;
pub mod data;
pub mod error;

pub use counts::counts_word;
pub use data::data_word;
pub use error::error_wire;
