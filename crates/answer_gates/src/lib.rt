//! What one field adds to the answer of the bus, as gates.
#![tactic(auto)]

pub mod laws;
pub mod words;

pub use words::{hidden_word, shown_word};
