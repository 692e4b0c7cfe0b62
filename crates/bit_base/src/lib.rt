//! Bits, texts and places: the values that every layer speaks of.
#![tactic(auto)]

pub mod bits;
pub mod laws;
pub mod place;
pub mod text;
