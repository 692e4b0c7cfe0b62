//! The parser of descriptions: from tokens to the one tree that they spell.
#![tactic(auto)]

mod cursor;
mod instances;
mod items;
mod properties;
mod reading;

pub use reading::{at_most_one_reading, parse_rdl};
