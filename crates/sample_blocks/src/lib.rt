//! Sample blocks: for a number of registers the texts of a description, a ports file and a block that
//! does what the description says.
#![tactic(auto)]

mod joined;
pub mod kind;
mod lines;
pub mod sample;
pub mod section;
#[cfg(test)]
mod tests;
