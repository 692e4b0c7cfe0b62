//! Tests that the readers accept the sample blocks.
#![tactic(auto)]

#[cfg(test)]
mod read;
