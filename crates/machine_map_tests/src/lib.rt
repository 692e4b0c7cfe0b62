//! Whole register machines as gates beside the plain machine, for tests.
#![tactic(auto)]

pub mod built;
#[cfg(test)]
mod maps;
pub mod plain;
