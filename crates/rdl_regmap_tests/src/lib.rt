//! Tests of the register maps of descriptions.
#![tactic(auto)]

#[cfg(test)]
mod descriptions;
