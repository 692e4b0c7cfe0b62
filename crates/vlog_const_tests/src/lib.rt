//! Tests of the operators of words, and of sizes, signs and constants of expressions.
#![tactic(auto)]

#[cfg(test)]
mod tests;
