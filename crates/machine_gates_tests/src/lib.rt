//! Tests of the register machine's parts as gates, beside the plain programs.
#![tactic(auto)]

#[cfg(test)]
mod steps;
