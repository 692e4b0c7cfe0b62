//! Tests of traces, and of the tool from its words to its report.
#![tactic(auto)]

#[cfg(test)]
mod tool;
#[cfg(test)]
mod traces;
