//! Tests of graphs of gates, circuits and the operators of words.
#![tactic(auto)]

#[cfg(test)]
mod graphs;
#[cfg(test)]
mod words;
