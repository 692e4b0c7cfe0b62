//! Parsers as functions on lists of tokens, the laws that they keep, and why a parser stops.
#![tactic(auto)]

pub mod stop;
