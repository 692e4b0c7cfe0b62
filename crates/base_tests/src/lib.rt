//! Tests of bits, texts and places, and of the outside.
#![tactic(auto)]

#[cfg(test)]
mod outside;
#[cfg(test)]
mod values;
