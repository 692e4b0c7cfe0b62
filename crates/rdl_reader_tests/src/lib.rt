//! Tests of the readers of descriptions: from the bytes of a text to its tokens, its tree and its first fault.
#![tactic(auto)]

#[cfg(test)]
mod descriptions;
#[cfg(test)]
mod effects;
#[cfg(test)]
mod faults;
#[cfg(test)]
mod tokens;
#[cfg(test)]
mod trees;
