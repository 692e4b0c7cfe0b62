//! Tests of `map`: descriptions as data, each with the status and the text that are due.
#![tactic(auto)]

#[cfg(test)]
mod descriptions;
#[cfg(test)]
mod fronts;
#[cfg(test)]
mod mapped;
#[cfg(test)]
mod properties;
