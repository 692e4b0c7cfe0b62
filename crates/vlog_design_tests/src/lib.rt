//! Tests of the checks of flat designs.
#![tactic(auto)]

#[cfg(test)]
mod draft;
#[cfg(test)]
mod tests;
