//! Tests of certificates: written, read back, changed and refused.
#![tactic(auto)]

#[cfg(test)]
mod changes;
#[cfg(test)]
mod circuits;
#[cfg(test)]
mod refusals;
