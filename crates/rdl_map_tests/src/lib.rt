//! Tests of the fields of descriptions, in the order of a register map.
#![tactic(auto)]

#[cfg(test)]
mod fields;
#[cfg(test)]
mod numbers;
#[cfg(test)]
mod shown;
