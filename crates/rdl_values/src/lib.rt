//! Effective values of the properties of a description.
#![tactic(auto)]

pub mod access;
pub mod field;
pub mod frame;
pub mod instance;
pub mod value;
