//! Where the instances of a description stand, and how large they are.
#![tactic(auto)]

pub mod bits;
pub mod laid;
pub mod misplaced;
pub mod register;
pub mod size;
