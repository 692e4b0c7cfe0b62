//! A register map at an edge before its outputs, as gates.
#![tactic(auto)]

pub mod around;
pub mod edge;
pub mod laws;

pub use around::{Around, around_gates};
pub use edge::{CoreGates, core_gates};
