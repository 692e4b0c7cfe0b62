//! One field of a register map at an edge, as gates.
#![tactic(auto)]

pub mod edge;
pub mod kinds;
pub mod laws;
pub mod seen;

pub use edge::{EdgeGates, edge_gates};
pub use kinds::kind_gates;
pub use seen::{FieldSeen, seen_gates};
