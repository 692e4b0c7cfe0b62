//! And-inverter graphs: nodes that are constants, latches, inputs and gates, wires that may invert
//! them, and circuits whose latches go from edge to edge.
#![tactic(auto)]

mod check;
pub mod circuits;
pub mod graphs;
pub mod laws;
mod next;
pub mod nodes;
pub mod parts;
mod values;
pub mod wires;

pub use circuits::Circuit;
pub use graphs::Graph;
pub use nodes::Node;
pub use parts::{CircuitParts, Latch, Start};
pub use wires::Wire;
