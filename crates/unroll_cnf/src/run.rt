//! Runs of a circuit.

use std::vec::Vec;

/// A run of a circuit: the first state, one value for each latch, and the inputs at each edge, one
/// value for each input.
#[derive(Debug, Drop)]
pub struct CircuitRun {
    pub start: Vec<bool>,
    pub inputs: Vec<Vec<bool>>,
}
