//! The parts of a circuit.

use crate::graphs::Graph;
use crate::wires::Wire;
use std::vec::Vec;

/// The value of a latch in the first state: 0, 1, or either.
#[derive(Clone, Copy, Debug, PartialEq, Eq, Drop)]
pub enum Start {
    Zero,
    One,
    Free,
}

/// A latch: its value in the first state, and the wire whose value it takes at each edge.
#[derive(Clone, Copy, Debug, PartialEq, Eq, Drop)]
pub struct Latch {
    pub start: Start,
    pub next: Wire,
}

/// What a circuit consists of, as data: see [`Circuit`](crate::Circuit), whose fields these are.
#[derive(Debug, Drop)]
pub struct CircuitParts {
    pub graph: Graph,
    pub latches: Vec<Latch>,
    pub inputs: u32,
    pub bad: Wire,
    pub address_first: u32,
    pub address_bits: u32,
    pub addresses: Vec<u32>,
    pub control: Vec<u32>,
}
