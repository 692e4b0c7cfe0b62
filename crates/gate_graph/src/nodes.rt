//! Nodes of a graph.

use crate::wires::Wire;

/// A node: constantly false, a latch or an input of this number (each counted from 0), or the
/// conjunction of two wires.
#[derive(Clone, Copy, Debug, PartialEq, Eq, Drop)]
pub enum Node {
    Zero,
    Latch(u32),
    Input(u32),
    And(Wire, Wire),
}
