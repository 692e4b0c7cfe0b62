//! The pins of a flat block.

use apb_rules::wires::BusWires;

/// The inputs of the block at one edge: its reset pin, active low, and the wires of the bus.
#[derive(Clone, Copy)]
pub struct Pins {
    pub reset_n: bool,
    pub bus: BusWires,
}
