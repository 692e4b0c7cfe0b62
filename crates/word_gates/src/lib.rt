//! The operators of Verilog words, as gates.
//!
//! A word is a list of wires, least first. Each call adds gates to a graph, and gives the wires whose
//! values are the operator's (IEEE 1364-2005, 5.1) under every assignment that respects the graph.
#![tactic(auto)]

/// The wires that an expression gives, one lane after the other.
macro_rules! each_lane {
    ($alloc:expr, $count:expr, $lane:ident => $wire:expr) => {{
        let mut wires = Vec::new($alloc);
        for $lane in 0..$count {
            let wire = $wire?;
            wires.push(wire)?;
        }
        wires
    }};
}

mod bitwise;
mod choices;
mod constants;
mod moves;
mod places;
mod products;
mod reductions;
mod shifts;
mod sums;
mod words;

pub use choices::{between, choose, masked, pick};
pub use constants::{is_number, only_if, same_as};
pub use places::{carry_wire, inverted, or_wire, pick_wire, sum_wire, xor_wire};
pub use products::mul;
pub use reductions::{all, any, any_wire, equal, parity};
pub use shifts::{shift_left, shift_right, shift_signed};
pub use sums::{add, inverted_word, less, less_signed, negate, repeated, sub};
pub use words::{and, or, xnor, xor};
