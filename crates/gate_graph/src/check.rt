//! Whether parts make a circuit.

ghost use Rattle.std.specs.Prelude.{◌≡◌, ◌↔◌, ◌+◌, ◌*◌, ◌^◌, ◌<◌, ◌≤◌, length, All, IsTrue, IsOk, IfOk, IfErr};
ghost use Rattle.std.specs.List.Sorted.{IsStrictlyIncreasing};
ghost use Rattle.gate_graph.specs.Gates.{IsOf, latch_count, input_count};
ghost use Rattle.gate_graph.specs.Latches.{StartsAtZero};
ghost use Rattle.gate_graph.specs.Circuits.{IsCircuit, parts_of};

use crate::circuits::Circuit;
use crate::parts::{CircuitParts, Latch, Start};

/// The most nodes that a circuit has.
const MOST_NODES: u32 = 1 << 20;

/// The most control latches that a circuit has.
const MOST_CONTROL: usize = 48;

/// Whether the latches' next wires are of a graph of this size.
fn are_of(latches: &[Latch], size: u32) -> bool
    ensures { IsTrue result ↔ All (λ l. l.next.0 < 2 * size) latches.now }
{
    latches
        .iter()
        .all(|latch| u64::from(latch.next.0) < 2 * u64::from(size))
}

/// Whether latch 0 is there, and starts at 0.
fn starts_at_zero(latches: &[Latch]) -> bool
    ensures { IsTrue result ↔ StartsAtZero latches.now }
{
    match latches {
        [first, ..] => first.start == Start::Zero,
        [] => false,
    }
}

/// Whether each is the number of one of so many latches, other than latch 0.
fn are_latches(control: &[u32], latches: usize) -> bool
    ensures { IsTrue result ↔ All (λ n. (0 < n) × (n < latches)) control.now }
{
    control
        .iter()
        .all(|number| 0 < *number && (*number as usize) < latches)
}

/// Whether each number is greater than the one before.
fn is_rising(numbers: &[u32]) -> bool
    ensures { IsTrue result ↔ IsStrictlyIncreasing numbers.now }
{
    for i in 1..numbers.len() {
        if numbers[i - 1] >= numbers[i] {
            return false;
        }
    }
    true
}

/// Whether the graph has few enough nodes, and as many latches and inputs as the parts.
fn has_graph(parts: &CircuitParts) -> bool
    ensures { IsTrue result ↔ ((length parts.now.graph ≤ 2 ^ 20) × (latch_count parts.now.graph ≡ length parts.now.latches.items) × (input_count parts.now.graph ≡ parts.now.inputs)) }
{
    let graph = &parts.graph;
    graph.size() <= MOST_NODES
        && graph.latch_count() as usize == parts.latches.len()
        && graph.input_count() == parts.inputs
}

/// Whether the wires are of the graph, and latch 0 starts at 0.
fn has_wires(parts: &CircuitParts) -> bool
    ensures { IsTrue result ↔ (All (λ l. IsOf l.next parts.now.graph) parts.now.latches.items × IsOf parts.now.bad parts.now.graph × StartsAtZero parts.now.latches.items) }
{
    let size = parts.graph.size();
    are_of(parts.latches.as_slice(), size)
        && u64::from(parts.bad.0) < 2 * u64::from(size)
        && starts_at_zero(parts.latches.as_slice())
}

/// Whether the address is one of at most 32 inputs.
fn has_address(parts: &CircuitParts) -> bool
    ensures { IsTrue result ↔ ((parts.now.address_bits ≤ 32) × (parts.now.address_first + parts.now.address_bits ≤ parts.now.inputs)) }
{
    let end = u64::from(parts.address_first) + u64::from(parts.address_bits);
    parts.address_bits <= 32 && end <= u64::from(parts.inputs)
}

/// Whether the control latches are few latches other than latch 0, rising.
fn has_control(parts: &CircuitParts) -> bool
    ensures { IsTrue result ↔ ((length parts.now.control.items ≤ 48) × All (λ n. (0 < n) × (n < length parts.now.latches.items)) parts.now.control.items × IsStrictlyIncreasing parts.now.control.items) }
{
    let control = parts.control.as_slice();
    control.len() <= MOST_CONTROL && are_latches(control, parts.latches.len()) && is_rising(control)
}

/// Whether the parts make a circuit.
fn is_circuit(parts: &CircuitParts) -> bool
    ensures { IsTrue result ↔ IsCircuit parts.now }
{
    has_graph(parts) && has_wires(parts) && has_address(parts) && has_control(parts)
}

impl Circuit {
    /// The circuit of these parts, or the parts as they were where they make none.
    pub fn check(parts: CircuitParts) -> Result<Circuit, CircuitParts>
        ensures exactly { IsOk result ↔ IsCircuit parts }
        ensures ok { IfOk result (λ c. parts_of c ≡ parts) }
        ensures err { IfErr result (λ p. p ≡ parts) }
    {
        if !is_circuit(&parts) {
            return Err(parts);
        }
        let _nodes = parts.graph.size();
        let CircuitParts {
            graph,
            latches,
            inputs,
            bad,
            address_first,
            address_bits,
            addresses,
            control,
        } = parts;
        Ok(Circuit {
            graph,
            latches,
            inputs,
            bad,
            address_first,
            address_bits,
            addresses,
            control,
        })
    }
}
