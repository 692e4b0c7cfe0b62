//! Circuits: a graph whose latches take the values of wires at each edge.

ghost use Rattle.std.specs.Prelude.{◌≡◌, ◌+◌, ◌^◌, ◌<◌, ◌≤◌, length, All};
ghost use Rattle.std.specs.List.Sorted.{IsStrictlyIncreasing};
ghost use Rattle.gate_graph.specs.Gates.{IsOf, AreLow, AreCounted, latch_count, input_count};
ghost use Rattle.gate_graph.specs.Latches.{StartsAtZero};
ghost use Rattle.gate_graph.specs.Counted.{counted_prop};

use crate::graphs::Graph;
use crate::parts::Latch;
use crate::wires::Wire;

/// A circuit: a graph, what each of its latches takes at an edge and starts with, in the order of
/// their numbers, and the wire that is true at a bad edge. Latch 0 is `live`, which starts at 0.
///
/// `address_bits` inputs from `address_first` on are a bus address, `addresses` lists the addresses
/// that are worth trying, and `control` names the latches, other than `live`, that steer the others.
#[derive(Drop)]
pub struct Circuit {
    pub graph: Graph,
    pub latches: Vec<Latch>,
    pub inputs: u32,
    pub bad: Wire,
    pub address_first: u32,
    pub address_bits: u32,
    pub addresses: Vec<u32>,
    pub control: Vec<u32>,
    pub ghost low: { AreLow graph },
    pub ghost counted: { AreCounted 0 0 graph } by { counted_prop graph 0 0 },
    pub ghost few: { length graph ≤ 2 ^ 20 },
    pub ghost latched: { latch_count graph ≡ length latches.items },
    pub ghost numbered: { input_count graph ≡ inputs },
    pub ghost nexts: { All (λ l. IsOf l.next graph) latches.items },
    pub ghost bad_of: { IsOf bad graph },
    pub ghost live: { StartsAtZero latches.items },
    pub ghost address_width: { address_bits ≤ 32 },
    pub ghost address_within: { address_first + address_bits ≤ inputs },
    pub ghost control_few: { length control.items ≤ 48 },
    pub ghost control_latches: { All (λ n. (0 < n) × (n < length latches.items)) control.items },
    pub ghost control_rising: { IsStrictlyIncreasing control.items },
}
