//! Bus events, and the words that they read and write.

ghost use Rattle.std.specs.Prelude.{◌≡◌, ℕ, Bool, not, ◌&&◌, ◌+◌, ◌*◌, ◌^◌, ◌<◌, length, map, IfOk};
ghost use Rattle.gate_graph.specs.Gates.{wire_value, IsOf, AreOf, Extends, Means};
ghost use Rattle.word_gates.specs.Words.{values, Shows};
ghost use Rattle.reg_machine.specs.Steps.{is_read_of, is_write_of};
ghost use Rattle.word_gates.specs.Graphs.{masked_made};
ghost use Rattle.event_gates.specs.Events.{event_at};
ghost use Rattle.event_gates.specs.Graphs.{AreEvents, hit_made, only_write_made};

use gate_graph::{Graph, Wire};
use std::alloc::{AllocError, Global};
use std::vec::Vec;
use word_gates::{inverted, is_number, masked};

/// A bus event as wires: nothing, a read or a write. Words have their lowest place first; where `read`
/// and `write` are both true it is a read.
#[derive(Debug, Drop)]
pub struct EventGates {
    pub read: Wire,
    pub write: Wire,
    /// The byte address, of 1 to 32 places.
    pub address: Vec<Wire>,
    /// The data of a write, of the bus width.
    pub payload: Vec<Wire>,
    /// A wire for each byte of the bus.
    pub strobe: Vec<Wire>,
    /// Whether the answer at an address that no word has is an error.
    pub unmapped_error: bool,
}

/// Whether the event reads a word, and whether it writes it.
#[derive(Clone, Copy, Debug, Drop)]
pub struct HitGates {
    pub reads: Wire,
    pub writes: Wire,
}

/// The event writes: one gate.
#[tactic(auto, unfolding(crate::specs::Graphs::only_write_made))]
pub fn write_wire(graph: &mut Graph, event: &EventGates) -> Result<Wire, AllocError>
    requires event { AreEvents graph.old event.now }
    requires room { length graph.old + 1 < 2 ^ 31 }
    ensures nodes { Extends graph.old graph.new 1 }
    ensures wire { IfOk result (λ w. Means graph.new w (λ v. wire_value v event.now.write && not (wire_value v event.now.read))) }
    ensures exact { IfOk result (λ w. only_write_made graph.old event.now ≡ (w, graph.new)) }
{
    let wire = graph.and(event.write, inverted(event.read))?;
    Ok(wire)
}

/// Whether the event reads and writes the word at this address, by one chain of conjunctions: a gate
/// for each place of the address and three more at most.
#[tactic(auto, using(gate_graph::proofs::GateLemmas::extends_more), unfolding(crate::specs::Graphs::hit_made))]
pub fn hit_gates(
    graph: &mut Graph,
    event: &EventGates,
    address: u32,
) -> Result<HitGates, AllocError>
    requires event { AreEvents graph.old event.now }
    requires room { length graph.old + length event.now.address.items + 3 < 2 ^ 31 }
    ensures nodes { Extends graph.old graph.new (length event.now.address.items + 3) }
    ensures reads { IfOk result (λ h. Means graph.new h.reads (λ v. is_read_of (event_at v event.now) address)) }
    ensures writes { IfOk result (λ h. Means graph.new h.writes (λ v. is_write_of (event_at v event.now) address)) }
    ensures exact { IfOk result (λ h. hit_made graph.old event.now address ≡ ((h.reads, h.writes), graph.new)) }
{
    let at = is_number(graph, &event.address, address)?;
    let only = write_wire(graph, event)?;
    let reads = graph.and(event.read, at)?;
    let writes = graph.and(only, at)?;
    Ok(HitGates { reads, writes })
}

/// The data of the event: false where it is no write. A gate a place.
pub fn payload_gates(
    graph: &mut Graph,
    alloc: Global,
    event: &EventGates,
    only: Wire,
) -> Result<Vec<Wire>, AllocError>
    requires event { AreEvents graph.old event.now }
    requires only_of { IsOf only graph.old }
    requires room { length graph.old + length event.now.payload.items < 2 ^ 31 }
    ensures nodes { Extends graph.old graph.new (length event.now.payload.items) }
    ensures length { IfOk result (λ wires. length wires.items ≡ length event.now.payload.items) }
    ensures value { IfOk result (λ wires. Shows graph.new wires.items (λ v. map (λ x. x && wire_value v only) (values v event.now.payload.items))) }
    ensures exact { IfOk result (λ wires. masked_made graph.old event.now.payload.items only ≡ (wires.items, graph.new)) }
{
    let wires = masked(graph, alloc, &event.payload, only)?;
    Ok(wires)
}
