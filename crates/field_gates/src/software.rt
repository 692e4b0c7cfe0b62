//! What software makes of the bits of a field.

ghost use Rattle.std.specs.Prelude.{◌≡◌, ℕ, Bool, if◌then◌else◌, ◌+◌, ◌*◌, ◌^◌, ◌<◌, map, length, IfOk};
ghost use Rattle.bit_base.specs.Operators.{each_place, picked};
ghost use Rattle.field_policies.specs.Policies.{write_bit, read_bit};
ghost use Rattle.gate_graph.specs.Gates.{wire_value, IsOf, AreOf, Extends};
ghost use Rattle.word_gates.specs.Words.{values, Shows};
ghost use Rattle.field_gates.specs.Graphs.{software_made};

use crate::effects::{read_word, write_word};
use field_policies::policy::{ReadEffect, WriteEffect};
use gate_graph::{Graph, Wire};
use std::alloc::{AllocError, Global};
use std::vec::Vec;
use word_gates::{between, pick};

/// The bits of a field of this value after software: a write has its effect at the enabled places,
/// and a read its own. At most nine gates a place.
#[tactic(auto, using(gate_graph::proofs::GateLemmas::are_of_later, gate_graph::proofs::GateLemmas::extends_more, gate_graph::proofs::GateLemmas::respects_old), unfolding(crate::specs::Graphs::software_made))]
pub fn software_word(
    graph: &mut Graph,
    alloc: Global,
    write: WriteEffect,
    read: ReadEffect,
    written: Wire,
    enabled: &[Wire],
    value: &[Wire],
    payload: &[Wire],
) -> Result<Vec<Wire>, AllocError>
    requires written_of { IsOf written graph.old }
    requires enabled_of { AreOf enabled.now graph.old }
    requires value_of { AreOf value.now graph.old }
    requires payload_of { AreOf payload.now graph.old }
    requires enabled_length { length value.now ≡ length enabled.now }
    requires payload_length { length value.now ≡ length payload.now }
    requires room { length graph.old + 9 * length value.now < 2 ^ 31 }
    ensures nodes { Extends graph.old graph.new (9 * length value.now) }
    ensures length { IfOk result (λ wires. length wires.items ≡ length value.now) }
    ensures value { IfOk result (λ wires. Shows graph.new wires.items
        (λ v. if wire_value v written then picked (each_place (write_bit write) (values v value.now) (values v payload.now)) (values v value.now) (values v enabled.now)
        else map (read_bit read) (values v value.now))) }
    ensures exact { IfOk result (λ wires. software_made write read graph.old written enabled.now value.now payload.now ≡ (wires.items, graph.new)) }
{
    let effect = write_word(graph, alloc, write, value, payload)?;
    let by_write = pick(graph, alloc, effect.as_slice(), value, enabled)?;
    let by_read = read_word(graph, alloc, read, value)?;
    let wires = between(
        graph,
        alloc,
        by_write.as_slice(),
        by_read.as_slice(),
        written,
    )?;
    Ok(wires)
}
