//! What fields store, as wires.

ghost use Rattle.std.specs.Prelude.{◌≡◌, ℕ, ◌+◌, ◌^◌, ◌<◌, ◌≤◌, true, false, if◌then◌else◌, ◌++◌, map, replicate, take, length, get_or, IfOk, OnOk};
ghost use Rattle.std.specs.List.{sum_by};
ghost use Rattle.word_gates.specs.Graphs.{off, on};
ghost use Rattle.latch_order.specs.Latches.{value_bits, latch_bits, stored_of, all_stored, latches_of};
ghost use Rattle.latch_order.specs.Wires.{stored_wires, stored_by};

use field_policies::field::Field;
use gate_graph::{Graph, Wire};
use std::alloc::{AllocError, Global};
use std::vec::Vec;
use word_gates::{inverted, repeated};

/// What a field stores, as wires; a wire stores nothing.
#[derive(Debug, Drop)]
pub struct StateGates {
    /// Its bits, least first; false of a wire.
    pub value: Vec<Wire>,
    /// Its first write is used up; false of a field that isn't once.
    pub used: Wire,
    /// Its value is known; true of a field that starts known.
    pub known: Wire,
}

/// How many latches a field's bits have: none of a wire.
fn value_count(field: &Field) -> usize
    ensures count { result ≡ value_bits field.now }
    ensures fits { result < 2 ^ 32 }
{
    if field.wire { 0 } else { field.width as usize }
}

/// One latch of a flag that is stored, none of another.
fn flag_count(stored: bool) -> usize
    ensures { result ≡ (if stored then 1 else 0) }
{
    if stored { 1 } else { 0 }
}

/// One latch of a field that doesn't start known, for its known flag.
fn known_count(field: &Field) -> usize
    ensures { result ≡ (if field.now.starts_known then 0 else 1) }
{
    if field.starts_known { 0 } else { 1 }
}

/// How many latches a field has: those of its bits, one of a once field for its flag, and one of a
/// field that doesn't start known for its own.
pub fn latch_count(field: &Field) -> usize
    ensures { result ≡ latch_bits field.now }
{
    value_count(field) + flag_count(field.once) + known_count(field)
}

/// The bits of a field by its latches, the first of these.
fn value_wires(
    graph: &Graph,
    alloc: Global,
    field: &Field,
    latches: &[Wire],
) -> Result<Vec<Wire>, AllocError>
    requires { latch_bits field.now ≤ length latches.now }
    ensures { IfOk result (λ wires. wires.items ≡ (if field.now.wire then replicate field.now.width off else take field.now.width latches.now)) }
{
    match field.wire {
        true => repeated(alloc, graph.zero(), field.width as usize),
        false => latches[..field.width as usize].to_vec(alloc),
    }
}

/// What a field stores by its latches, the first of these.
pub fn stored_gates(
    graph: &Graph,
    alloc: Global,
    field: &Field,
    latches: &[Wire],
) -> Result<StateGates, AllocError>
    requires { latch_bits field.now ≤ length latches.now }
    ensures { IfOk result (λ s. stored_wires s ≡ stored_of off on field.now latches.now) }
{
    let value = value_wires(graph, alloc, field, latches)?;
    let bits = value_count(field);
    let used = used_wire(graph, field, latches, bits);
    let known = known_wire(graph, field, latches, bits + flag_count(field.once));
    Ok(StateGates { value, used, known })
}

/// The once flag of a field, at this place.
fn used_wire(graph: &Graph, field: &Field, latches: &[Wire], place: usize) -> Wire
    requires { field.now.once ≡ true → place < length latches.now }
    ensures { result ≡ (if field.now.once then get_or latches.now place off else off) }
{
    if field.once {
        latches[place]
    } else {
        graph.zero()
    }
}

/// The known flag of a field, at this place.
fn known_wire(graph: &Graph, field: &Field, latches: &[Wire], place: usize) -> Wire
    requires { field.now.starts_known ≡ false → place < length latches.now }
    ensures { result ≡ (if field.now.starts_known then on else get_or latches.now place on) }
{
    if field.starts_known {
        inverted(graph.zero())
    } else {
        latches[place]
    }
}

/// What each field stores by the latches of all, field by field.
pub fn state_gates(
    graph: &Graph,
    alloc: Global,
    fields: &[Field],
    latches: &[Wire],
) -> Result<Vec<StateGates>, AllocError>
    requires { length latches.now ≡ sum_by latch_bits fields.now }
    ensures { IfOk result (λ states. map stored_wires states.items ≡ all_stored off on fields.now latches.now) }
{
    let mut states = Vec::new(alloc);
    let mut start = 0;
    for n in 0..fields.len() {
        let field = &fields[n];
        let stored = stored_gates(graph, alloc, field, &latches[start..])?;
        states.push(stored)?;
        start += latch_count(field);
    }
    Ok(states)
}

/// Adds the wires of a field's latches: its bits where it is no wire, its once flag where it is a once
/// field, its known flag where it doesn't start known.
pub fn push_latches(
    latches: &mut Vec<Wire>,
    field: &Field,
    value: &[Wire],
    used: Wire,
    known: Wire,
) -> Result<(), AllocError>
    ensures { OnOk result (latches.new.items ≡ latches.old.items ++ latches_of field.now (stored_by value.now used known)) }
{
    if !field.wire {
        latches.extend_from_slice(value)?;
    }
    if field.once {
        latches.push(used)?;
    }
    if !field.starts_known {
        latches.push(known)?;
    }
    Ok(())
}
