//! What a write and a read make of the bits of a field.

ghost use Rattle.std.specs.Prelude.{◌≡◌, ℕ, Bool, true, not, ◌&&◌, ◌||◌, ◌+◌, ◌*◌, ◌^◌, ◌<◌, map, replicate, length, IfOk};
ghost use Rattle.bit_base.specs.Operators.{each_place};
ghost use Rattle.field_policies.specs.Policies.{write_bit, read_bit};
ghost use Rattle.gate_graph.specs.Gates.{AreOf, Extends, Means};
ghost use Rattle.word_gates.specs.Graphs.{on, inverse, bitwise_made};
ghost use Rattle.word_gates.specs.Words.{values, Shows};
ghost use Rattle.field_gates.specs.Graphs.{constant_wire, read_made, write_made};

use field_policies::policy::{ReadEffect, WriteEffect};
use gate_graph::{Graph, Wire};
use std::alloc::{AllocError, Global};
use std::vec::Vec;
use word_gates::{and, inverted, inverted_word, or, repeated, xnor, xor};

/// The wire that is constantly true.
fn one(graph: &Graph) -> Wire
    ensures wire { Means graph.now result (λ v. true) }
    ensures exact { result ≡ on }
{
    inverted(graph.zero())
}

/// The wire that has this bit constantly.
fn constant_wire(graph: &Graph, bit: bool) -> Wire
    ensures wire { Means graph.now result (λ v. bit) }
    ensures exact { result ≡ constant_wire bit }
{
    if bit { one(graph) } else { graph.zero() }
}

/// The same wires.
fn copied(alloc: Global, a: &[Wire]) -> Result<Vec<Wire>, AllocError>
    ensures { IfOk result (λ wires. wires.items ≡ a.now) }
{
    a.to_vec(alloc)
}

/// The same bit at so many places: no gates.
fn constant(graph: &Graph, alloc: Global, bit: bool, count: usize) -> Result<Vec<Wire>, AllocError>
    ensures value { IfOk result (λ wires. Shows graph.now wires.items (λ v. replicate count bit)) }
    ensures exact { IfOk result (λ wires. wires.items ≡ replicate count (constant_wire bit)) }
{
    let wire = constant_wire(graph, bit);
    repeated(alloc, wire, count)
}

/// The first word where the second is false: one gate a place.
fn and_not(
    graph: &mut Graph,
    alloc: Global,
    a: &[Wire],
    b: &[Wire],
) -> Result<Vec<Wire>, AllocError>
    requires a_of { AreOf a.now graph.old }
    requires b_of { AreOf b.now graph.old }
    requires lengths { length a.now ≡ length b.now }
    requires room { length graph.old + length a.now < 2 ^ 31 }
    ensures nodes { Extends graph.old graph.new (length a.now) }
    ensures length { IfOk result (λ wires. length wires.items ≡ length a.now) }
    ensures value { IfOk result (λ wires. Shows graph.new wires.items (λ v. each_place (λ x y. x && not y) (values v a.now) (values v b.now))) }
    ensures exact { IfOk result (λ wires. bitwise_made 0 graph.old a.now (map inverse b.now) ≡ (wires.items, graph.new)) }
{
    let absent = inverted_word(alloc, b)?;
    let wires = and(graph, alloc, a, absent.as_slice())?;
    Ok(wires)
}

/// The first word, true also where the second is false: one gate a place.
fn or_not(graph: &mut Graph, alloc: Global, a: &[Wire], b: &[Wire]) -> Result<Vec<Wire>, AllocError>
    requires a_of { AreOf a.now graph.old }
    requires b_of { AreOf b.now graph.old }
    requires lengths { length a.now ≡ length b.now }
    requires room { length graph.old + length a.now < 2 ^ 31 }
    ensures nodes { Extends graph.old graph.new (length a.now) }
    ensures length { IfOk result (λ wires. length wires.items ≡ length a.now) }
    ensures value { IfOk result (λ wires. Shows graph.new wires.items (λ v. each_place (λ x y. x || not y) (values v a.now) (values v b.now))) }
    ensures exact { IfOk result (λ wires. bitwise_made 1 graph.old a.now (map inverse b.now) ≡ (wires.items, graph.new)) }
{
    let absent = inverted_word(alloc, b)?;
    let wires = or(graph, alloc, a, absent.as_slice())?;
    Ok(wires)
}

/// What a write with this effect makes of each place, from its value and the written bit: at most
/// three gates a place.
pub fn write_word(
    graph: &mut Graph,
    alloc: Global,
    effect: WriteEffect,
    value: &[Wire],
    payload: &[Wire],
) -> Result<Vec<Wire>, AllocError>
    requires value_of { AreOf value.now graph.old }
    requires payload_of { AreOf payload.now graph.old }
    requires lengths { length value.now ≡ length payload.now }
    requires room { length graph.old + 3 * length value.now < 2 ^ 31 }
    ensures nodes { Extends graph.old graph.new (3 * length value.now) }
    ensures length { IfOk result (λ wires. length wires.items ≡ length value.now) }
    ensures value { IfOk result (λ wires. Shows graph.new wires.items (λ v. each_place (write_bit effect) (values v value.now) (values v payload.now))) }
    ensures exact { IfOk result (λ wires. write_made effect graph.old value.now payload.now ≡ (wires.items, graph.new)) }
{
    match effect {
        WriteEffect::AsIs => copied(alloc, payload),
        WriteEffect::OneSet => or(graph, alloc, value, payload),
        WriteEffect::OneClear => and_not(graph, alloc, value, payload),
        WriteEffect::OneToggle => xor(graph, alloc, value, payload),
        WriteEffect::ZeroSet => or_not(graph, alloc, value, payload),
        WriteEffect::ZeroClear => and(graph, alloc, value, payload),
        WriteEffect::ZeroToggle => xnor(graph, alloc, value, payload),
        WriteEffect::Clear => constant(graph, alloc, false, value.len()),
        WriteEffect::Set => constant(graph, alloc, true, value.len()),
    }
}

/// What a read with this effect makes of each place: no gates.
pub fn read_word(
    graph: &Graph,
    alloc: Global,
    effect: ReadEffect,
    value: &[Wire],
) -> Result<Vec<Wire>, AllocError>
    requires { AreOf value.now graph.now }
    ensures length { IfOk result (λ wires. length wires.items ≡ length value.now) }
    ensures value { IfOk result (λ wires. Shows graph.now wires.items (λ v. map (read_bit effect) (values v value.now))) }
    ensures exact { IfOk result (λ wires. wires.items ≡ read_made effect value.now) }
{
    match effect {
        ReadEffect::Keep => copied(alloc, value),
        ReadEffect::Clear => constant(graph, alloc, false, value.len()),
        ReadEffect::Set => constant(graph, alloc, true, value.len()),
    }
}
