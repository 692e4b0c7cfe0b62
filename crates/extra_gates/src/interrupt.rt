//! The step of an interrupt field, and what it raises, as gates.

ghost use Rattle.std.specs.Prelude.{◌≡◌, ℕ, Bool, not, ◌==◌, if◌then◌else◌, ◌+◌, ◌*◌, ◌^◌, ◌<◌, length, unwrap_or, IfOk};
ghost use Rattle.bit_base.specs.Numbers.{low_bits, number_of};
ghost use Rattle.field_extras.specs.Interrupts.{is_active, interrupt_result, interrupt_bits};
ghost use Rattle.gate_graph.specs.Gates.{AreOf, IsOf, Extends, Means, wire_value};
ghost use Rattle.word_gates.specs.Words.{values, Shows};
ghost use Rattle.extra_gates.specs.Bitwise.{taken_bits, cut_bits};
ghost use Rattle.extra_gates.specs.Graphs.{taken_made, interrupt_made, cut_made, raised_made};

use field_policies::signal::Gate;
use gate_graph::{Graph, Wire};
use std::alloc::{AllocError, Global};
use std::vec::Vec;
use word_gates::{and, any_wire, between, inverted, inverted_word, only_if, or};

/// What one edge makes of an interrupt field: whether hardware is active, and its next bits where it
/// is, least first; where it isn't, the bits that it had.
#[derive(Debug, Drop)]
pub struct InterruptGates {
    pub active: Wire,
    pub value: Vec<Wire>,
}

/// What an interrupt field takes: in a sticky one the data where hardware is active, else the data
/// beside what was there. At most three gates a place.
fn taken_word(
    graph: &mut Graph,
    alloc: Global,
    sticky: bool,
    value: &[Wire],
    payload: &[Wire],
    active: Wire,
) -> Result<Vec<Wire>, AllocError>
    requires value_of { AreOf value.now graph.old }
    requires payload_of { AreOf payload.now graph.old }
    requires active_of { IsOf active graph.old }
    requires lengths { length value.now ≡ length payload.now }
    requires room { length graph.old + 3 * length value.now < 2 ^ 31 }
    ensures nodes { Extends graph.old graph.new (3 * length value.now) }
    ensures length { IfOk result (λ wires. length wires.items ≡ length value.now) }
    ensures value { IfOk result (λ wires. Shows graph.new wires.items (λ v. taken_bits sticky (wire_value v active) (values v value.now) (values v payload.now))) }
    ensures exact { IfOk result (λ wires. taken_made sticky graph.old value.now payload.now active ≡ (wires.items, graph.new)) }
{
    if sticky {
        between(graph, alloc, payload, value, active)
    } else {
        or(graph, alloc, value, payload)
    }
}

/// The step of an interrupt field of these bits, where `payload` is the data. At most five gates a
/// place and one more.
#[tactic(auto, using(gate_graph::proofs::GateLemmas::are_of_later, gate_graph::proofs::GateLemmas::extends_more), unfolding(crate::specs::Graphs::interrupt_made))]
pub fn interrupt_gates(
    graph: &mut Graph,
    alloc: Global,
    sticky: bool,
    value: &[Wire],
    payload: &[Wire],
) -> Result<InterruptGates, AllocError>
    requires value_of { AreOf value.now graph.old }
    requires payload_of { AreOf payload.now graph.old }
    requires lengths { length value.now ≡ length payload.now }
    requires room { length graph.old + 5 * length value.now + 1 < 2 ^ 31 }
    ensures nodes { Extends graph.old graph.new (5 * length value.now + 1) }
    ensures length { IfOk result (λ g. length g.value.items ≡ length value.now) }
    ensures active { IfOk result (λ g. Means graph.new g.active (λ v. is_active sticky (number_of (values v value.now)) (number_of (values v payload.now)))) }
    ensures value { IfOk result (λ g. Shows graph.new g.value.items (λ v. low_bits (length value.now) (unwrap_or (interrupt_result sticky (number_of (values v value.now)) (number_of (values v payload.now))) (number_of (values v value.now))))) }
    ensures exact { IfOk result (λ g. interrupt_made sticky graph.old value.now payload.now ≡ ((g.active, g.value.items), graph.new)) }
{
    let some = any_wire(graph, payload)?;
    let there = any_wire(graph, value)?;
    let held = only_if(graph, sticky, there);
    let active = graph.and(some, inverted(held))?;
    let value = taken_word(graph, alloc, sticky, value, payload, active)?;
    Ok(InterruptGates { active, value })
}

/// The word cut by `enable`, or by the inverse of `mask`: one gate a place.
fn cut_word(
    graph: &mut Graph,
    alloc: Global,
    high: bool,
    value: &[Wire],
    filter: &[Wire],
) -> Result<Vec<Wire>, AllocError>
    requires value_of { AreOf value.now graph.old }
    requires filter_of { AreOf filter.now graph.old }
    requires lengths { length value.now ≡ length filter.now }
    requires room { length graph.old + length value.now < 2 ^ 31 }
    ensures nodes { Extends graph.old graph.new (length value.now) }
    ensures length { IfOk result (λ wires. length wires.items ≡ length value.now) }
    ensures value { IfOk result (λ wires. Shows graph.new wires.items (λ v. cut_bits high (values v value.now) (values v filter.now))) }
    ensures exact { IfOk result (λ wires. cut_made high graph.old value.now filter.now ≡ (wires.items, graph.new)) }
{
    if high {
        return and(graph, alloc, value, filter);
    }
    let opened = inverted_word(alloc, filter)?;
    let wires = and(graph, alloc, value, opened.as_slice())?;
    Ok(wires)
}

/// Whether an interrupt field of these bits raises the interrupt of its register, where `bits` is the
/// value of its `enable` or `mask`. At most two gates a place.
#[tactic(auto, using(gate_graph::proofs::GateLemmas::extends_more))]
pub fn raised_wire(
    graph: &mut Graph,
    alloc: Global,
    filter: Option<Gate>,
    value: &[Wire],
    bits: &[Wire],
) -> Result<Wire, AllocError>
    requires value_of { AreOf value.now graph.old }
    requires bits_of { AreOf bits.now graph.old }
    requires lengths { length value.now ≡ length bits.now }
    requires room { length graph.old + 2 * length value.now < 2 ^ 31 }
    ensures nodes { Extends graph.old graph.new (2 * length value.now) }
    ensures wire { IfOk result (λ w. Means graph.new w (λ v. not (interrupt_bits filter (length value.now) (number_of (values v value.now)) (number_of (values v bits.now)) == 0))) }
    ensures exact { IfOk result (λ w. raised_made filter graph.old value.now bits.now ≡ (w, graph.new)) }
{
    match filter {
        None => {
            let wire = any_wire(graph, value)?;
            Ok(wire)
        }
        Some(gate) => {
            let cut = cut_word(graph, alloc, gate.high, value, bits)?;
            let wire = any_wire(graph, cut.as_slice())?;
            Ok(wire)
        }
    }
}
