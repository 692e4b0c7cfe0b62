//! The bits of a field after an edge.

ghost use Rattle.std.specs.Prelude.{◌≡◌, ℕ, Bool, not, ◌&&◌, if◌then◌else◌, ◌+◌, ◌*◌, ◌^◌, ◌<◌, map, length, IfOk};
ghost use Rattle.bit_base.specs.Operators.{picked};
ghost use Rattle.field_policies.specs.Policies.{read_bit};
ghost use Rattle.gate_graph.specs.Gates.{wire_value, IsOf, AreOf, Extends};
ghost use Rattle.word_gates.specs.Words.{values, Shows};
ghost use Rattle.field_gates.specs.Graphs.{resting_effect, next_made};

use crate::effects::read_word;
use field_policies::policy::ReadEffect;
use gate_graph::{Graph, Wire};
use std::alloc::{AllocError, Global};
use std::vec::Vec;
use word_gates::{between, pick};

/// What becomes of a bit where neither side is active: a single pulse falls, another bit stays.
fn resting_effect(pulse: bool) -> ReadEffect
    ensures value { (x : Bool) → read_bit result x ≡ (not pulse && x) }
    ensures exact { result ≡ resting_effect pulse }
{
    if pulse {
        ReadEffect::Clear
    } else {
        ReadEffect::Keep
    }
}

/// The bits of a stored field after an edge, from those before it: software's where it gives the
/// field, else hardware's at the opened places where it does; else a single pulse falls, and another
/// value stays. At most nine gates a place.
#[tactic(auto, using(gate_graph::proofs::GateLemmas::are_of_later, gate_graph::proofs::GateLemmas::extends_more, gate_graph::proofs::GateLemmas::respects_old), unfolding(crate::specs::Graphs::next_made))]
pub fn next_word(
    graph: &mut Graph,
    alloc: Global,
    pulse: bool,
    by_software: Wire,
    by_hardware: Wire,
    software: &[Wire],
    hardware: &[Wire],
    opened: &[Wire],
    value: &[Wire],
) -> Result<Vec<Wire>, AllocError>
    requires by_software_of { IsOf by_software graph.old }
    requires by_hardware_of { IsOf by_hardware graph.old }
    requires software_of { AreOf software.now graph.old }
    requires hardware_of { AreOf hardware.now graph.old }
    requires opened_of { AreOf opened.now graph.old }
    requires value_of { AreOf value.now graph.old }
    requires software_length { length software.now ≡ length value.now }
    requires hardware_length { length hardware.now ≡ length value.now }
    requires opened_length { length opened.now ≡ length value.now }
    requires room { length graph.old + 9 * length value.now < 2 ^ 31 }
    ensures nodes { Extends graph.old graph.new (9 * length value.now) }
    ensures length { IfOk result (λ wires. length wires.items ≡ length value.now) }
    ensures value { IfOk result (λ wires. Shows graph.new wires.items
        (λ v. if wire_value v by_software then values v software.now
        else (if wire_value v by_hardware then picked (values v hardware.now) (values v value.now) (values v opened.now)
        else map (λ x. not pulse && x) (values v value.now)))) }
    ensures exact { IfOk result (λ wires. next_made pulse graph.old by_software by_hardware software.now hardware.now opened.now value.now ≡ (wires.items, graph.new)) }
{
    let resting = read_word(graph, alloc, resting_effect(pulse), value)?;
    let given = pick(graph, alloc, hardware, value, opened)?;
    let other = between(
        graph,
        alloc,
        given.as_slice(),
        resting.as_slice(),
        by_hardware,
    )?;
    let wires = between(graph, alloc, software, other.as_slice(), by_software)?;
    Ok(wires)
}
