//! The side of hardware.

ghost use Rattle.std.specs.Prelude.{◌≡◌, ℕ, Bool, ◌+◌, ◌*◌, ◌^◌, ◌<◌, length, IfOk};
ghost use Rattle.gate_graph.specs.Gates.{AreOf, Extends, Means};
ghost use Rattle.word_gates.specs.Words.{values, Shows};
ghost use Rattle.extra_gates.specs.Graphs.{interrupt_made};
ghost use Rattle.side_gates.specs.Sides.{FitsCounter, count_at, counter_active, counter_bits, intr_active, intr_bits, plain_active, plain_bits, source_at};
ghost use Rattle.side_gates.specs.Graphs.{AreSources, source_wires, plain_made, counter_made};

use crate::kinds::{any_of_four, any_of_three, forced_word};
use crate::source::SourceGates;
use extra_gates::{count_gates, interrupt_gates};
use field_policies::extra::Counter;
use gate_graph::{Graph, Wire};
use std::alloc::{AllocError, Global};
use std::vec::Vec;
use word_gates::between;

/// What hardware makes of a field: whether it is active, and the bits that it gives, least first.
#[derive(Debug, Drop)]
pub struct HardwareGates {
    pub active: Wire,
    pub value: Vec<Wire>,
}

/// A plain field takes its data: five gates a place and two more.
#[tactic(auto, using(gate_graph::proofs::GateLemmas::are_of_later, gate_graph::proofs::GateLemmas::extends_more), unfolding(crate::specs::Graphs::plain_made))]
pub fn plain_gates(
    graph: &mut Graph,
    alloc: Global,
    source: &SourceGates,
    value: &[Wire],
) -> Result<HardwareGates, AllocError>
    requires source { AreSources graph.old (length value.now) source.now }
    requires value_of { AreOf value.now graph.old }
    requires room { length graph.old + 5 * length value.now + 2 < 2 ^ 31 }
    ensures nodes { Extends graph.old graph.new (5 * length value.now + 2) }
    ensures length { IfOk result (λ g. length g.value.items ≡ length value.now) }
    ensures active { IfOk result (λ g. Means graph.new g.active (λ v. plain_active (source_at v source.now value.now))) }
    ensures value { IfOk result (λ g. Shows graph.new g.value.items (λ v. plain_bits (source_at v source.now value.now))) }
    ensures exact { IfOk result (λ g. plain_made graph.old (source_wires source.now) value.now ≡ ((g.active, g.value.items), graph.new)) }
{
    let active = any_of_three(graph, source.taken, source.set, source.clear)?;
    let taken = between(graph, alloc, &source.given, value, source.taken)?;
    let value = forced_word(graph, alloc, source.set, source.clear, taken.as_slice())?;
    Ok(HardwareGates { active, value })
}

/// What hardware makes of a counter, and whether its count passes the greatest value or falls below 0.
#[derive(Debug, Drop)]
pub struct CounterGates {
    pub hardware: HardwareGates,
    pub over: Wire,
    pub under: Wire,
}

/// A counter takes its count: at most 24 gates a place and 44 more.
#[tactic(auto, using(gate_graph::proofs::GateLemmas::are_of_later, gate_graph::proofs::GateLemmas::extends_more), unfolding(crate::specs::Graphs::counter_made))]
pub fn counter_gates(
    graph: &mut Graph,
    alloc: Global,
    counter: &Counter,
    source: &SourceGates,
    value: &[Wire],
) -> Result<CounterGates, AllocError>
    requires source { AreSources graph.old (length value.now) source.now }
    requires value_of { AreOf value.now graph.old }
    requires fits { FitsCounter counter.now (length value.now) }
    requires room { length graph.old + 24 * length value.now + 44 < 2 ^ 31 }
    ensures nodes { Extends graph.old graph.new (24 * length value.now + 44) }
    ensures length { IfOk result (λ g. length g.hardware.value.items ≡ length value.now) }
    ensures active { IfOk result (λ g. Means graph.new g.hardware.active (λ v. counter_active (source_at v source.now value.now))) }
    ensures value { IfOk result (λ g. Shows graph.new g.hardware.value.items (λ v. counter_bits counter.now (length value.now) (source_at v source.now value.now))) }
    ensures over { IfOk result (λ g. Means graph.new g.over (λ v. (count_at counter.now (length value.now) (source_at v source.now value.now)).over)) }
    ensures under { IfOk result (λ g. Means graph.new g.under (λ v. (count_at counter.now (length value.now) (source_at v source.now value.now)).under)) }
    ensures exact { IfOk result (λ g. counter_made counter.now graph.old (source_wires source.now) value.now ≡ ((g.hardware.active, (g.hardware.value.items, (g.over, g.under))), graph.new)) }
{
    let active = any_of_four(graph, source.incr, source.decr, source.set, source.clear)?;
    let count = count_gates(graph, alloc, counter, value, source.incr, source.decr)?;
    let value = forced_word(graph, alloc, source.set, source.clear, &count.value)?;
    Ok(CounterGates {
        hardware: HardwareGates { active, value },
        over: count.over,
        under: count.under,
    })
}

/// An interrupt field takes what its step gives: at most five gates a place and one more.
pub fn intr_gates(
    graph: &mut Graph,
    alloc: Global,
    sticky: bool,
    source: &SourceGates,
    value: &[Wire],
) -> Result<HardwareGates, AllocError>
    requires source { AreSources graph.old (length value.now) source.now }
    requires value_of { AreOf value.now graph.old }
    requires room { length graph.old + 5 * length value.now + 1 < 2 ^ 31 }
    ensures nodes { Extends graph.old graph.new (5 * length value.now + 1) }
    ensures length { IfOk result (λ g. length g.value.items ≡ length value.now) }
    ensures active { IfOk result (λ g. Means graph.new g.active (λ v. intr_active sticky (source_at v source.now value.now))) }
    ensures value { IfOk result (λ g. Shows graph.new g.value.items (λ v. intr_bits sticky (length value.now) (source_at v source.now value.now))) }
    ensures exact { IfOk result (λ g. interrupt_made sticky graph.old value.now source.now.given.items ≡ ((g.active, g.value.items), graph.new)) }
{
    let gates = interrupt_gates(graph, alloc, sticky, value, &source.given)?;
    Ok(HardwareGates {
        active: gates.active,
        value: gates.value,
    })
}
