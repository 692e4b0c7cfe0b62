//! What hardware makes of a field, by its kind.

ghost use Rattle.std.specs.Prelude.{◌≡◌, ℕ, Bool, false, ◌+◌, ◌*◌, ◌^◌, ◌<◌, length, IfOk};
ghost use Rattle.field_policies.specs.declared.extra.Extra.TheVariants as kinds;
ghost use Rattle.field_policies.specs.declared.extra.Counter.{Counter};
ghost use Rattle.gate_graph.specs.Gates.{AreOf, Extends, Means};
ghost use Rattle.word_gates.specs.Words.{Shows};
ghost use Rattle.word_gates.specs.Graphs.{off};
ghost use Rattle.side_gates.specs.Sides.{FitsCounter, source_at};
ghost use Rattle.side_gates.specs.Graphs.{AreSources, source_wires};
ghost use Rattle.field_edges.specs.Kinds.{kind_active, kind_bits, kind_over, kind_under, kind_made};

use field_policies::extra::Extra;
use gate_graph::{Graph, Wire};
use side_gates::{
    CounterGates, HardwareGates, SourceGates, counter_gates, intr_gates, plain_gates,
};
use std::alloc::{AllocError, Global};
use std::vec::Vec;

/// The side of a field that is no counter: it goes neither over nor under.
fn without_count(graph: &Graph, hardware: HardwareGates) -> CounterGates
    ensures hardware { result.hardware ≡ hardware }
    ensures over { Means graph.now result.over (λ v. false) }
    ensures under { Means graph.now result.under (λ v. false) }
    ensures over_off { result.over ≡ off }
    ensures under_off { result.under ≡ off }
{
    CounterGates {
        hardware,
        over: graph.zero(),
        under: graph.zero(),
    }
}

/// What hardware makes of a field of this kind, and whether a counter goes over and under. At most 24
/// gates a place and 44 more.
pub fn kind_gates(
    graph: &mut Graph,
    alloc: Global,
    extra: &Extra,
    source: &SourceGates,
    value: &[Wire],
) -> Result<CounterGates, AllocError>
    requires source { AreSources graph.old (length value.now) source.now }
    requires value_of { AreOf value.now graph.old }
    requires fits { (c : Counter) → extra.now ≡ kinds.Counter c → FitsCounter c (length value.now) }
    requires room { length graph.old + 24 * length value.now + 44 < 2 ^ 31 }
    ensures nodes { Extends graph.old graph.new (24 * length value.now + 44) }
    ensures length { IfOk result (λ g. length g.hardware.value.items ≡ length value.now) }
    ensures active { IfOk result (λ g. Means graph.new g.hardware.active (λ v. kind_active extra.now (source_at v source.now value.now))) }
    ensures value { IfOk result (λ g. Shows graph.new g.hardware.value.items (λ v. kind_bits extra.now (length value.now) (source_at v source.now value.now))) }
    ensures over { IfOk result (λ g. Means graph.new g.over (λ v. kind_over extra.now (length value.now) (source_at v source.now value.now))) }
    ensures under { IfOk result (λ g. Means graph.new g.under (λ v. kind_under extra.now (length value.now) (source_at v source.now value.now))) }
    ensures exact { IfOk result (λ g. kind_made extra.now graph.old (source_wires source.now) value.now ≡ ((g.hardware.active, (g.hardware.value.items, (g.over, g.under))), graph.new)) }
{
    match extra {
        Extra::Plain => {
            let hardware = plain_gates(graph, alloc, source, value)?;
            Ok(without_count(graph, hardware))
        }
        Extra::Counter(counter) => counter_gates(graph, alloc, counter, source, value),
        Extra::Intr(intr) => {
            let hardware = intr_gates(graph, alloc, intr.sticky, source, value)?;
            Ok(without_count(graph, hardware))
        }
    }
}
