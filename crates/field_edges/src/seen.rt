//! What a field sees at an edge.

ghost use Rattle.std.specs.Prelude.{◌≡◌, ℕ, Bool, ◌+◌, ◌*◌, ◌^◌, ◌<◌, ◌≤◌, length, IfOk};
ghost use Rattle.gate_graph.specs.Gates.{IsOf, AreOf, Extends, Means, Respects};
ghost use Rattle.reg_machine.specs.Conditions.{IsFieldOf};
ghost use Rattle.reg_machine.specs.Steps.{Edge};
ghost use Rattle.reg_machine.specs.Machines.{overflow_of, underflow_of};
ghost use Rattle.event_gates.specs.Graphs.{AreEvents};
ghost use Rattle.field_gates.specs.Laws.{Sees};
ghost use Rattle.field_gates.specs.SeenGates.{AreSeen, seen_at, seen_wires};
ghost use Rattle.latch_order.specs.Wires.{stored_wires};
ghost use Rattle.field_edges.specs.Given.{AreGiven, AreStates};
ghost use Rattle.field_edges.specs.Edges.{SeesField};
ghost use Rattle.field_edges.specs.Made.{views_of, words_of, seen_made};

use crate::kinds::kind_gates;
use event_gates::{EventGates, HitGates, enabled_word, payload_word};
use expr_gates::view::FieldView;
use expr_gates::{open_wire, open_word};
use field_gates::SeenGates;
use field_policies::field::Field;
use field_policies::map::RegMap;
use gate_graph::{Graph, Wire};
use latch_order::StateGates;
use side_gates::{CounterGates, any_of_three, source_gates};
use std::alloc::{AllocError, Global};
use std::vec::Vec;

/// The same wires.
fn copied(alloc: Global, a: &[Wire]) -> Result<Vec<Wire>, AllocError>
    ensures { IfOk result (λ wires. wires.items ≡ a.now) }
{
    a.to_vec(alloc)
}

/// What a field sees at an edge, and whether its count, if it is a counter, goes over and under.
#[derive(Debug, Drop)]
pub struct FieldSeen {
    pub seen: SeenGates,
    pub over: Wire,
    pub under: Wire,
}

/// What the field sees at an edge, where `hit` is its word's, `payload` the data of the bus if it is a
/// write, `views` each field and `hw` each hardware input. At most 25 gates a place and 46 more.
pub fn seen_gates(
    graph: &mut Graph,
    alloc: Global,
    map: &RegMap,
    field: &Field,
    state: &StateGates,
    hit: HitGates,
    event: &EventGates,
    payload: &[Wire],
    views: &[FieldView],
    hw: &[Vec<Wire>],
) -> Result<FieldSeen, AllocError>
    requires field { IsFieldOf map.now field.now }
    requires state { AreStates graph.old field.now.width state.now }
    requires reads_of { IsOf hit.reads graph.old }
    requires writes_of { IsOf hit.writes graph.old }
    requires event { AreEvents graph.old event.now }
    requires strobe { map.now.bus_width ≤ 8 * length event.now.strobe.items }
    requires payload_of { AreOf payload.now graph.old }
    requires payload_length { length payload.now ≡ map.now.bus_width }
    requires data_length { length event.now.payload.items ≡ map.now.bus_width }
    requires given { AreGiven graph.old map.now.fields.items map.now.inputs.items views.now hw.now }
    requires room { length graph.old + 25 * field.now.width + 46 < 2 ^ 31 }
    ensures nodes { Extends graph.old graph.new (25 * field.now.width + 46) }
    ensures seen { IfOk result (λ g. AreSeen graph.new field.now.width g.seen) }
    ensures over_of { IfOk result (λ g. IsOf g.over graph.new) }
    ensures under_of { IfOk result (λ g. IsOf g.under graph.new) }
    ensures flags { IfOk result (λ g. (g.seen.used ≡ state.now.used) × (g.seen.known ≡ state.now.known)) }
    ensures sees { IfOk result (λ g. (e : (ℕ → Bool) → Edge) (n : (ℕ → Bool) → ℕ) → SeesField graph.old map.now event.now payload.now hit state.now views.now hw.now field.now e n
        → (v : ℕ → Bool) → Respects v graph.new → Sees (e v) field.now (n v) (seen_at v g.seen)) }
    ensures over { IfOk result (λ g. (e : (ℕ → Bool) → Edge) (n : (ℕ → Bool) → ℕ) → SeesField graph.old map.now event.now payload.now hit state.now views.now hw.now field.now e n
        → Means graph.new g.over (λ v. overflow_of (e v).view field.now (n v) field.now.extra)) }
    ensures under { IfOk result (λ g. (e : (ℕ → Bool) → Edge) (n : (ℕ → Bool) → ℕ) → SeesField graph.old map.now event.now payload.now hit state.now views.now hw.now field.now e n
        → Means graph.new g.under (λ v. underflow_of (e v).view field.now (n v) field.now.extra)) }
    ensures exact { IfOk result (λ g. seen_made field.now graph.old (stored_wires state.now) (hit.reads, hit.writes) event.now.strobe.items payload.now (views_of views.now) (words_of hw.now)
        ≡ ((seen_wires g.seen, (g.over, g.under)), graph.new)) }
{
    let enabled = enabled_word(graph, alloc, field, hit.writes, &event.strobe)?;
    let written = payload_word(alloc, field, payload)?;
    let source = source_gates(graph, alloc, field, views, hw)?;
    let whole = any_of_three(graph, source.taken, source.set, source.clear)?;
    let kind = kind_gates(graph, alloc, &field.extra, &source, &state.value)?;
    let allowed = open_wire(graph, alloc, views, hw, field.sw_gate)?;
    let opened = open_word(
        graph,
        alloc,
        views,
        hw,
        field.bit_gate,
        field.width as usize,
    )?;
    let value = copied(alloc, &state.value)?;
    let CounterGates {
        hardware,
        over,
        under,
    } = kind;
    Ok(FieldSeen {
        seen: SeenGates {
            reads: hit.reads,
            allowed,
            used: state.used,
            known: state.known,
            active: hardware.active,
            whole,
            enabled,
            payload: written,
            value,
            side: hardware.value,
            opened,
        },
        over,
        under,
    })
}
