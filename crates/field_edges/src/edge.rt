//! One field whole at an edge.

ghost use Rattle.std.specs.Prelude.{◌≡◌, ℕ, Bool, ◌+◌, ◌*◌, ◌^◌, ◌<◌, ◌≤◌, length, IfOk};
ghost use Rattle.gate_graph.specs.Gates.{IsOf, AreOf, Extends};
ghost use Rattle.reg_machine.specs.Conditions.{IsFieldOf};
ghost use Rattle.reg_machine.specs.Steps.{Edge};
ghost use Rattle.event_gates.specs.Graphs.{AreEvents};
ghost use Rattle.latch_order.specs.Wires.{stored_wires};
ghost use Rattle.field_edges.specs.Given.{AreGiven, AreStates};
ghost use Rattle.field_edges.specs.Edges.{SeesField, IsNext, AreEdges};
ghost use Rattle.field_edges.specs.Made.{views_of, words_of, edge_wires, edge_made};

use crate::seen::{FieldSeen, seen_gates};
use event_gates::{EventGates, HitGates};
use expr_gates::view::FieldView;
use field_gates::{StepGates, field_step};
use field_policies::field::Field;
use field_policies::map::RegMap;
use gate_graph::{Graph, Wire};
use latch_order::StateGates;
use std::alloc::{AllocError, Global};
use std::vec::Vec;

/// A field at an edge: what becomes of it, and what it shows of the edge.
#[derive(Debug, Drop)]
pub struct EdgeGates {
    /// The field after the edge.
    pub step: StepGates,
    /// Whether each place is written, least first.
    pub enabled: Vec<Wire>,
    /// A counter passes its greatest value.
    pub over: Wire,
    /// A counter falls below 0.
    pub under: Wire,
}

/// The field at an edge, where `hit` is its word's, `payload` the data of the bus if it is a write,
/// `views` each field and `hw` each hardware input. At most 45 gates a place and 59 more.
pub fn edge_gates(
    graph: &mut Graph,
    alloc: Global,
    map: &RegMap,
    field: &Field,
    state: &StateGates,
    hit: HitGates,
    event: &EventGates,
    payload: &[Wire],
    views: &[FieldView],
    hw: &[Vec<Wire>],
) -> Result<EdgeGates, AllocError>
    requires field { IsFieldOf map.now field.now }
    requires state { AreStates graph.old field.now.width state.now }
    requires reads_of { IsOf hit.reads graph.old }
    requires writes_of { IsOf hit.writes graph.old }
    requires event { AreEvents graph.old event.now }
    requires strobe { map.now.bus_width ≤ 8 * length event.now.strobe.items }
    requires payload_of { AreOf payload.now graph.old }
    requires payload_length { length payload.now ≡ map.now.bus_width }
    requires data_length { length event.now.payload.items ≡ map.now.bus_width }
    requires given { AreGiven graph.old map.now.fields.items map.now.inputs.items views.now hw.now }
    requires room { length graph.old + 45 * field.now.width + 59 < 2 ^ 31 }
    ensures nodes { Extends graph.old graph.new (45 * field.now.width + 59) }
    ensures of { IfOk result (λ g. AreEdges graph.new field.now.width g) }
    ensures next { IfOk result (λ g. (e : (ℕ → Bool) → Edge) (n : (ℕ → Bool) → ℕ) → SeesField graph.old map.now event.now payload.now hit state.now views.now hw.now field.now e n
        → IsNext graph.new field.now e n state.now g) }
    ensures exact { IfOk result (λ g. edge_made field.now graph.old (stored_wires state.now) (hit.reads, hit.writes) event.now.strobe.items payload.now (views_of views.now) (words_of hw.now)
        ≡ (edge_wires g, graph.new)) }
{
    let at = seen_gates(
        graph, alloc, map, field, state, hit, event, payload, views, hw,
    )?;
    let FieldSeen { seen, over, under } = at;
    let step = field_step(graph, alloc, field, &seen)?;
    Ok(EdgeGates {
        step,
        enabled: seen.enabled,
        over,
        under,
    })
}
