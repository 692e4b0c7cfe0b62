//! Every field at an edge.

ghost use Rattle.std.specs.Prelude.{◌≡◌, ℕ, Bool, ◌+◌, ◌*◌, ◌^◌, ◌<◌, ◌≤◌, length, slice_get, Some, IfOk};
ghost use Rattle.std.specs.List.{sum_by};
ghost use Rattle.gate_graph.specs.Gates.{AreOf, Extends};
ghost use Rattle.reg_machine.specs.Conditions.{IsFieldOf};
ghost use Rattle.reg_machine.specs.Steps.{Edge};
ghost use Rattle.event_gates.specs.Graphs.{AreEvents};
ghost use Rattle.field_edges.specs.Given.{AreGiven};
ghost use Rattle.field_edges.specs.Made.{words_of, views_of};
ghost use Rattle.map_views.specs.Views.{AllStates, stores_of};
ghost use Rattle.map_edges.specs.Hits.{hits_of};
ghost use Rattle.map_edges.specs.Edges.{AreOfGraph, SeesMap, AllEdges, AllNext, edge_gates_of, edges_of, edges_made};

use event_gates::{EventGates, HitGates};
use expr_gates::view::FieldView;
use field_edges::{EdgeGates, edge_gates};
use field_policies::field::Field;
use field_policies::map::RegMap;
use gate_graph::{Graph, Wire};
use latch_order::StateGates;
use std::alloc::{AllocError, Global};
use std::vec::Vec;

/// Each field at an edge, where `hits` are the words', `payload` the data of the bus if it is a write,
/// `views` each field and `hw` each hardware input. At most 104 gates a bit.
pub fn map_edges(
    graph: &mut Graph,
    alloc: Global,
    map: &RegMap,
    states: &[StateGates],
    hits: &[HitGates],
    event: &EventGates,
    payload: &[Wire],
    views: &[FieldView],
    hw: &[Vec<Wire>],
) -> Result<Vec<EdgeGates>, AllocError>
    requires states { AllStates graph.old map.now.fields.items states.now }
    requires hits { AreOfGraph graph.old hits.now }
    requires hits_length { length hits.now ≡ length map.now.words.items }
    requires event { AreEvents graph.old event.now }
    requires strobe { map.now.bus_width ≤ 8 * length event.now.strobe.items }
    requires payload_of { AreOf payload.now graph.old }
    requires payload_length { length payload.now ≡ map.now.bus_width }
    requires data_length { length event.now.payload.items ≡ map.now.bus_width }
    requires given { AreGiven graph.old map.now.fields.items map.now.inputs.items views.now hw.now }
    requires room { length graph.old + sum_by edge_gates_of map.now.fields.items < 2 ^ 31 }
    ensures nodes { Extends graph.old graph.new (sum_by edge_gates_of map.now.fields.items) }
    ensures of { IfOk result (λ edges. AllEdges graph.new map.now.fields.items edges.items) }
    ensures next { IfOk result (λ edges. (e : (ℕ → Bool) → Edge) → SeesMap graph.old map.now event.now payload.now hits.now views.now hw.now e → AllNext graph.new map.now.fields.items states.now e edges.items) }
    ensures exact { IfOk result (λ edges. edges_made graph.old map.now.fields.items (stores_of states.now) (hits_of hits.now) event.now.strobe.items payload.now (views_of views.now) (words_of hw.now) ≡ (edges_of edges.items, graph.new)) }
{
    let mut edges = Vec::new(alloc);
    for n in 0..map.fields.len() {
        let field = field_at(map, n);
        let hit = hits[field.word as usize];
        let edge = edge_gates(
            graph, alloc, map, field, &states[n], hit, event, payload, views, hw,
        )?;
        edges.push(edge)?;
    }
    Ok(edges)
}

/// The field of this number.
fn field_at(map: &RegMap, number: usize) -> &Field
    requires there { number < length map.now.fields.items }
    ensures here { slice_get map.now.fields.items number ≡ Some result.now }
    ensures field { IsFieldOf map.now result.now }
{
    &map.fields[number]
}
