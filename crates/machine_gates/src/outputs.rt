//! What all fields show to hardware.

ghost use Rattle.std.specs.Prelude.{◌≡◌, ℕ, Bool, List, ◌+◌, ◌^◌, ◌<◌, length, map, IfOk};
ghost use Rattle.std.specs.List.{sum_by};
ghost use Rattle.gate_graph.specs.Gates.{Extends, wire_value};
ghost use Rattle.event_gates.specs.declared.hits.EventGates.{EventGates};
ghost use Rattle.latch_order.specs.declared.latches.StateGates.{StateGates};
ghost use Rattle.field_edges.specs.Given.{AreGiven};
ghost use Rattle.gate_graph.specs.declared.wires.Wire.{Wire};
ghost use Rattle.map_views.specs.Views.{AllStates};
ghost use Rattle.map_edges.specs.Edges.{AllEdges, AllNext, AreOfGraph, SeesMap};
ghost use Rattle.machine_edge.specs.Edges.{edge_at};
ghost use Rattle.output_gates.specs.Outputs.{output_gates_of};
ghost use Rattle.machine_gates.specs.Machines.{AreOutputs, used_at};

use event_gates::HitGates;
use expr_gates::view::FieldView;
use field_edges::EdgeGates;
use field_policies::map::RegMap;
use gate_graph::{Graph, Wire};
use map_answers::data::field_at;
use output_gates::field_outputs;
use std::alloc::{AllocError, Global};
use std::vec::Vec;

/// One list for each field, of one list of wires for each output that it shows, in order; `hits` are the
/// words', `edges` the fields at the edge, and `views` as others see them.
pub fn all_outputs(
    graph: &mut Graph,
    alloc: Global,
    map: &RegMap,
    hits: &[HitGates],
    edges: &[EdgeGates],
    views: &[FieldView],
    hw: &[Vec<Wire>],
) -> Result<Vec<Vec<Vec<Wire>>>, AllocError>
    requires hits { AreOfGraph graph.old hits.now }
    requires hits_length { length hits.now ≡ length map.now.words.items }
    requires edges { AllEdges graph.old map.now.fields.items edges.now }
    requires given { AreGiven graph.old map.now.fields.items map.now.inputs.items views.now hw.now }
    requires room { length graph.old + sum_by (output_gates_of map.now.fields.items) map.now.fields.items < 2 ^ 31 }
    ensures nodes { Extends graph.old graph.new (sum_by (output_gates_of map.now.fields.items) map.now.fields.items) }
    ensures outputs { IfOk result (λ rows. (states : List StateGates) (event : EventGates) (payload : List Wire) → AllStates graph.old map.now.fields.items states
        → SeesMap graph.old map.now event payload hits.now views.now hw.now (edge_at map.now states event hw.now) → AllNext graph.old map.now.fields.items states (edge_at map.now states event hw.now) edges.now
        → AreOutputs graph.new map.now.fields.items (edge_at map.now states event hw.now) (used_at states) rows.items) }
{
    let mut rows = Vec::new(alloc);
    for n in 0..map.fields.len() {
        let field = field_at(map, n);
        let hit = hits[field.word as usize];
        let row = field_outputs(graph, alloc, map, n, field, hit.reads, &edges[n], views, hw)?;
        rows.push(row)?;
    }
    Ok(rows)
}
