//! The fields, the latches and the answer at an edge.

ghost use Rattle.std.specs.Prelude.{◌≡◌, ℕ, Bool, ◌&&◌, ◌+◌, ◌*◌, ◌^◌, ◌<◌, ◌≤◌, length, IfOk};
ghost use Rattle.std.specs.List.{sum_by};
ghost use Rattle.gate_graph.specs.Gates.{AreOf, Extends, Means};
ghost use Rattle.word_gates.specs.Words.{Shows};
ghost use Rattle.reg_machine.specs.Steps.{Edge};
ghost use Rattle.reg_machine.specs.States.{next_state};
ghost use Rattle.reg_machine.specs.Machines.{is_unmapped};
ghost use Rattle.event_gates.specs.Events.{event_at};
ghost use Rattle.event_gates.specs.Graphs.{AreEvents};
ghost use Rattle.answer_gates.specs.Laws.{shown_below};
ghost use Rattle.latch_order.specs.Latches.{state_bits};
ghost use Rattle.field_edges.specs.Given.{AreGiven};
ghost use Rattle.map_views.specs.Views.{AllStates};
ghost use Rattle.map_edges.specs.Hits.{AreHits};
ghost use Rattle.map_edges.specs.Edges.{AreOfGraph, SeesMap, AllEdges, AllNext, edge_gates_of};
ghost use Rattle.next_latches.specs.Next.{state_at};
ghost use Rattle.map_answers.specs.Answers.{data_gates_of, known_at, counts_row};

use crate::around::Around;
use event_gates::EventGates;
use field_edges::EdgeGates;
use field_policies::map::RegMap;
use gate_graph::{Graph, Wire};
use map_answers::{counts_word, data_word, error_wire};
use map_edges::map_edges;
use next_latches::next_latches;
use std::alloc::{AllocError, Global};
use std::vec::Vec;

/// A register map at an edge, before its outputs.
#[derive(Debug, Drop)]
pub struct CoreGates {
    /// Each field at the edge.
    pub edges: Vec<EdgeGates>,
    /// The latches after the edge, field by field.
    pub next: Vec<Wire>,
    /// The data of the answer, of the bus width.
    pub payload: Vec<Wire>,
    /// Which bits of the data count.
    pub counts: Vec<Wire>,
    /// The answer is an error.
    pub error: Wire,
}

/// The fields, the latches and the answer at an edge, from what all fields look at.
#[tactic(auto, using(gate_graph::proofs::GateLemmas::extends_more))]
pub fn core_gates(
    graph: &mut Graph,
    alloc: Global,
    map: &RegMap,
    event: &EventGates,
    hw: &[Vec<Wire>],
    around: &Around,
) -> Result<CoreGates, AllocError>
    requires event { AreEvents graph.old event.now }
    requires strobe { map.now.bus_width ≤ 8 * length event.now.strobe.items }
    requires data_length { length event.now.payload.items ≡ map.now.bus_width }
    requires states { AllStates graph.old map.now.fields.items around.now.states.items }
    requires given { AreGiven graph.old map.now.fields.items map.now.inputs.items around.now.views.items hw.now }
    requires payload_of { AreOf around.now.payload.items graph.old }
    requires payload_length { length around.now.payload.items ≡ map.now.bus_width }
    requires hits_length { length around.now.hits.items ≡ length map.now.words.items }
    requires hits { AreHits graph.old event.now map.now.words.items around.now.hits.items }
    requires hits_of { AreOfGraph graph.old around.now.hits.items }
    requires room { length graph.old + sum_by edge_gates_of map.now.fields.items + sum_by data_gates_of map.now.fields.items + length map.now.fields.items * 33 + length map.now.words.items * 2 + 2 < 2 ^ 31 }
    ensures nodes { Extends graph.old graph.new (sum_by edge_gates_of map.now.fields.items + sum_by data_gates_of map.now.fields.items + length map.now.fields.items * 33 + length map.now.words.items * 2 + 2) }
    ensures edges { IfOk result (λ g. AllEdges graph.new map.now.fields.items g.edges.items) }
    ensures fields_next { IfOk result (λ g. (e : (ℕ → Bool) → Edge) → SeesMap graph.old map.now event.now around.now.payload.items around.now.hits.items around.now.views.items hw.now e
        → AllNext graph.new map.now.fields.items around.now.states.items e g.edges.items) }
    ensures next { IfOk result (λ g. (e : (ℕ → Bool) → Edge) → SeesMap graph.old map.now event.now around.now.payload.items around.now.hits.items around.now.views.items hw.now e
        → Shows graph.new g.next.items (λ v. state_bits map.now.fields.items (next_state (e v) (state_at v around.now.states.items)))) }
    ensures payload { IfOk result (λ g. (e : (ℕ → Bool) → Edge) → SeesMap graph.old map.now event.now around.now.payload.items around.now.hits.items around.now.views.items hw.now e
        → Shows graph.new g.payload.items (λ v. shown_below (e v) (known_at v around.now.states.items) map.now.bus_width (length map.now.fields.items))) }
    ensures counts { IfOk result (λ g. (e : (ℕ → Bool) → Edge) → SeesMap graph.old map.now event.now around.now.payload.items around.now.hits.items around.now.views.items hw.now e
        → Shows graph.new g.counts.items (λ v. counts_row (e v) (known_at v around.now.states.items) map.now.bus_width)) }
    ensures error { IfOk result (λ g. Means graph.new g.error (λ v. event.now.unmapped_error && is_unmapped (event_at v event.now) map.now.words.items)) }
{
    let edges = map_edges(
        graph,
        alloc,
        map,
        &around.states,
        &around.hits,
        event,
        &around.payload,
        &around.views,
        hw,
    )?;
    let next = next_latches(alloc, map.fields.as_slice(), edges.as_slice())?;
    let payload = data_word(
        graph,
        alloc,
        map,
        &around.states,
        &around.hits,
        &around.views,
        hw,
    )?;
    let counts = counts_word(graph, alloc, map, &around.states, &around.hits)?;
    let error = error_wire(graph, event, map.words.as_slice(), &around.hits)?;
    Ok(CoreGates {
        edges,
        next,
        payload,
        counts,
        error,
    })
}
