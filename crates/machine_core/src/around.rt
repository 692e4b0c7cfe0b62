//! What all fields of a map look at.

ghost use Rattle.std.specs.Prelude.{◌≡◌, ℕ, ◌+◌, ◌*◌, ◌^◌, ◌<◌, length, IfOk};
ghost use Rattle.std.specs.List.{sum_by};
ghost use Rattle.gate_graph.specs.Gates.{AreOf, Extends};
ghost use Rattle.word_gates.specs.Graphs.{off, on};
ghost use Rattle.event_gates.specs.Graphs.{AreEvents};
ghost use Rattle.latch_order.specs.Latches.{latch_bits, all_stored};
ghost use Rattle.field_edges.specs.Given.{AreGiven};
ghost use Rattle.map_views.specs.Views.{AreInputs, AllStates, stores_of};
ghost use Rattle.map_edges.specs.Hits.{AreHits};
ghost use Rattle.map_edges.specs.Edges.{AreOfGraph, SeesMap};
ghost use Rattle.machine_edge.specs.Edges.{edge_at};

use event_gates::{EventGates, HitGates, payload_gates, write_wire};
use expr_gates::view::FieldView;
use field_policies::map::RegMap;
use gate_graph::{Graph, Wire};
use latch_order::{StateGates, state_gates};
use map_edges::hit_words;
use map_views::map_views;
use std::alloc::{AllocError, Global};
use std::vec::Vec;

/// What all fields of a map look at, as wires.
#[derive(Debug, Drop)]
pub struct Around {
    /// What each field stores.
    pub states: Vec<StateGates>,
    /// Each field as others see it.
    pub views: Vec<FieldView>,
    /// The data of the bus where the event writes, else false.
    pub payload: Vec<Wire>,
    /// Whether the event reads and writes each word.
    pub hits: Vec<HitGates>,
}

/// What all fields look at, where `state` are the latches of all fields: five gates a bit, one for each
/// place of the data, one for each place of the address and three more a word, and one.
#[tactic(auto, using(gate_graph::proofs::GateLemmas::extends_more))]
pub fn around_gates(
    graph: &mut Graph,
    alloc: Global,
    map: &RegMap,
    state: &[Wire],
    event: &EventGates,
    hw: &[Vec<Wire>],
) -> Result<Around, AllocError>
    requires state_of { AreOf state.now graph.old }
    requires state_length { length state.now ≡ sum_by latch_bits map.now.fields.items }
    requires event { AreEvents graph.old event.now }
    requires data_length { length event.now.payload.items ≡ map.now.bus_width }
    requires inputs { AreInputs graph.old map.now.inputs.items hw.now }
    requires room { length graph.old + 5 * sum_by (λ f. f.width) map.now.fields.items + map.now.bus_width + length map.now.words.items * (length event.now.address.items + 3) + 1 < 2 ^ 31 }
    ensures nodes { Extends graph.old graph.new (5 * sum_by (λ f. f.width) map.now.fields.items + map.now.bus_width + length map.now.words.items * (length event.now.address.items + 3) + 1) }
    ensures stored { IfOk result (λ a. stores_of a.states.items ≡ all_stored off on map.now.fields.items state.now) }
    ensures states { IfOk result (λ a. AllStates graph.new map.now.fields.items a.states.items) }
    ensures given { IfOk result (λ a. AreGiven graph.new map.now.fields.items map.now.inputs.items a.views.items hw.now) }
    ensures payload_of { IfOk result (λ a. AreOf a.payload.items graph.new) }
    ensures payload_length { IfOk result (λ a. length a.payload.items ≡ map.now.bus_width) }
    ensures hits_length { IfOk result (λ a. length a.hits.items ≡ length map.now.words.items) }
    ensures hits { IfOk result (λ a. AreHits graph.new event.now map.now.words.items a.hits.items) }
    ensures hits_of { IfOk result (λ a. AreOfGraph graph.new a.hits.items) }
    ensures sees { IfOk result (λ a. SeesMap graph.new map.now event.now a.payload.items a.hits.items a.views.items hw.now (edge_at map.now a.states.items event.now hw.now)) }
{
    let size = graph.size();
    let states = state_gates(graph, alloc, map.fields.as_slice(), state)?;
    let views = map_views(graph, alloc, map, states.as_slice(), hw)?;
    let only = write_wire(graph, event)?;
    let payload = payload_gates(graph, alloc, event, only)?;
    let hits = hit_words(graph, alloc, event, map.words.as_slice())?;
    Ok(Around {
        states,
        views,
        payload,
        hits,
    })
}
