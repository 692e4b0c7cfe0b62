//! The next state and the answer, from the latches of a register map.

ghost use Rattle.std.specs.Prelude.{◌≡◌, ℕ, Bool, ◌&&◌, ◌+◌, ◌*◌, ◌^◌, ◌<◌, ◌≤◌, length, IfOk};
ghost use Rattle.std.specs.List.{sum_by};
ghost use Rattle.gate_graph.specs.Gates.{AreOf, Extends, Means, Respects};
ghost use Rattle.word_gates.specs.Words.{Shows};
ghost use Rattle.reg_machine.specs.States.{next_state};
ghost use Rattle.reg_machine.specs.Machines.{is_unmapped};
ghost use Rattle.event_gates.specs.Events.{event_at};
ghost use Rattle.event_gates.specs.Graphs.{AreEvents};
ghost use Rattle.latch_order.specs.Latches.{latch_bits, state_bits};
ghost use Rattle.field_edges.specs.Given.{AreGiven};
ghost use Rattle.map_views.specs.Views.{AreInputs, AllStates};
ghost use Rattle.map_edges.specs.Edges.{SeesMap, AllEdges, AllNext};
ghost use Rattle.next_latches.specs.Next.{state_at};
ghost use Rattle.map_answers.specs.Answers.{counts_row};
ghost use Rattle.machine_edge.specs.Edges.{edge_at};
ghost use Rattle.machine_core.specs.Nodes.{around_nodes, core_nodes};
ghost use Rattle.machine_cycle.specs.Latched.{latched_state, latched_edge, answer_row};

use event_gates::EventGates;
use field_policies::map::RegMap;
use gate_graph::{Graph, Wire};
use machine_core::{Around, CoreGates, around_gates, core_gates};
use std::alloc::{AllocError, Global};
use std::vec::Vec;

/// A register map at an edge: what its fields look at, and what they make of it.
#[derive(Debug, Drop)]
pub struct Cycle {
    pub around: Around,
    pub core: CoreGates,
}

/// The next state and the answer, where `state` are the latches of all fields in order, and `hw` the
/// wires of each hardware input. They are the register machine's under every assignment.
#[tactic(auto, using(gate_graph::proofs::GateLemmas::extends_more))]
pub fn cycle_gates(
    graph: &mut Graph,
    alloc: Global,
    map: &RegMap,
    state: &[Wire],
    event: &EventGates,
    hw: &[Vec<Wire>],
) -> Result<Cycle, AllocError>
    requires state_of { AreOf state.now graph.old }
    requires state_length { length state.now ≡ sum_by latch_bits map.now.fields.items }
    requires event { AreEvents graph.old event.now }
    requires strobe { map.now.bus_width ≤ 8 * length event.now.strobe.items }
    requires data_length { length event.now.payload.items ≡ map.now.bus_width }
    requires inputs { AreInputs graph.old map.now.inputs.items hw.now }
    requires room { length graph.old + (around_nodes map.now (length event.now.address.items) + core_nodes map.now) < 2 ^ 31 }
    ensures nodes { Extends graph.old graph.new (around_nodes map.now (length event.now.address.items) + core_nodes map.now) }
    ensures states { IfOk result (λ c. AllStates graph.new map.now.fields.items c.around.states.items) }
    ensures given { IfOk result (λ c. AreGiven graph.new map.now.fields.items map.now.inputs.items c.around.views.items hw.now) }
    ensures hits_length { IfOk result (λ c. length c.around.hits.items ≡ length map.now.words.items) }
    ensures sees { IfOk result (λ c. SeesMap graph.new map.now event.now c.around.payload.items c.around.hits.items c.around.views.items hw.now (edge_at map.now c.around.states.items event.now hw.now)) }
    ensures edges { IfOk result (λ c. AllEdges graph.new map.now.fields.items c.core.edges.items) }
    ensures fields_next { IfOk result (λ c. AllNext graph.new map.now.fields.items c.around.states.items (edge_at map.now c.around.states.items event.now hw.now) c.core.edges.items) }
    ensures stored { IfOk result (λ c. (v : ℕ → Bool) → Respects v graph.new → state_at v c.around.states.items ≡ latched_state map.now state.now v) }
    ensures next { IfOk result (λ c. Shows graph.new c.core.next.items (λ v. state_bits map.now.fields.items (next_state (latched_edge map.now state.now event.now hw.now v) (latched_state map.now state.now v)))) }
    ensures payload { IfOk result (λ c. Shows graph.new c.core.payload.items (λ v. answer_row (latched_edge map.now state.now event.now hw.now v) (latched_state map.now state.now v).known map.now.bus_width)) }
    ensures counts { IfOk result (λ c. Shows graph.new c.core.counts.items (λ v. counts_row (latched_edge map.now state.now event.now hw.now v) (latched_state map.now state.now v).known map.now.bus_width)) }
    ensures error { IfOk result (λ c. Means graph.new c.core.error (λ v. event.now.unmapped_error && is_unmapped (event_at v event.now) map.now.words.items)) }
{
    let size = graph.size();
    let around = around_gates(graph, alloc, map, state, event, hw)?;
    let core = core_gates(graph, alloc, map, event, hw, &around)?;
    Ok(Cycle { around, core })
}
