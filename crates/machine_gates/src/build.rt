//! The whole machine.

ghost use Rattle.std.specs.Prelude.{◌≡◌, ℕ, Bool, ◌&&◌, ◌+◌, ◌*◌, ◌^◌, ◌<◌, ◌≤◌, length, map, IfOk};
ghost use Rattle.std.specs.List.{sum_by};
ghost use Rattle.gate_graph.specs.Gates.{AreOf, Extends, Means};
ghost use Rattle.word_gates.specs.Words.{Shows};
ghost use Rattle.reg_machine.specs.States.{next_state};
ghost use Rattle.reg_machine.specs.Machines.{is_unmapped};
ghost use Rattle.event_gates.specs.Events.{event_at};
ghost use Rattle.event_gates.specs.Graphs.{AreEvents};
ghost use Rattle.latch_order.specs.Latches.{latch_bits, state_bits};
ghost use Rattle.map_views.specs.Views.{AreInputs};
ghost use Rattle.map_answers.specs.Answers.{counts_row};
ghost use Rattle.machine_cycle.specs.Latched.{answer_row, latched_edge, latched_state};
ghost use Rattle.machine_gates.specs.Machines.{AreOutputs, machine_nodes};

use crate::outputs::all_outputs;
use event_gates::EventGates;
use field_policies::map::RegMap;
use gate_graph::{Graph, Wire};
use latch_order::StateGates;
use machine_core::CoreGates;
use machine_cycle::{Cycle, cycle_gates};
use std::alloc::{AllocError, Global};
use std::vec::Vec;

/// A register map at an edge. Words have their lowest place first.
#[derive(Debug, Drop)]
pub struct MachineGates {
    /// The latches of all fields after the edge, field by field.
    pub next: Vec<Wire>,
    /// The data of the answer, of the bus width.
    pub payload: Vec<Wire>,
    /// The answer is an error.
    pub error: Wire,
    /// Which bits of the data count.
    pub counts: Vec<Wire>,
    /// For each field a list of wires for each output that it shows, in the order of `OutSignal`.
    pub outputs: Vec<Vec<Vec<Wire>>>,
    /// Whether each field's value is known; what an output says of a value counts where it is.
    pub known: Vec<Wire>,
}

/// Whether each field's value is known.
fn known_wires(alloc: Global, states: &[StateGates]) -> Result<Vec<Wire>, AllocError>
    ensures { IfOk result (λ wires. wires.items ≡ map (λ s. s.known) states.now) }
{
    let mut wires = Vec::new(alloc);
    for n in 0..states.len() {
        wires.push(states[n].known)?;
    }
    Ok(wires)
}

/// The register machine of a map, where `state` are the latches of all fields in order, `event` the bus
/// event of the edge and `hw` the wires of each hardware input: under every assignment its wires are what
/// the machine is that latches and inputs stand for. An event whose `read` and `write` are both 1 is a
/// read. At most 64 gates a word, 181 a bit of a field and 35.
#[tactic(auto, using(gate_graph::proofs::GateLemmas::extends_more))]
pub fn build_machine(
    graph: &mut Graph,
    alloc: Global,
    map: &RegMap,
    state: &[Wire],
    event: &EventGates,
    hw: &[Vec<Wire>],
) -> Result<MachineGates, AllocError>
    requires state_of { AreOf state.now graph.old }
    requires state_length { length state.now ≡ sum_by latch_bits map.now.fields.items }
    requires event { AreEvents graph.old event.now }
    requires address_length { length event.now.address.items ≤ 32 }
    requires data_length { length event.now.payload.items ≡ map.now.bus_width }
    requires strobe { map.now.bus_width ≤ 8 * length event.now.strobe.items }
    requires inputs { AreInputs graph.old map.now.inputs.items hw.now }
    requires room { length graph.old + machine_nodes map.now < 2 ^ 31 }
    ensures nodes { Extends graph.old graph.new (machine_nodes map.now) }
    ensures next { IfOk result (λ m. Shows graph.new m.next.items (λ v. state_bits map.now.fields.items (next_state (latched_edge map.now state.now event.now hw.now v) (latched_state map.now state.now v)))) }
    ensures payload { IfOk result (λ m. Shows graph.new m.payload.items (λ v. answer_row (latched_edge map.now state.now event.now hw.now v) (latched_state map.now state.now v).known map.now.bus_width)) }
    ensures error { IfOk result (λ m. Means graph.new m.error (λ v. event.now.unmapped_error && is_unmapped (event_at v event.now) map.now.words.items)) }
    ensures counts { IfOk result (λ m. Shows graph.new m.counts.items (λ v. counts_row (latched_edge map.now state.now event.now hw.now v) (latched_state map.now state.now v).known map.now.bus_width)) }
    ensures outputs { IfOk result (λ m. AreOutputs graph.new map.now.fields.items (latched_edge map.now state.now event.now hw.now) (λ v. (latched_state map.now state.now v).used) m.outputs.items) }
    ensures known { IfOk result (λ m. Shows graph.new m.known.items (λ v. (latched_state map.now state.now v).known)) }
{
    let cycle = cycle_gates(graph, alloc, map, state, event, hw)?;
    let Cycle { around, core } = cycle;
    let CoreGates {
        edges,
        next,
        payload,
        counts,
        error,
    } = core;
    let outputs = all_outputs(
        graph,
        alloc,
        map,
        &around.hits,
        edges.as_slice(),
        &around.views,
        hw,
    )?;
    let known = known_wires(alloc, &around.states)?;
    Ok(MachineGates {
        next,
        payload,
        error,
        counts,
        outputs,
        known,
    })
}
