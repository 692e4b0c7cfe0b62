//! The machine of a map as gates, over inputs of its own.

ghost use Rattle.std.specs.Prelude.{◌≡◌, ℕ, List, ◌+◌, ◌*◌, ◌^◌, ◌<◌, ◌≤◌, length, IfOk, OnOk};
ghost use Rattle.std.specs.List.{sum_by};
ghost use Rattle.gate_graph.specs.declared.nodes.Node.{Node};
ghost use Rattle.gate_graph.specs.Gates.{AreOf, Keeps};
ghost use Rattle.event_gates.specs.Graphs.{AreEvents};
ghost use Rattle.latch_order.specs.Latches.{latch_bits};
ghost use Rattle.map_views.specs.Views.{AreInputs};

use apb_rules::event::BusEvent;
use field_policies::map::RegMap;
use gate_graph::{Graph, Node, Wire};
use latch_order::latch_count;
use machine_gates::{EventGates, MachineGates, build_machine};
use std::alloc::{AllocError, Global};
use std::vec::Vec;

/// The machine and its graph. The graph's inputs are the latches of the map, the bus event (`read`,
/// `write`, the places of the address, the data, four of the strobe), and 32 for each hardware input.
#[derive(Debug, Drop)]
pub struct Built {
    pub graph: Graph,
    pub machine: MachineGates,
}

/// A word of new inputs.
fn word(graph: &mut Graph, alloc: Global, width: usize) -> Result<Vec<Wire>, AllocError>
    requires { length graph.old + width < 2 ^ 31 }
    ensures of { IfOk result (λ wires. AreOf wires.items graph.new) }
    ensures length { IfOk result (λ wires. length wires.items ≡ width) }
    ensures keeps { Keeps graph.old graph.new }
    ensures size { OnOk result (length graph.new ≡ length graph.old + width) }
{
    let mut wires = Vec::new(alloc);
    for i in 0..width {
        let wire = graph.input()?;
        wires.push(wire)?;
    }
    Ok(wires)
}

/// How many latches all fields have.
fn latch_total(map: &RegMap) -> usize
    ensures total { result ≡ sum_by latch_bits map.now.fields.items }
    ensures few { result ≤ 140000 }
{
    let mut total = 0;
    for n in 0..map.fields.len() {
        total += latch_count(&map.fields[n]);
    }
    total
}

/// The same wires.
fn copied(alloc: Global, a: &[Wire]) -> Result<Vec<Wire>, AllocError>
    ensures { IfOk result (λ wires. wires.items ≡ a.now) }
{
    a.to_vec(alloc)
}

/// A bus event of these wires: `read`, `write`, the places of the address, the data, the strobe.
fn event_of(
    alloc: Global,
    wires: &[Wire],
    places: usize,
    bus: usize,
) -> Result<EventGates, AllocError>
    requires length { length wires.now ≡ 2 + places + bus + 4 }
    requires small { places ≤ 32 }
    requires bus { bus ≤ 32 }
    ensures of { IfOk result (λ e. (nodes : List Node) → AreOf wires.now nodes → AreEvents nodes e) }
    ensures address { IfOk result (λ e. length e.address.items ≡ places) }
    ensures payload { IfOk result (λ e. length e.payload.items ≡ bus) }
    ensures strobe { IfOk result (λ e. length e.strobe.items ≡ 4) }
{
    let (first, rest) = wires.split_at(2);
    let (address, rest) = rest.split_at(places);
    let (payload, strobe) = rest.split_at(bus);
    Ok(EventGates {
        read: first[0],
        write: first[1],
        address: copied(alloc, address)?,
        payload: copied(alloc, payload)?,
        strobe: copied(alloc, strobe)?,
        unmapped_error: true,
    })
}

/// The wires of each hardware input: the first of its 32.
fn hw_words(alloc: Global, map: &RegMap, wires: &[Wire]) -> Result<Vec<Vec<Wire>>, AllocError>
    requires { length wires.now ≡ 32 * length map.now.inputs.items }
    ensures { IfOk result (λ hw. (nodes : List Node) → AreOf wires.now nodes → AreInputs nodes map.now.inputs.items hw.items) }
{
    let mut hw = Vec::new(alloc);
    for k in 0..map.inputs.len() {
        let width = map.inputs[k].width as usize;
        let (_, rest) = wires.split_at(32 * k);
        let (own, _) = rest.split_at(width);
        let word = copied(alloc, own)?;
        hw.push(word)?;
    }
    Ok(hw)
}

/// The machine of a map as gates, with so many places of an address; without memory where the map has
/// more than 40,000 hardware inputs.
pub fn machine_of(alloc: Global, map: &RegMap, places: usize) -> Result<Built, AllocError>
    requires { places ≤ 32 }
{
    let latches = latch_total(map);
    let bus = map.bus_width as usize;
    let inputs = map.inputs.len();
    if inputs > 40_000 {
        return Err(AllocError);
    }
    let mut graph = Graph::new(alloc)?;
    let wires = word(
        &mut graph,
        alloc,
        latches + (2 + places + bus + 4) + 32 * inputs,
    )?;
    let (state, rest) = wires.as_slice().split_at(latches);
    let (bus_wires, hw_wires) = rest.split_at(2 + places + bus + 4);
    let event = event_of(alloc, bus_wires, places, bus)?;
    let hw = hw_words(alloc, map, hw_wires)?;
    let machine = build_machine(&mut graph, alloc, map, state, &event, hw.as_slice())?;
    Ok(Built { graph, machine })
}

impl Built {
    /// The values of all wires of the machine, in order: the next latches, the answer, which of its bits
    /// count, the error, the outputs and the known flags. Reads the nodes by itself.
    pub fn bits(&self, alloc: Global, inputs: &[bool]) -> Result<Vec<bool>, AllocError> {
        let mut table: Vec<bool> = Vec::new(alloc);
        for i in 0..self.graph.size() {
            let value = match self.graph.node(i) {
                Node::And(a, b) => value_at(table.as_slice(), a) && value_at(table.as_slice(), b),
                Node::Input(n) => inputs.get(n as usize).copied().unwrap_or(false),
                Node::Zero | Node::Latch(_) => false,
            };
            table.push(value)?;
        }
        let table = table.as_slice();
        let mut bits = Vec::new(alloc);
        push_values(&mut bits, table, self.machine.next.as_slice())?;
        push_values(&mut bits, table, self.machine.payload.as_slice())?;
        push_values(&mut bits, table, self.machine.counts.as_slice())?;
        bits.push(value_at(table, self.machine.error))?;
        for row in self.machine.outputs.as_slice() {
            for word in row.as_slice() {
                push_values(&mut bits, table, word.as_slice())?;
            }
        }
        push_values(&mut bits, table, self.machine.known.as_slice())?;
        Ok(bits)
    }
}

fn value_at(table: &[bool], wire: Wire) -> bool {
    table.get((wire.0 / 2) as usize).copied().unwrap_or(false) != (wire.0 % 2 == 1)
}

fn push_values(bits: &mut Vec<bool>, table: &[bool], wires: &[Wire]) -> Result<(), AllocError> {
    for wire in wires {
        bits.push(value_at(table, *wire))?;
    }
    Ok(())
}

/// Adds the lowest bits of a number, least first.
pub fn push_number(bits: &mut Vec<bool>, number: u32, width: u32) -> Result<(), AllocError> {
    let mut rest = number;
    for _ in 0..width {
        bits.push(rest % 2 == 1)?;
        rest /= 2;
    }
    Ok(())
}

/// The bits of the bus event, of an address of so many places on a bus of so many bits.
pub fn push_event(
    bits: &mut Vec<bool>,
    event: BusEvent,
    places: u32,
    bus: u32,
) -> Result<(), AllocError> {
    let (read, write, address, payload, strobe) = match event {
        BusEvent::Nothing => (false, false, 0, 0, 0),
        BusEvent::Read(address) => (true, false, address, 0, 0),
        BusEvent::Write {
            address,
            payload,
            strobe,
        } => (false, true, address, payload, strobe),
    };
    bits.push(read)?;
    bits.push(write)?;
    push_number(bits, address, places)?;
    push_number(bits, payload, bus)?;
    push_number(bits, strobe, 4)
}
