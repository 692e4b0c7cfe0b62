//! Traces: what the block's register starts with, and its inputs at each edge.

ghost use Rattle.std.specs.Prelude.{◌≡◌, ◌≤◌, length, take, IfOk};
ghost use Rattle.std.specs.List.{All};
ghost use Rattle.trace_replay.specs.LegalTrace.{FitsPins, IsLegalTrace};
ghost use Rattle.trace_replay.specs.Trace.{edge_bits, edges_from, joint_edges, lists_of, HasAllInputs};
ghost use Rattle.trace_replay.specs.Joint.{start_of};
ghost use Rattle.bit_base.specs.Numbers.{low_bits};

use crate::block::Block;
use crate::input::JointInput;
use crate::joint::{JointState, start};
use crate::pins::Pins;
use apb_rules::wires::BusWires;
use bit_base::bits::{bits_of, number_of_places};
use std::alloc::{AllocError, Global};
use std::vec::Vec;

/// How many bits the register has, and how many edges a trace has at most.
pub const START_BITS: usize = 8;

pub const EDGE_LIMIT: usize = 64;

/// A trace: the bits of the register before the first edge, and for each edge those of the inputs, in
/// the order of the ports and each least first: the reset pin, PSEL, PENABLE and PWRITE, two bits of
/// PADDR, eight of PWDATA.
#[derive(Debug, Drop)]
pub struct Trace {
    pub start: Vec<bool>,
    pub edges: Vec<Vec<bool>>,
}

impl Trace {
    /// Keeps the first edges alone, so many.
    pub fn cut(&mut self, edges: usize)
        ensures start { self.new.start.items ≡ self.old.start.items }
        ensures edges { lists_of self.new.edges.items ≡ take edges (lists_of self.old.edges.items) }
    {
        self.edges.truncate(edges);
    }
}

/// The bits of the inputs at these pins.
fn edge_bits(alloc: Global, pins: Pins) -> Result<Vec<bool>, AllocError>
    ensures { IfOk result (λ bits. bits.items ≡ edge_bits pins) }
{
    let address = bits_of(alloc, u128::from(pins.bus.address), 2)?;
    let payload = bits_of(alloc, u128::from(pins.bus.payload), 8)?;
    let mut bits = Vec::new(alloc);
    bits.push(pins.reset_n)?;
    bits.push(pins.bus.select)?;
    bits.push(pins.bus.enable)?;
    bits.push(pins.bus.write)?;
    bits.extend_from_slice(address.as_slice())?;
    bits.extend_from_slice(payload.as_slice())?;
    Ok(bits)
}

/// The bits of the inputs at each edge of the run under these wires, from this state on.
fn edges_from(
    alloc: Global,
    block: &Block,
    start: JointState,
    run: &[BusWires],
) -> Result<Vec<Vec<bool>>, AllocError>
    ensures { IfOk result (λ edges. lists_of edges.items ≡ edges_from block.now start run.now) }
{
    let mut state = start;
    let mut edges = Vec::with_capacity(alloc, run.len())?;
    for wires in run {
        edges.push(edge_bits(alloc, state.pins(*wires))?)?;
        state.step(block, *wires);
    }
    Ok(edges)
}

/// The trace of the run under these wires, where the block's register starts with `register`.
pub fn trace_of_run(
    alloc: Global,
    block: &Block,
    register: u8,
    run: &[BusWires],
) -> Result<Trace, AllocError>
    ensures start { IfOk result (λ trace. trace.start.items ≡ low_bits 8 register) }
    ensures whole { IfOk result (λ trace. HasAllInputs (lists_of trace.edges.items)) }
    ensures edges { IfOk result (λ trace. lists_of trace.edges.items ≡ edges_from block.now (start_of block.now register) run.now) }
{
    let bits = bits_of(alloc, u128::from(register), 8)?;
    let start_bits = bits.as_slice().to_vec(alloc)?;
    let edges = edges_from(alloc, block, start(alloc, block, register)?, run)?;
    Ok(Trace {
        start: start_bits,
        edges,
    })
}

/// The trace of the joint run of these inputs, where the block's register starts with these bits.
#[tactic(auto, unfolding(crate::specs::Trace::joint_edges))]
pub fn trace_of(
    alloc: Global,
    block: &Block,
    start_bits: &[bool],
    inputs: &[JointInput],
) -> Result<Trace, AllocError>
    requires start { length start_bits.now ≡ START_BITS }
    requires few { length inputs.now ≤ EDGE_LIMIT }
    requires fit { All (λ input. FitsPins input.choice) inputs.now }
    ensures start { IfOk result (λ trace. trace.start.items ≡ start_bits.now) }
    ensures gives_run { IfOk result (λ trace. lists_of trace.edges.items ≡ joint_edges block.now start_bits.now inputs.now) }
    ensures legal { IfOk result (λ trace. IsLegalTrace block.now trace.start.items (lists_of trace.edges.items)) }
{
    let mut state = start(alloc, block, number_of_places(start_bits) as u8)?;
    let mut edges = Vec::with_capacity(alloc, inputs.len())?;
    for input in inputs {
        let wires = state.wires(input.choice);
        edges.push(edge_bits(alloc, state.pins(wires))?)?;
        state.step(block, wires);
    }
    Ok(Trace {
        start: Vec::from_slice(alloc, start_bits)?,
        edges,
    })
}
