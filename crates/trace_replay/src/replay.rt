//! The joint run that a trace gives.

ghost use Rattle.std.specs.Prelude.{◌≡◌, ◌↔◌, ◌<◌, length, map, IfOk, IfSome, IsTrue, MatchOption};
ghost use Rattle.trace_replay.specs.Allowed.{IsAllowedAt};
ghost use Rattle.trace_replay.specs.LegalTrace.{HasSizes, IsAllowed, IsFirstForbidden, IsLegalTrace};
ghost use Rattle.trace_replay.specs.Trace.{HasAllInputs, edge_wires, lists_of, trace_difference};

use crate::block::Block;
use crate::input::INPUT_BITS;
use crate::joint::{Difference, JointState, first_difference, start};
use crate::trace::Trace;
use apb_rules::legal::is_legal;
use apb_rules::style::BusStyle;
use apb_rules::wires::BusWires;
use bit_base::bits::number_of_places;
use std::alloc::{AllocError, Global};
use std::vec::Vec;

/// A bus with neither PSTRB nor PPROT.
const PLAIN_STYLE: BusStyle = BusStyle {
    strobe: false,
    prot: false,
};

/// The wires of the bus at an edge with these bits.
fn edge_wires(bits: &[bool]) -> BusWires
    requires { length bits.now ≡ INPUT_BITS }
    ensures { result ≡ edge_wires bits.now }
{
    BusWires {
        select: bits[1],
        enable: bits[2],
        write: bits[3],
        address: number_of_places(&bits[4..6]) as u32,
        payload: number_of_places(&bits[6..14]) as u32,
        strobe: 1,
        prot: 0,
    }
}

/// Whether an edge with these bits may come in this state.
fn is_allowed(state: &JointState, bits: &[bool]) -> bool
    requires { length bits.now ≡ INPUT_BITS }
    ensures { IsTrue result ↔ IsAllowedAt state.now bits.now }
{
    if bits[0] == state.in_reset() {
        return false;
    }
    if state.in_reset() && bits[1] {
        return false;
    }
    is_legal(state.phase(), edge_wires(bits), 1, PLAIN_STYLE)
}

/// The first edge of a trace whose reset or bus wires are forbidden.
pub(crate) fn first_forbidden(
    alloc: Global,
    block: &Block,
    trace: &Trace,
) -> Result<Option<usize>, AllocError>
    requires { HasSizes trace.now.start.items (lists_of trace.now.edges.items) }
    ensures allowed { IfOk result (λ found. MatchOption found (IsAllowed block.now trace.now.start.items (lists_of trace.now.edges.items)) (λ edge. IsFirstForbidden block.now trace.now.start.items (lists_of trace.now.edges.items) edge)) }
    ensures inside { IfOk result (λ found. IfSome found (λ edge. edge < 64)) }
{
    let mut state = start(alloc, block, number_of_places(&trace.start) as u8)?;
    for (edge, bits) in trace.edges.iter().enumerate() {
        if !is_allowed(&state, bits) {
            return Ok(Some(edge));
        }
        state.step(block, edge_wires(bits));
    }
    Ok(None)
}

/// The wires of the bus at each edge of a trace.
fn trace_wires(alloc: Global, edges: &[Vec<bool>]) -> Result<Vec<BusWires>, AllocError>
    requires { HasAllInputs (lists_of edges.now) }
    ensures { IfOk result (λ wires. wires.items ≡ map edge_wires (lists_of edges.now)) }
{
    let mut wires = Vec::with_capacity(alloc, edges.len())?;
    for edge in edges {
        wires.push(edge_wires(edge))?;
    }
    Ok(wires)
}

/// The first edge of the joint run that a legal trace gives at which block and machine differ, and how.
#[tactic(auto, unfolding(crate::specs::Trace::trace_difference))]
pub fn replay(
    alloc: Global,
    block: &Block,
    trace: &Trace,
) -> Result<Option<(usize, Difference)>, AllocError>
    requires { IsLegalTrace block.now trace.now.start.items (lists_of trace.now.edges.items) }
    ensures first { IfOk result (λ found. found ≡ trace_difference block.now trace.now.start.items (lists_of trace.now.edges.items)) }
    ensures inside { IfOk result (λ found. IfSome found (λ first. first.0 < length trace.now.edges.items)) }
{
    let wires = trace_wires(alloc, &trace.edges)?;
    let register = number_of_places(&trace.start) as u8;
    let found = first_difference(alloc, block, register, &wires)?;
    Ok(found)
}
