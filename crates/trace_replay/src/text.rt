//! The text of a trace.

ghost use Rattle.std.specs.Prelude.{◌≡◌, ◌++◌, ◌∷◌, [], length, IfOk, OnOk};
ghost use Rattle.trace_replay.specs.TraceText.{digits, field_text, edge_line, trace_text};
ghost use Rattle.trace_replay.specs.Trace.{HasAllInputs, lists_of};
ghost use Rattle.trace_replay.specs.LegalTrace.{IsLegalTrace};

use crate::block::Block;
use crate::input::{INPUT_BITS, INPUTS};
use crate::trace::Trace;
use std::alloc::{AllocError, Global};
use std::vec::Vec;

/// The digits of these bits, the highest first.
fn digits(alloc: Global, bits: &[bool]) -> Result<Vec<u8>, AllocError>
    ensures { IfOk result (λ text. text.items ≡ digits bits.now) }
{
    bits.iter()
        .rev()
        .map(|bit| if *bit { b'1' } else { b'0' })
        .collect(alloc)
}

/// Appends a name and the digits of its bits.
fn push_field(
    alloc: Global,
    text: &mut Vec<u8>,
    name: &[u8],
    bits: &[bool],
) -> Result<(), AllocError>
    ensures { OnOk result (text.new.items ≡ text.old.items ++ field_text name.now bits.now) }
{
    let digits = digits(alloc, bits)?;
    text.extend_from_slice(name)?;
    text.extend_from_slice(&digits)?;
    Ok(())
}

/// Appends a line and its line feed.
fn push_line(text: &mut Vec<u8>, line: &[u8]) -> Result<(), AllocError>
    ensures { OnOk result (text.new.items ≡ text.old.items ++ (line.now ++ (10 ∷ []))) }
{
    text.extend_from_slice(line)?;
    text.push(b'\n')?;
    Ok(())
}

/// The line of an edge, without its line feed.
fn edge_line(alloc: Global, bits: &[bool]) -> Result<Vec<u8>, AllocError>
    requires { length bits.now ≡ INPUT_BITS }
    ensures { IfOk result (λ line. line.items ≡ edge_line bits.now) }
{
    let mut line = Vec::new(alloc);
    line.extend_from_slice(b"edge".as_slice())?;
    let mut rest = bits;
    for input in INPUTS {
        let (front, back) = rest.split_at(input.width());
        push_field(alloc, &mut line, input.label(), front)?;
        rest = back;
    }
    Ok(line)
}

/// The text of this trace, whose edges have the bits of all inputs.
#[tactic(auto, unfolding(crate::specs::TraceText::trace_text))]
fn trace_text(alloc: Global, trace: &Trace) -> Result<Vec<u8>, AllocError>
    requires { HasAllInputs (lists_of trace.now.edges.items) }
    ensures { IfOk result (λ text. text.items ≡ trace_text trace.now.start.items (lists_of trace.now.edges.items)) }
{
    let mut text = b"rdltrace 1\n".as_slice().to_vec(alloc)?;
    push_field(alloc, &mut text, b"start v ".as_slice(), &trace.start)?;
    text.push(b'\n')?;
    for edge in &trace.edges {
        let line = edge_line(alloc, edge)?;
        push_line(&mut text, &line)?;
    }
    push_line(&mut text, b"end".as_slice())?;
    Ok(text)
}

/// The text of a trace that is legal for the block.
pub fn write_trace(alloc: Global, block: &Block, trace: &Trace) -> Result<Vec<u8>, AllocError>
    requires { IsLegalTrace block.now trace.now.start.items (lists_of trace.now.edges.items) }
    ensures { IfOk result (λ text. text.items ≡ trace_text trace.now.start.items (lists_of trace.now.edges.items)) }
{
    trace_text(alloc, trace)
}
