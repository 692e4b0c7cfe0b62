//! Reading a trace text.

ghost use Rattle.std.specs.Prelude.{◌≡◌, ◌↔◌, ◌<◌, ◌≤◌, ◌+◌, ℕ, Bool, List, length, IfOk};
ghost use Rattle.trace_replay.specs.Trace.{lists_of};
ghost use Rattle.trace_replay.specs.Lines.{lines_of};
ghost use Rattle.trace_replay.specs.LegalTrace.{IsLegalTrace};
ghost use Rattle.trace_replay.specs.Reading.{GivesTrace, IsIllegal, IsWrongLine, IsWrongName, Refuses, UnlessWanting};
ghost use Rattle.trace_replay.specs.Steps.{EdgeStep, HeaderStep, ReadsLines, StartStep};
ghost use Rattle.trace_replay.specs.TraceText.{trace_text};

use crate::block::Block;
use crate::fault::{TraceCode, TraceFault};
use crate::fields::{edge_of_line, start_of_line};
use crate::form::{has_edge_form, has_start_form};
use crate::lines::Lines;
use crate::replay::first_forbidden;
use crate::trace::{EDGE_LIMIT, Trace};
use std::alloc::Global;
use std::vec::Vec;

/// How many bytes a trace text may have.
pub const TRACE_LIMIT: usize = 16_777_216;

/// The refusal of a line that isn't of the form, at this place, counted from 0.
fn wrong_line(place: usize) -> TraceFault
    requires { place < 1000 }
    ensures { result ≡ TraceFault.At TraceCode.TraceLine (place + 1) }
{
    TraceFault::At {
        code: TraceCode::TraceLine,
        line: place as u32 + 1,
    }
}

/// The refusal of a line of the form that has another name or number of digits.
fn wrong_name(place: usize) -> TraceFault
    requires { place < 1000 }
    ensures { result ≡ TraceFault.At TraceCode.TraceName (place + 1) }
{
    TraceFault::At {
        code: TraceCode::TraceName,
        line: place as u32 + 1,
    }
}

/// Reads the first line.
#[tactic(auto, unfolding(crate::specs::Lines::has_form))]
fn read_header(lines: &mut Lines<'_>) -> Result<(), TraceFault>
    ensures { HeaderStep lines.old result lines.new }
{
    match lines.next_line() {
        Some(line) if line == b"rdltrace 1".as_slice() => Ok(()),
        _ => Err(wrong_line(0)),
    }
}

/// Reads the line of the register's start.
#[tactic(auto, unfolding(crate::specs::Lines::has_form))]
fn read_start(alloc: Global, lines: &mut Lines<'_>) -> Result<Vec<bool>, TraceFault>
    ensures { StartStep lines.old result lines.new }
{
    let Some(line) = lines.next_line() else {
        return Err(wrong_line(1));
    };
    if let Some(bits) = start_of_line(alloc, line)? {
        return Ok(bits);
    }
    if has_start_form(alloc, line)? {
        Err(wrong_name(1))
    } else {
        Err(wrong_line(1))
    }
}

/// Reads the line of an edge, of which there were `edges`, or the last line, after which nothing may
/// follow.
#[tactic(auto, unfolding(crate::specs::Lines::has_form))]
fn read_edge(
    alloc: Global,
    lines: &mut Lines<'_>,
    edges: usize,
) -> Result<Option<Vec<bool>>, TraceFault>
    requires { edges ≤ EDGE_LIMIT }
    ensures { EdgeStep edges lines.old result lines.new }
{
    let place = edges + 2;
    let Some(line) = lines.next_line() else {
        return Err(wrong_line(place));
    };
    if line == b"end".as_slice() {
        return if lines.is_at_end() {
            Ok(None)
        } else {
            Err(wrong_line(place + 1))
        };
    }
    if edges == EDGE_LIMIT {
        return Err(wrong_line(place));
    }
    if let Some(bits) = edge_of_line(alloc, line)? {
        return Ok(Some(bits));
    }
    if has_edge_form(alloc, line)? {
        Err(wrong_name(place))
    } else {
        Err(wrong_line(place))
    }
}

/// Reads all lines.
fn read_lines(alloc: Global, bytes: &[u8]) -> Result<Trace, TraceFault>
    ensures { ReadsLines (lines_of bytes.now) result }
{
    let mut lines = Lines::new(bytes);
    read_header(&mut lines)?;
    let start = read_start(alloc, &mut lines)?;
    let mut edges = Vec::new(alloc);
    while let Some(bits) = read_edge(alloc, &mut lines, edges.len())? {
        edges.push(bits)?;
    }
    Ok(Trace { start, edges })
}

/// Reads the text of a legal trace of the block.
pub fn read_trace(alloc: Global, bytes: &[u8], block: &Block) -> Result<Trace, TraceFault>
    // The answer is a trace exactly where the bytes are its text, it is legal and they aren't too many.
    ensures accepts { UnlessWanting result ((start : List Bool) (edges : List (List Bool)) → GivesTrace result start edges ↔ ((length bytes.now ≤ TRACE_LIMIT) × IsLegalTrace block.now start edges × (bytes.now ≡ trace_text start edges))) }
    ensures legal { IfOk result (λ trace. IsLegalTrace block.now trace.start.items (lists_of trace.edges.items)) }
    // When each refusal comes, and at which line: the size first, then the lines in their order, then the wires.
    ensures trace_size { UnlessWanting result ((line : ℕ) → Refuses result TraceCode.TraceSize line ↔ ((TRACE_LIMIT < length bytes.now) × (line ≡ 0))) }
    ensures trace_line { UnlessWanting result ((line : ℕ) → Refuses result TraceCode.TraceLine line ↔ ((length bytes.now ≤ TRACE_LIMIT) × IsWrongLine (lines_of bytes.now) line)) }
    ensures trace_name { UnlessWanting result ((line : ℕ) → Refuses result TraceCode.TraceName line ↔ ((length bytes.now ≤ TRACE_LIMIT) × IsWrongName (lines_of bytes.now) line)) }
    ensures trace_illegal { UnlessWanting result ((line : ℕ) → Refuses result TraceCode.TraceIllegal line ↔ ((length bytes.now ≤ TRACE_LIMIT) × IsIllegal block.now bytes.now line)) }
    // What `write_trace` writes is read back.
    ensures reads_back { (start : List Bool) (edges : List (List Bool)) → IsLegalTrace block.now start edges → bytes.now ≡ trace_text start edges → length bytes.now ≤ TRACE_LIMIT → UnlessWanting result (GivesTrace result start edges) }
{
    if bytes.len() > TRACE_LIMIT {
        return Err(TraceFault::At {
            code: TraceCode::TraceSize,
            line: 0,
        });
    }
    let trace = read_lines(alloc, bytes)?;
    let forbidden = first_forbidden(alloc, block, &trace)?;
    match forbidden {
        Some(edge) => Err(TraceFault::At {
            code: TraceCode::TraceIllegal,
            line: edge as u32 + 3,
        }),
        None => Ok(trace),
    }
}
