//! Laws of traces, as functions that do nothing: each one's contract is the law.

ghost use Rattle.trace_replay.specs.Laws.{CutAtFirst, OneReading, RunEndsThere};

/// A legal trace that is cut after the edge of its first difference has that difference at its last
/// edge.
pub fn cut_at_first()
    ensures { CutAtFirst }
{}

/// The trace of a joint run under choices, cut after the edge of its first difference, is legal and
/// has that difference at its last edge.
pub fn run_ends_there()
    ensures { RunEndsThere }
{}

/// A text has at most one reading as a trace of a block, be it a legal trace or a refusal.
pub fn one_reading()
    ensures { OneReading }
{}
