//! The laws of sources, as functions that do nothing: each one's contract is the law.

ghost use Rattle.flat_ties.specs.Sources.{HasOneSource};

/// A chain of plain port connections leads from a net to one top input at most.
pub fn sources_are_single()
    ensures { HasOneSource }
{}
