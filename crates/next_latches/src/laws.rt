//! Laws of the latches after an edge, as functions that do nothing: each one's contract is the law.

ghost use Rattle.next_latches.specs.Next.{NextAreMachines};

/// The latches after the edge are the bits of the register machine's next state.
pub fn next_are_machines()
    ensures { NextAreMachines }
{}
