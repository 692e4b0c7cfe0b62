//! What no edge changes, as a function that does nothing: its contract is the law.

ghost use Rattle.reg_machine.specs.Starts.{ResetKeepsStart, EdgeKeepsStart};

/// A wire's entry is 0, a field that isn't once is never used up, and one that starts known is
/// known: after reset, and after each edge from a state of which that holds.
pub fn starts_stay()
    ensures reset { ResetKeepsStart }
    ensures edge { EdgeKeepsStart }
{}
