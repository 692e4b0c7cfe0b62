//! Laws of what interrupt fields raise, as functions that do nothing: each one's contract is the law.

ghost use Rattle.raise_gates.specs.Raises.{GatesAreFew};

/// The interrupts of all registers take at most three gates for each bit of a field.
pub fn gates_are_few()
    ensures { GatesAreFew }
{}
