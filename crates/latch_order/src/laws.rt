//! Laws of latches in order, as functions that do nothing: each one's contract is the law.

ghost use Rattle.latch_order.specs.Laws.{StoredWiresAreBits, LatchWiresAreBits};

/// What fields store by wires has the values of what they store by the values of the wires.
pub fn stored_wires_are_bits()
    ensures { StoredWiresAreBits }
{}

/// The wires of what fields store have the values of the latches of what they store.
pub fn latch_wires_are_bits()
    ensures { LatchWiresAreBits }
{}
