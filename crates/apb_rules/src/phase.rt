//! The phase of the bus before an edge.

ghost use Rattle.std.specs.Prelude.{◌≡◌};
ghost use Rattle.apb_rules.specs.Phases.{phase_after};

use crate::wires::BusWires;

/// What the setup edge of an open transfer drove, held until the transfer ends.
#[derive(Clone, Copy, Debug, PartialEq, Eq, Drop)]
pub struct Held {
    pub write: bool,
    pub address: u32,
    pub payload: u32,
    pub strobe: u32,
    pub prot: u32,
}

/// The phase before an edge: no transfer is open, or one is and the edge belongs to its access
/// phase.
#[derive(Clone, Copy, Debug, PartialEq, Eq, Drop)]
pub enum Phase {
    Free,
    Access(Held),
}

/// The phase after an edge with these wires and this PREADY, for legal wires and others.
pub fn next_phase(phase: Phase, wires: BusWires, ready: bool) -> Phase
    ensures { result ≡ phase_after phase wires ready }
{
    match phase {
        Phase::Free if wires.select => Phase::Access(Held {
            write: wires.write,
            address: wires.address,
            payload: wires.payload,
            strobe: wires.strobe,
            prot: wires.prot,
        }),
        Phase::Access(held) if !ready => Phase::Access(held),
        _ => Phase::Free,
    }
}
