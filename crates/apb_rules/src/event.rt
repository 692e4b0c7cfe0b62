//! The event that an edge carries.

ghost use Rattle.std.specs.Prelude.{◌≡◌};
ghost use Rattle.apb_rules.specs.Events.{bus_event};

use crate::wires::BusWires;

/// What the block is asked at an edge: nothing, to give the word at an address, or to take a
/// payload into the word at an address, at the bytes whose strobe bit is 1.
#[derive(Clone, Copy, Debug, PartialEq, Eq, Drop)]
pub enum BusEvent {
    Nothing,
    Read(u32),
    Write {
        address: u32,
        payload: u32,
        strobe: u32,
    },
}

/// The event of an edge with these wires and this PREADY, for legal wires and others.
pub fn event_of(wires: BusWires, ready: bool) -> BusEvent
    ensures { result ≡ bus_event wires ready }
{
    if !(wires.select && wires.enable && ready) {
        return BusEvent::Nothing;
    }
    if wires.write {
        BusEvent::Write {
            address: wires.address,
            payload: wires.payload,
            strobe: wires.strobe,
        }
    } else {
        BusEvent::Read(wires.address)
    }
}
