//! Maps of every kind of field: the machine as gates and the plain one at each state of each.

use crate::built::{machine_of, push_event, push_number};
use crate::plain::{
    high, input_bits, low, machine_at, numbers_at, plain_bits, push_state, state_bits,
};
use apb_rules::event::BusEvent;
use field_policies::map::RegMap;
use rdl_parse::parse_rdl;
use rdl_regmap::elaborate::elaborate_rdl;
use rdl_tree::fault::RdlFault;
use rdl_tree::scan::scan_rdl;
use reg_machine::machine::Machine;
use std::alloc::{AllocError, Global};
use std::test::Fail;
use std::vec::Vec;

fn elaborated(alloc: Global, text: &[u8]) -> Result<RegMap, RdlFault> {
    let tokens = scan_rdl(alloc, text)?;
    let file = parse_rdl(alloc, &tokens)?;
    elaborate_rdl(alloc, &file)
}

/// The events of an edge: none, reads and writes, of words and of an address that has none.
const EVENTS: [BusEvent; 12] = [
    BusEvent::Nothing,
    BusEvent::Read(0),
    BusEvent::Read(1),
    BusEvent::Read(2),
    BusEvent::Write {
        address: 0,
        payload: 0,
        strobe: 1,
    },
    BusEvent::Write {
        address: 0,
        payload: 5,
        strobe: 1,
    },
    BusEvent::Write {
        address: 0,
        payload: 10,
        strobe: 1,
    },
    BusEvent::Write {
        address: 0,
        payload: 255,
        strobe: 1,
    },
    BusEvent::Write {
        address: 0,
        payload: 255,
        strobe: 0,
    },
    BusEvent::Write {
        address: 1,
        payload: 3,
        strobe: 1,
    },
    BusEvent::Write {
        address: 1,
        payload: 252,
        strobe: 1,
    },
    BusEvent::Write {
        address: 3,
        payload: 255,
        strobe: 1,
    },
];

/// Descriptions of maps on a bus of 8 bits, one a line.
const MAPS: &[u8] = b"\
addrmap a { reg { regwidth=8; field { hw=r; swmod; swacc; } f[2]=1; } c; };\n\
addrmap a { reg { regwidth=8; field { hw=r; onwrite=woset; hwset; } f[2]=0; } c; };\n\
addrmap a { reg { regwidth=8; field { hw=r; onwrite=woclr; hwset; hwclr; precedence=hw; } f[2]=0; } c; };\n\
addrmap a { reg { regwidth=8; field { hw=r; onwrite=wot; onread=rclr; swmod; } f[2]=0; } c; };\n\
addrmap a { reg { regwidth=8; field { hw=r; onwrite=wzs; onread=rset; swacc; } f[3]=2; } c; };\n\
addrmap a { reg { regwidth=8; field { hw=rw; we; onwrite=wzc; } f[2]=0; } c; };\n\
addrmap a { reg { regwidth=8; field { hw=rw; wel; onwrite=wzt; } f[2]=3; } c; };\n\
addrmap a { reg { regwidth=8; field { hw=r; onwrite=wclr; } f[2]=3; field { hw=r; onwrite=wset; } g[2]=0; } c; };\n\
addrmap a { reg { regwidth=8; field { sw=rw1; hw=r; swmod; } f[2]=0; field { sw=w1; hw=r; } g[1]=0; } c; };\n\
addrmap a { reg { regwidth=8; field { sw=r; hw=w; anded; ored; xored; } f[3]; field { hw=r; } g[2]=0; } c; };\n\
addrmap a { reg { regwidth=8; field { hw=r; } f[2]=0; field { hw=w; we; } g[2]=0; g -> hwenable = f; } c; };\n\
addrmap a { reg { regwidth=8; field { hw=r; } f[2]=0; field { hw=w; we; } g[2]=0; g -> hwmask = f; } c; };\n\
addrmap a { reg { regwidth=8; field { hw=r; swwe; } f[2]=0; field { hw=r; swwel; } g[2]=1; } c; };\n\
addrmap a { reg { regwidth=8; field { hw=r; singlepulse; } f=0; field { hw=r; swmod; } g; } c; };\n\
addrmap a { reg { regwidth=8; field { hw=r; onwrite=woclr; hwset; swmod; } f[2]; } c; };\n\
addrmap a { reg { regwidth=8; field { counter; hw=r; overflow; } f[3]=0; } c; };\n\
addrmap a { reg { regwidth=8; field { counter; hw=r; overflow; underflow; incrvalue=3; decrvalue=2; incrsaturate; decrsaturate; } f[3]=0; } c; };\n\
addrmap a { reg { regwidth=8; field { intr; hw=w; } f[2]=0; field { hw=r; } g[2]=0; f -> enable = g; } c; };\n\
addrmap a { reg { regwidth=8; field { intr; hw=w; onwrite=woclr; stickybit; } f[2]=0; field { intr; hw=w; sticky; onread=rclr; } g[2]=0; } c; };\n\
addrmap a { reg { regwidth=8; field { hw=r; anded; ored; xored; } f[2]=0; field { hw=w; } g[2]=0; g -> we = f -> xored; } c; reg { regwidth=8; field { hw=r; swmod; swacc; } h[2]=0; } d; };\n\
addrmap a { reg { regwidth=8; field { hw=r; } f[2]=3; field { hw=w; } g[2]=0; g -> we = f -> anded; field { hw=r; } h[1]=0; h -> hwset = g -> ored; } c; };\n\
";

/// The bits of the inputs of a graph: those of a state, of an event and of the hardware inputs.
fn input_row(
    alloc: Global,
    map: &RegMap,
    machine: &Machine,
    event: BusEvent,
    hw: &[u32],
) -> Result<Vec<bool>, AllocError> {
    let mut bits = Vec::new(alloc);
    push_state(&mut bits, map, machine)?;
    push_event(&mut bits, event, 2, map.bus_width)?;
    for number in hw {
        push_number(&mut bits, *number, 32)?;
    }
    Ok(bits)
}

/// The first state, inputs and event at which the gates of a map differ from the plain machine; that of
/// a map of more than 15 bits, which is too large, is its bits.
fn difference(alloc: Global, map: &RegMap) -> Result<Option<(u32, u32, BusEvent)>, AllocError> {
    let gates = machine_of(alloc, map, 2)?;
    let stored = state_bits(map);
    let bits = stored.wrapping_add(input_bits(map));
    if bits > 15 {
        return Ok(Some((bits, 0, BusEvent::Nothing)));
    }
    for number in 0..1u32 << bits {
        let state = low(number, stored);
        let inputs = high(number, stored);
        let hw = numbers_at(alloc, map, inputs)?;
        for event in EVENTS {
            let mut machine = machine_at(alloc, map, state)?;
            let row = input_row(alloc, map, &machine, event, hw.as_slice())?;
            let found = gates.bits(alloc, row.as_slice())?;
            let plain = plain_bits(alloc, map, &mut machine, event, hw.as_slice())?;
            if found.as_slice() != plain.as_slice() {
                return Ok(Some((state, inputs, event)));
            }
        }
    }
    Ok(None)
}

#[test]
fn machines_as_gates_are_the_plain_ones(rt: HostRuntime) -> Result<(), Fail> {
    for (number, text) in MAPS.split(|byte| *byte == b'\n').enumerate() {
        if text.is_empty() {
            continue;
        }
        match elaborated(rt.alloc(), text) {
            Ok(map) => {
                let differs = difference(rt.alloc(), &map)?;
                assert_eq!(rt; differs, None, "map {number}");
            }
            Err(fault) => assert!(rt; false, "map {number}: {fault:?}"),
        }
    }
    Ok(())
}
