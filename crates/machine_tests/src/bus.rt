ghost use Rattle.std.specs.Prelude.{◌≡◌};

use apb_rules::drive::drive;
use apb_rules::event::{BusEvent, event_of};
use apb_rules::legal::{is_legal, master_by_choices, master_edge_by_edge, transfers_asked_once};
use apb_rules::phase::{Phase, next_phase};
use apb_rules::style::BusStyle;
use apb_rules::wires::{BusWires, Choice};
use std::rt::HostRuntime;

const ALL_LINES: BusStyle = BusStyle {
    strobe: true,
    prot: true,
};

const NO_LINES: BusStyle = BusStyle {
    strobe: false,
    prot: false,
};

fn choice(start: bool, write: bool, address: u32, payload: u32) -> Choice
    ensures strobe { result.strobe ≡ 3 }
    ensures prot { result.prot ≡ 2 }
{
    Choice {
        start,
        enable: true,
        write,
        address,
        payload,
        strobe: 3,
        prot: 2,
    }
}

fn wires(
    select: bool,
    enable: bool,
    write: bool,
    address: u32,
    payload: u32,
    strobe: u32,
) -> BusWires {
    BusWires {
        select,
        enable,
        write,
        address,
        payload,
        strobe,
        prot: 2,
    }
}

// A write with one wait state, and a read without one right after it.
#[test]
fn transfers_follow_one_another(rt: HostRuntime) {
    let write = BusEvent::Write {
        address: 4,
        payload: 17,
        strobe: 3,
    };
    let mut phase = Phase::Free;
    for ((start, is_write, address, payload), ready, driven, event) in [
        (
            (false, true, 3, 5),
            true,
            wires(false, true, true, 3, 5, 3),
            BusEvent::Nothing,
        ),
        (
            (true, true, 7, 17),
            true,
            wires(true, false, true, 4, 17, 3),
            BusEvent::Nothing,
        ),
        (
            (true, false, 0, 34),
            false,
            wires(true, true, true, 4, 17, 3),
            BusEvent::Nothing,
        ),
        (
            (false, false, 9, 51),
            true,
            wires(true, true, true, 4, 17, 3),
            write,
        ),
        (
            (true, false, 9, 0),
            true,
            wires(true, false, false, 8, 0, 0),
            BusEvent::Nothing,
        ),
        (
            (false, true, 0, 68),
            true,
            wires(true, true, false, 8, 68, 0),
            BusEvent::Read(8),
        ),
        (
            (false, false, 1, 0),
            false,
            wires(false, true, false, 1, 0, 3),
            BusEvent::Nothing,
        ),
    ] {
        let got = drive(
            phase,
            choice(start, is_write, address, payload),
            4,
            ALL_LINES,
        );
        assert_eq!(rt; got, driven);
        assert!(rt; is_legal(phase, got, 4, ALL_LINES));
        assert_eq!(rt; event_of(got, ready), event);
        phase = next_phase(phase, got, ready);
    }
    assert_eq!(rt; phase, Phase::Free);
}

// Without the lines each byte is written and the protection is 0; an address is cut to the word,
// and no other wires are legal.
#[test]
fn lines_that_are_not_there(rt: HostRuntime) {
    let got = drive(Phase::Free, choice(true, false, 7, 0), 4, NO_LINES);
    let want = BusWires {
        select: true,
        enable: false,
        write: false,
        address: 4,
        payload: 0,
        strobe: 15,
        prot: 0,
    };
    assert_eq!(rt; got, want);
    for (wires, legal) in [
        (want, true),
        (BusWires { address: 7, ..want }, false),
        (
            BusWires {
                enable: true,
                ..want
            },
            false,
        ),
        (BusWires { strobe: 0, ..want }, false),
        (BusWires { prot: 1, ..want }, false),
        (
            BusWires {
                select: false,
                address: 7,
                ..want
            },
            true,
        ),
    ] {
        assert_eq!(rt; is_legal(Phase::Free, wires, 4, NO_LINES), legal);
    }
    master_edge_by_edge(4, NO_LINES, 1);
    master_by_choices(4, NO_LINES, 1);
    transfers_asked_once(4, NO_LINES);
}
