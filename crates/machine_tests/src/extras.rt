use field_extras::counter::{Counted, count_next};
use field_extras::interrupt::{intr_bits, intr_next};
use field_policies::extra::{Counter, Intr};
use field_policies::signal::{Gate, HwExpr};
use std::rt::HostRuntime;
use std::vec::Vec;

// A counter of four bits that counts up by 3 and down by 2, and goes round or stops.
#[test]
fn counters_go_round_or_stop(rt: HostRuntime) {
    for (stops, value, incr, decr, next, over, under) in [
        (false, 14, true, false, 1, true, false),
        (true, 14, true, false, 15, true, false),
        (false, 1, false, true, 15, false, true),
        (true, 1, false, true, 0, false, true),
        (false, 15, true, true, 0, true, false),
        (false, 12, true, false, 15, false, false),
        (false, 2, false, true, 0, false, false),
        (true, 9, true, true, 10, false, false),
        (true, 9, false, false, 9, false, false),
    ] {
        let counter = Counter {
            incr: None,
            decr: None,
            up: 3,
            down: 2,
            up_stops: stops,
            down_stops: stops,
        };
        let got = count_next(&counter, 4, if value < 16 { value } else { 0 }, incr, decr);
        assert_eq!(rt;
            got,
            Counted {
                value: next,
                over,
                under
            }
        );
    }
    let counter = Counter {
        incr: None,
        decr: None,
        up: 1,
        down: 1,
        up_stops: false,
        down_stops: false,
    };
    let got = count_next(&counter, 32, 4294967295, true, false);
    assert_eq!(rt;
        got,
        Counted {
            value: 0,
            over: true,
            under: false
        }
    );
}

#[test]
fn interrupts_hold_events(rt: HostRuntime) {
    let plain = Intr {
        sticky: false,
        filter: None,
        members: Vec::new(rt.alloc()),
    };
    let mask = Gate {
        expr: HwExpr::Value(0),
        high: false,
    };
    let sticky = Intr {
        sticky: true,
        filter: Some(mask),
        members: Vec::new(rt.alloc()),
    };
    let enable = Gate {
        expr: HwExpr::Value(0),
        high: true,
    };
    let enabled = Intr {
        sticky: false,
        filter: Some(enable),
        members: Vec::new(rt.alloc()),
    };
    for (value, payload, want, held) in [
        (2, 1, Some(3), None),
        (2, 0, None, None),
        (0, 2, Some(2), Some(2)),
        (3, 1, Some(3), None),
    ] {
        assert_eq!(rt; intr_next(&plain, value, payload), want);
        assert_eq!(rt; intr_next(&sticky, value, payload), held);
    }
    assert_eq!(rt; intr_bits(&plain, 2, 3, 1), 3);
    assert_eq!(rt; intr_bits(&sticky, 2, 3, 1), 2);
    assert_eq!(rt; intr_bits(&enabled, 2, 3, 1), 1);
}
