//! Worked edges of a field alone in a 32-bit word at address 0.

use crate::bench::Bench;
use crate::edges::{Hardware, QUIET};
use crate::maps::{Shape, plain_field};
use apb_rules::event::BusEvent;
use field_policies::policy::{ReadEffect, WriteEffect};
use field_policies::signal::OutSignal;
use std::test::Fail;

fn write(payload: u32, strobe: u32) -> BusEvent {
    BusEvent::Write {
        address: 0,
        payload,
        strobe,
    }
}

const READ: BusEvent = BusEvent::Read(0);

// `hwset` and a write of 1 under `woclr` at one edge: the side that `precedence` names wins.
#[test]
fn precedence_names_the_side_that_gives_the_field(rt: HostRuntime) -> Result<(), Fail> {
    let set = Hardware {
        data: 1,
        set: true,
        incr: false,
        decr: false,
    };
    for (hw_first, after) in [(false, 0), (true, 1)] {
        let shape = Shape {
            width: 1,
            reset: 1,
            known: true,
            readable: true,
            once: false,
            read: ReadEffect::Keep,
            write: WriteEffect::OneClear,
            hw_first,
            pulse: false,
        };
        let mut bench = Bench::new(rt.alloc(), plain_field(rt.alloc(), shape, true)?)?;
        bench.step(write(1, 1), set);
        assert_eq!(rt; bench.value(), after);
    }
    Ok(())
}

// Hardware is active though `hwenable` shuts every bit, so with `precedence = hw` the write is lost;
// software is still told that it was at the field.
#[test]
fn shut_hardware_still_takes_precedence(rt: HostRuntime) -> Result<(), Fail> {
    let shut = Hardware {
        data: 0,
        set: false,
        incr: false,
        decr: false,
    };
    let half = Hardware {
        data: 1,
        set: false,
        incr: false,
        decr: false,
    };
    let shape = Shape {
        width: 8,
        reset: 4,
        known: true,
        readable: true,
        once: false,
        read: ReadEffect::Keep,
        write: WriteEffect::AsIs,
        hw_first: true,
        pulse: false,
    };
    let mut bench = Bench::new(rt.alloc(), plain_field(rt.alloc(), shape, true)?)?;
    assert_eq!(rt; bench.output(write(9, 1), shut, OutSignal::SwMod), Some(1));
    assert_eq!(rt;
        bench.output(BusEvent::Nothing, shut, OutSignal::SwMod),
        Some(0)
    );
    bench.step(write(9, 1), shut);
    assert_eq!(rt; bench.value(), 4);
    bench.step(write(9, 1), half);
    assert_eq!(rt; bench.value(), 5);
    Ok(())
}

#[test]
fn a_pulse_lasts_one_edge_and_a_once_field_takes_one_write(rt: HostRuntime) -> Result<(), Fail> {
    let pulse = Shape {
        width: 1,
        reset: 0,
        known: true,
        readable: true,
        once: false,
        read: ReadEffect::Keep,
        write: WriteEffect::AsIs,
        hw_first: false,
        pulse: true,
    };
    let mut bench = Bench::new(rt.alloc(), plain_field(rt.alloc(), pulse, false)?)?;
    for (event, after) in [
        (write(1, 1), 1),
        (BusEvent::Nothing, 0),
        (write(1, 1), 1),
        (BusEvent::Nothing, 0),
    ] {
        bench.step(event, QUIET);
        assert_eq!(rt; bench.value(), after);
    }
    let once = Shape {
        width: 8,
        reset: 0,
        known: true,
        readable: true,
        once: true,
        read: ReadEffect::Keep,
        write: WriteEffect::AsIs,
        hw_first: false,
        pulse: false,
    };
    let mut bench = Bench::new(rt.alloc(), plain_field(rt.alloc(), once, false)?)?;
    for (payload, active) in [(5, 1), (9, 0)] {
        assert_eq!(rt;
            bench.output(write(payload, 1), QUIET, OutSignal::SwMod),
            Some(active)
        );
        bench.step(write(payload, 1), QUIET);
        assert_eq!(rt; bench.value(), 5);
    }
    Ok(())
}

// Of 16 bits at bit 0, only those are written whose byte has its strobe bit.
#[test]
fn strobes_write_bytes(rt: HostRuntime) -> Result<(), Fail> {
    for (effect, before, payload, strobe, after, accessed) in [
        (WriteEffect::AsIs, 0x1234, 0xABCD, 1, 0x12CD, 1),
        (WriteEffect::AsIs, 0x1234, 0xABCD, 0, 0x1234, 0),
        (WriteEffect::OneClear, 0xF0F0, 0xFFFF, 2, 0x00F0, 1),
    ] {
        let shape = Shape {
            width: 16,
            reset: before,
            known: true,
            readable: true,
            once: false,
            read: ReadEffect::Keep,
            write: effect,
            hw_first: false,
            pulse: false,
        };
        let mut bench = Bench::new(rt.alloc(), plain_field(rt.alloc(), shape, false)?)?;
        assert_eq!(rt;
            bench.output(write(payload, strobe), QUIET, OutSignal::SwAcc),
            Some(accessed)
        );
        bench.step(write(payload, strobe), QUIET);
        assert_eq!(rt; bench.value(), after);
    }
    Ok(())
}

#[test]
fn a_field_without_reset_counts_once_it_is_known(rt: HostRuntime) -> Result<(), Fail> {
    let shape = Shape {
        width: 8,
        reset: 0,
        known: false,
        readable: true,
        once: false,
        read: ReadEffect::Clear,
        write: WriteEffect::OneClear,
        hw_first: false,
        pulse: false,
    };
    let mut bench = Bench::new(rt.alloc(), plain_field(rt.alloc(), shape, false)?)?;
    bench.step(write(0xFF, 1), QUIET);
    assert_eq!(rt; bench.counts(OutSignal::Value), Some(false));
    assert_eq!(rt; bench.counts(OutSignal::SwMod), Some(true));
    assert_eq!(rt; bench.answer(true, READ).counts, 0xFFFF_FF00);
    bench.step(READ, QUIET);
    assert_eq!(rt; bench.counts(OutSignal::Value), Some(true));
    assert_eq!(rt;
        (bench.value(), bench.answer(true, READ).counts),
        (0, 0xFFFF_FFFF)
    );
    Ok(())
}

#[test]
fn a_read_shows_the_field_and_an_absent_word_is_an_error(rt: HostRuntime) -> Result<(), Fail> {
    let shape = Shape {
        width: 8,
        reset: 0xA5,
        known: true,
        readable: true,
        once: false,
        read: ReadEffect::Keep,
        write: WriteEffect::AsIs,
        hw_first: false,
        pulse: false,
    };
    let bench = Bench::new(rt.alloc(), plain_field(rt.alloc(), shape, false)?)?;
    for (unmapped_error, event, payload, error) in [
        (true, READ, 0xA5, false),
        (true, BusEvent::Read(4), 0, true),
        (false, BusEvent::Read(4), 0, false),
        (true, write(1, 1), 0, false),
        (true, BusEvent::Nothing, 0, false),
    ] {
        let answer = bench.answer(unmapped_error, event);
        assert_eq!(rt; (answer.payload, answer.error), (payload, error));
    }
    for (signal, value) in [
        (OutSignal::Value, 0xA5),
        (OutSignal::Anded, 0),
        (OutSignal::Ored, 1),
        (OutSignal::Xored, 0),
    ] {
        assert_eq!(rt; bench.output(BusEvent::Nothing, QUIET, signal), Some(value));
    }
    Ok(())
}
