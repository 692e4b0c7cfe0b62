//! The policies by the tables of IEEE 1800.2, and worked values.

use bit_base::text::text_of;
use field_policies::extra::Extra;
use field_policies::field::Field;
use field_policies::policy::{Policy, ReadEffect, WriteEffect};
use field_policies::signal::{OutSignal, Shown};
use field_policies::table::{POLICIES, after_read, names_differ, policy_of, policy_table, written};
use std::alloc::{AllocError, Global};
use std::test::Fail;

// For each policy what a bit of value 0 and 1 becomes: by a write of 0 and of 1, and by a read.
const BITS: [(Policy, [u32; 4], [u32; 2]); 25] = [
    (Policy::RO, [0, 0, 1, 1], [0, 1]),
    (Policy::RC, [0, 0, 1, 1], [0, 0]),
    (Policy::RS, [0, 0, 1, 1], [1, 1]),
    (Policy::RW, [0, 1, 0, 1], [0, 1]),
    (Policy::WRC, [0, 1, 0, 1], [0, 0]),
    (Policy::WRS, [0, 1, 0, 1], [1, 1]),
    (Policy::WC, [0, 0, 0, 0], [0, 1]),
    (Policy::WCRS, [0, 0, 0, 0], [1, 1]),
    (Policy::WS, [1, 1, 1, 1], [0, 1]),
    (Policy::WSRC, [1, 1, 1, 1], [0, 0]),
    (Policy::W1C, [0, 0, 1, 0], [0, 1]),
    (Policy::W1CRS, [0, 0, 1, 0], [1, 1]),
    (Policy::W1S, [0, 1, 1, 1], [0, 1]),
    (Policy::W1SRC, [0, 1, 1, 1], [0, 0]),
    (Policy::W1T, [0, 1, 1, 0], [0, 1]),
    (Policy::W0C, [0, 0, 0, 1], [0, 1]),
    (Policy::W0CRS, [0, 0, 0, 1], [1, 1]),
    (Policy::W0S, [1, 0, 1, 1], [0, 1]),
    (Policy::W0SRC, [1, 0, 1, 1], [0, 0]),
    (Policy::W0T, [1, 0, 0, 1], [0, 1]),
    (Policy::W1, [0, 1, 0, 1], [0, 1]),
    (Policy::WO, [0, 1, 0, 1], [0, 1]),
    (Policy::WOC, [0, 0, 0, 0], [0, 1]),
    (Policy::WOS, [1, 1, 1, 1], [0, 1]),
    (Policy::WO1, [0, 1, 0, 1], [0, 1]),
];

#[test]
fn a_bit_becomes_what_the_policy_says(rt: HostRuntime) {
    let table = policy_table();
    for i in 0..POLICIES {
        let (policy, writes, reads) = BITS[i];
        let bits = [
            written(policy, 1, 0, 0),
            written(policy, 1, 0, 1),
            written(policy, 1, 1, 0),
            written(policy, 1, 1, 1),
        ];
        assert_eq!(rt; bits, writes, "{policy:?} written");
        assert_eq!(rt;
            [after_read(policy, 1, 0), after_read(policy, 1, 1)],
            reads,
            "{policy:?} read"
        );
        assert_eq!(rt; table.row(i).policy, policy);
    }
    names_differ();
}

#[test]
fn wide_fields_change_bit_by_bit(rt: HostRuntime) {
    assert_eq!(rt; written(Policy::W1C, 8, 0xF0, 0x30), 0xC0);
    assert_eq!(rt; written(Policy::W0S, 8, 0xF0, 0x3F), 0xF0);
    assert_eq!(rt; written(Policy::W0T, 8, 0xF0, 0x3F), 0x30);
    assert_eq!(rt; written(Policy::WSRC, 8, 0xF0, 0), 0xFF);
    assert_eq!(rt; written(Policy::RO, 8, 0xF0, 0x55), 0xF0);
    assert_eq!(rt; written(Policy::WS, 32, 0, 0), 0xFFFF_FFFF);
    assert_eq!(rt; after_read(Policy::W1CRS, 8, 0xF0), 0xFF);
}

fn plain_field(alloc: Global, read: ReadEffect, write: WriteEffect) -> Result<Field, AllocError> {
    Ok(Field {
        path: text_of(alloc, b"c.v")?,
        word: 0,
        lsb: 0,
        width: 8,
        wire: false,
        reset: 0,
        starts_known: true,
        readable: true,
        writable: true,
        once: false,
        read,
        write,
        sw_gate: None,
        data_in: None,
        data_gate: None,
        set: None,
        clear: None,
        bit_gate: None,
        hw_first: false,
        pulse: false,
        extra: Extra::Plain,
        shown: Shown {
            value: true,
            swmod: false,
            swacc: false,
            anded: false,
            ored: false,
            xored: false,
            overflow: false,
            underflow: false,
            intr: false,
        },
    })
}

#[test]
fn a_field_has_at_most_one_name(rt: HostRuntime) -> Result<(), Fail> {
    let alloc = rt.alloc();
    let mut field = plain_field(alloc, ReadEffect::Keep, WriteEffect::AsIs)?;
    assert_eq!(rt; policy_of(&field), Some(Policy::RW));
    assert!(rt; field.shown.has(OutSignal::Value) && !field.shown.has(OutSignal::SwMod));
    field.once = true;
    assert_eq!(rt; policy_of(&field), Some(Policy::W1));
    // a field that software can't write is no once field, whatever it would do with a write
    field.writable = false;
    field.write = WriteEffect::Clear;
    assert_eq!(rt; policy_of(&field), Some(Policy::RO));
    let unnamed = plain_field(alloc, ReadEffect::Clear, WriteEffect::Clear)?;
    assert_eq!(rt; policy_of(&unnamed), None);
    field.readable = false;
    assert_eq!(rt; policy_of(&field), None);
    Ok(())
}
