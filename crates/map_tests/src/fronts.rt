//! Descriptions cut short.

use crate::mapped::mapped;
use std::alloc::{AllocError, Global};
use std::string::String;
use std::test::Fail;

/// The description of one field.
const ONE: &[u8] = b"addrmap a { reg { regwidth=8; field { sw=rw; hw=r; } v[8]=0; } c; };";

/// A type in the first line, of 46 bytes, and the map that uses it in the second.
const TWO: &[u8] = b"regfile t { reg { field {} lo[16] = 0; } t; };\n\
addrmap a { t ch[4] @ 64; ch[1].t.lo -> sw = r; };";

/// Where the mark `->` begins in `TWO`.
const ARROW: usize = 84;

/// The refusal at the place behind these bytes.
fn refused(alloc: Global, code: &str, name: &str, before: &[u8]) -> Result<String, AllocError> {
    let (mut line, mut column) = (1_usize, 1_usize);
    for byte in before {
        if *byte == b'\n' {
            line = line.saturating_add(1);
            column = 1;
        } else {
            column = column.saturating_add(1);
        }
    }
    format!(in alloc; "refused {code} a.rdl:{line}:{column} {name}\n")
}

/// What is due for the first bytes of `TWO`: without an item or with the type alone there is no map; half an
/// arrow is no mark; all other fronts end within an item.
fn due(alloc: Global, front: &[u8]) -> Result<String, AllocError> {
    match front.len() {
        0 | 46 | 47 => refused(alloc, "104", "RdlName", front),
        85 => refused(alloc, "101", "RdlByte", &TWO[..ARROW]),
        _ => refused(alloc, "102", "RdlSyntax", front),
    }
}

#[test]
fn a_front_of_one_field_is_refused_at_its_end(rt: HostRuntime) -> Result<(), Fail> {
    let alloc = rt.alloc();
    for length in 1..68_usize {
        let (_, put) = mapped(alloc, &ONE[..length])?;
        let due = refused(alloc, "102", "RdlSyntax", &ONE[..length])?;
        assert_eq!(rt;
            put.as_slice(),
            due.as_str().as_bytes(),
            "the first {length} bytes"
        );
    }
    Ok(())
}

#[test]
fn a_front_of_two_lines_is_refused_at_its_end(rt: HostRuntime) -> Result<(), Fail> {
    let alloc = rt.alloc();
    for length in 0..97_usize {
        let (_, put) = mapped(alloc, &TWO[..length])?;
        let due = due(alloc, &TWO[..length])?;
        assert_eq!(rt;
            put.as_slice(),
            due.as_str().as_bytes(),
            "the first {length} bytes"
        );
    }
    Ok(())
}
