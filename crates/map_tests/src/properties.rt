//! The table of properties: each name in the body of each kind of component.

use crate::mapped::mapped;
use std::alloc::{AllocError, Global};
use std::string::String;
use std::test::Fail;
use std::vec::Vec;

/// The letter of a kind, and a description up to where the body of its component begins, and from there on: address map,
/// register file, register, field (`p`, a part of a register).
const BODIES: [(u8, &str, &str); 4] = [
    (
        b'a',
        "addrmap a { ",
        "regfile { reg { field {} f; } c; } r; };",
    ),
    (
        b'f',
        "addrmap a { regfile { ",
        "reg { field {} f; } c; } r; };",
    ),
    (
        b'r',
        "addrmap a { regfile { reg { ",
        "field {} f; } c; } r; };",
    ),
    (
        b'p',
        "addrmap a { regfile { reg { field {",
        "} f; } c; } r; };",
    ),
];

/// The letters of the kinds that have the property of the first assignment, the assignments, and bits, policy and reset
/// of the field under them; or the code of the refusal that the first of them gets there.
const ROWS: &[u8] = b"\
arfp|name=\"x\";|[0:0] RW -\n\
arfp|name=5;|106\n\
arfp|name;|106\n\
arfp|desc=\"x\";|[0:0] RW -\n\
arfp|desc=5;|106\n\
arfp|desc;|106\n\
a|addressing=regalign;|[0:0] RW -\n\
a|addressing=compact;|106\n\
a|addressing=\"regalign\";|106\n\
a|lsb0=true;|[0:0] RW -\n\
a|lsb0=false;|106\n\
a|lsb0=1;|106\n\
r|regwidth=8;|[0:0] RW -\n\
r|regwidth=16;|[0:0] RW -\n\
r|regwidth=32;|[0:0] RW -\n\
r|regwidth=64;|[0:0] RW -\n\
r|regwidth=128;|[0:0] RW -\n\
r|regwidth=24;|106\n\
r|regwidth=0;|106\n\
r|regwidth=256;|106\n\
r|regwidth=true;|106\n\
r|accesswidth=8;|[0:0] RW -\n\
r|accesswidth=16;|[0:0] RW -\n\
r|accesswidth=32;|[0:0] RW -\n\
r|accesswidth=64;|106\n\
r|accesswidth=0;|106\n\
r|accesswidth=false;|106\n\
p|encode=e;|[0:0] RW -\n\
p|encode=5;|106\n\
p|encode=\"e\";|106\n\
p|encode=e.f;|106\n\
p|encode=e[0];|106\n\
p|encode=e->anded;|106\n\
p|fieldwidth=1;|[0:0] RW -\n\
p|fieldwidth=32;|[31:0] RW -\n\
p|fieldwidth=0;|106\n\
p|fieldwidth=33;|106\n\
p|fieldwidth=w;|106\n\
p|reset=0;|[0:0] RW 0\n\
p|reset=1'b1;|[0:0] RW 1\n\
p|reset=true;|106\n\
p|reset=x;|106\n\
p|sw=rw;|[0:0] RW -\n\
p|sw=wr;|[0:0] RW -\n\
p|sw=r;|[0:0] RO -\n\
p|sw=w;|[0:0] WO -\n\
p|sw=na;|[0:0] - -\n\
p|sw=rw1;|[0:0] W1 -\n\
p|sw=w1;|[0:0] WO1 -\n\
p|sw=wr1;|106\n\
p|sw=1;|106\n\
p|sw=true;|106\n\
p|sw;|106\n\
p|hw=rw;|[0:0] RW -\n\
p|hw=wr;|[0:0] RW -\n\
p|hw=r;|[0:0] RW -\n\
p|hw=w;|[0:0] RW -\n\
p|hw=na;|[0:0] RW -\n\
p|hw=rw1;|106\n\
p|hw=w1;|106\n\
p|hw=1;|106\n\
p|onread=rclr;|[0:0] WRC -\n\
p|onread=rset;|[0:0] WRS -\n\
p|onread=ruser;|106\n\
p|onread=true;|106\n\
p|onread=woclr;|106\n\
p|rclr;|[0:0] WRC -\n\
p|rset=true;|[0:0] WRS -\n\
p|rclr=false;|[0:0] RW -\n\
p|rclr=1;|106\n\
p|rset=rset;|106\n\
p|onwrite=woset;|[0:0] W1S -\n\
p|onwrite=woclr;|[0:0] W1C -\n\
p|onwrite=wot;|[0:0] W1T -\n\
p|onwrite=wzs;|[0:0] W0S -\n\
p|onwrite=wzc;|[0:0] W0C -\n\
p|onwrite=wzt;|[0:0] W0T -\n\
p|onwrite=wclr;|[0:0] WC -\n\
p|onwrite=wset;|[0:0] WS -\n\
p|onwrite=wuser;|106\n\
p|onwrite=false;|106\n\
p|onwrite=rclr;|106\n\
p|woclr=true;|[0:0] W1C -\n\
p|woset;|[0:0] W1S -\n\
p|woset=false;|[0:0] RW -\n\
p|woclr=woclr;|106\n\
p|woset=0;|106\n\
p|precedence=sw;|[0:0] RW -\n\
p|precedence=hw;|[0:0] RW -\n\
p|precedence=rw;|106\n\
p|precedence;|106\n\
p|singlepulse;|[0:0] RW -\n\
p|singlepulse=true;|[0:0] RW -\n\
p|singlepulse=false;|[0:0] RW -\n\
p|singlepulse=1;|106\n\
p|swmod;|[0:0] RW -\n\
p|swmod=true;|[0:0] RW -\n\
p|swmod=false;|[0:0] RW -\n\
p|swmod=1;|106\n\
p|swacc;|[0:0] RW -\n\
p|swacc=true;|[0:0] RW -\n\
p|swacc=false;|[0:0] RW -\n\
p|swacc=1;|106\n\
p|anded;|[0:0] RW -\n\
p|anded=true;|[0:0] RW -\n\
p|anded=false;|[0:0] RW -\n\
p|anded=1;|106\n\
p|ored;|[0:0] RW -\n\
p|ored=true;|[0:0] RW -\n\
p|ored=false;|[0:0] RW -\n\
p|ored=1;|106\n\
p|xored;|[0:0] RW -\n\
p|xored=true;|[0:0] RW -\n\
p|xored=false;|[0:0] RW -\n\
p|xored=1;|106\n\
p|we;|[0:0] RW -\n\
p|we=false;|[0:0] RW -\n\
p|we=1;|106\n\
p|we=f;|106\n\
p|we=f->anded;|106\n\
p|wel;|[0:0] RW -\n\
p|wel=false;|[0:0] RW -\n\
p|wel=1;|106\n\
p|wel=f;|106\n\
p|wel=f->anded;|106\n\
p|hwset;|[0:0] RW -\n\
p|hwset=false;|[0:0] RW -\n\
p|hwset=1;|106\n\
p|hwset=f;|106\n\
p|hwset=f->anded;|106\n\
p|hwclr;|[0:0] RW -\n\
p|hwclr=false;|[0:0] RW -\n\
p|hwclr=1;|106\n\
p|hwclr=f;|106\n\
p|hwclr=f->anded;|106\n\
p|swwe;|[0:0] RW -\n\
p|swwe=false;|[0:0] RW -\n\
p|swwe=1;|106\n\
p|swwe=f;|106\n\
p|swwe=f->anded;|106\n\
p|swwel;|[0:0] RW -\n\
p|swwel=false;|[0:0] RW -\n\
p|swwel=1;|106\n\
p|swwel=f;|106\n\
p|swwel=f->anded;|106\n\
p|hwenable;|106\n\
p|hwenable=f;|106\n\
p|hwenable=0;|106\n\
p|hwmask;|106\n\
p|hwmask=f;|106\n\
p|hwmask=0;|106\n\
p|enable;|106\n\
p|enable=f;|106\n\
p|enable=0;|106\n\
p|mask;|106\n\
p|mask=f;|106\n\
p|mask=0;|106\n\
p|counter; reset=0;|[0:0] RW 0\n\
p|counter=1;|106\n\
p|incrsaturate; counter; reset=0;|[0:0] RW 0\n\
p|incrsaturate=sat;|106\n\
p|decrsaturate; counter; reset=0;|[0:0] RW 0\n\
p|decrsaturate=sat;|106\n\
p|overflow; counter; reset=0;|[0:0] RW 0\n\
p|overflow=sat;|106\n\
p|underflow; counter; reset=0;|[0:0] RW 0\n\
p|underflow=sat;|106\n\
p|incr; counter; reset=0;|[0:0] RW 0\n\
p|incr=1;|106\n\
p|incr=f;|106\n\
p|decr; counter; reset=0;|[0:0] RW 0\n\
p|decr=1;|106\n\
p|decr=f;|106\n\
p|incrvalue=1; counter; reset=0;|[0:0] RW 0\n\
p|incrvalue=0;|106\n\
p|incrvalue=true;|106\n\
p|decrvalue=1; counter; reset=0;|[0:0] RW 0\n\
p|decrvalue=0;|106\n\
p|decrvalue=true;|106\n\
p|intr; reset=0;|[0:0] RW 0\n\
p|intr=posedge0;|106\n\
p|sticky; intr; reset=0;|[0:0] RW 0\n\
p|sticky=1;|106\n\
p|stickybit; intr; reset=0;|[0:0] RW 0\n\
p|stickybit=1;|106\n\
|foo;|\n\
|next;|\n\
|ruser;|\n\
|wuser;|\n\
|bigendian;|\n\
|msb0;|\n\
|rsvdset;|\n\
|compact;|\n\
|paritycheck;|\n\
|f;|\n\
";

/// The description with the assignments in the body.
fn with(
    alloc: Global,
    before: &[u8],
    assignments: &[u8],
    behind: &[u8],
) -> Result<Vec<u8>, AllocError> {
    let mut text = before.to_vec(alloc)?;
    text.extend_from_slice(assignments)?;
    text.extend_from_slice(behind)?;
    Ok(text)
}

/// What is due in the body behind a text, of a kind that has the property or not.
fn due(alloc: Global, has: bool, before: &[u8], answer: &str) -> Result<String, AllocError> {
    let column = before.len() + 1;
    if !has {
        format!(in alloc; "refused 105 a.rdl:1:{column} RdlProperty\n")
    } else if answer == "106" {
        format!(in alloc; "refused 106 a.rdl:1:{column} RdlValue\n")
    } else {
        format!(in alloc; "00000000 r.c.f {answer}\n")
    }
}

#[test]
fn each_property_is_right_in_its_kinds_alone(rt: HostRuntime) -> Result<(), Fail> {
    let alloc = rt.alloc();
    for row in ROWS.split(|byte| *byte == b'\n') {
        let mut parts = row.split(|byte| *byte == b'|');
        if let (Some(kinds), Some(assignments), Some(answer)) = (
            parts.next(),
            parts.next(),
            parts.next(),
        ) {
            for (kind, before, behind) in BODIES {
                let before = before.as_bytes();
                let text = with(alloc, before, assignments, behind.as_bytes())?;
                let (_, put) = mapped(alloc, text.as_slice())?;
                let has = kinds.contains(&kind);
                let due = due(alloc, has, before, std::str::from_utf8(answer)?)?;
                let shown = std::str::from_utf8(row)?;
                assert_eq!(rt;
                    put.as_slice(),
                    due.as_str().as_bytes(),
                    "of {shown} in the body of {kind}"
                );
            }
        }
    }
    Ok(())
}
