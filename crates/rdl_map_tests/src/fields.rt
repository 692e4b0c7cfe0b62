//! The fields of descriptions, by word and then by lowest bit.

use crate::shown::push_field;
use rdl_fields::register::fields_of;
use rdl_numbers::order::sort_fields;
use rdl_parse::parse_rdl;
use rdl_tree::scan::scan_rdl;
use std::alloc::Global;
use std::test::Fail;
use std::vec::Vec;

/// The fields of a description, each behind the one before and `; `.
fn answer(alloc: Global, text: &[u8]) -> Result<Vec<u8>, Fail> {
    let tokens = scan_rdl(alloc, text)?;
    let file = parse_rdl(alloc, &tokens)?;
    let mut fields = fields_of(alloc, &file)?;
    sort_fields(alloc, &mut fields)?;
    let mut out = Vec::new(alloc);
    for field in fields.as_slice() {
        if !out.is_empty() {
            out.extend_from_slice(b"; ")?;
        }
        push_field(alloc, &mut out, field)?;
    }
    Ok(out)
}

/// Descriptions, each with its fields in the line behind it.
const CASES: &[u8] = b"addrmap a { reg { field {} f; } c; };\n\
c.f 0 0 0+1 rw ? =0 < > value\n\
\n\
\n\
addrmap a { reg { regwidth=8; field { sw=rw; hw=r; } v[8]=5; } c; };\n\
c.v 0 0 0+8 rw =5 < > value\n\
addrmap a { reg { field { sw=r; hw=w; } f[3:2]; field {} g = 1; } c[2] @ 8 += 8; };\n\
c[0].f 8 8 2+2 r wire =0 data < data >; c[0].g 8 8 4+1 rw =1 < > value; c[1].f 16 16 2+2 r wire =0 data < data >; c[1].g 16 16 4+1 rw =1 < > value\n\
addrmap a { reg { regwidth = 64; field {} f[63:40] = 3; field {} g[15:8] = 1; } c; };\n\
c.g 0 0 8+8 rw =1 < > value; c.f 0 4 8+24 rw =3 < > value\n\
addrmap a { reg { regwidth = 16; accesswidth = 8; field {} f[8] = 0; field {} g[8] = 0; } c; };\n\
c.f 0 0 0+8 rw =0 < > value; c.g 0 1 0+8 rw =0 < > value\n\
regfile t { reg { field {} lo[16] = 0; } t; }; addrmap a { reg { field {} f = 0; } z @ 0x40; t ch[2] @ 0x10; };\n\
ch[0].t.lo 16 16 0+16 rw =0 < > value; ch[1].t.lo 20 20 0+16 rw =0 < > value; z.f 64 64 0+1 rw =0 < > value\n\
addrmap a { reg { field { fieldwidth = 3; onread = rset; onwrite = wzt; } f = 7; } c; };\n\
c.f 0 0 0+3 rw rset wzt =7 < > value\n\
addrmap a { reg { field { sw = r; onwrite = woclr; rclr; swwe; } f = 0; } c; };\n\
c.f 0 0 0+1 r rclr =0 < swwe > value\n\
addrmap a { reg { field { sw = w; onread = rclr; woset; swwel; } f = 0; } c; };\n\
c.f 0 0 0+1 w woset swwel:in =0 < swwel > value\n\
addrmap a { reg { field { sw = w1; precedence = hw; } f = 0; field { sw = rw1; } g = 0; field { sw = na; hw = na; } h = 0; } c; };\n\
c.f 0 0 0+1 w1 =0 hw < > value; c.g 0 0 1+1 rw1 =0 < > value; c.h 0 0 2+1  =0 < >\n\
addrmap a { reg { field { hw = w; we; } f = 0; field { wel = false; hwset; hwclr; } g = 0; field { hw = r; we; } h = 0; } c; };\n\
c.f 0 0 0+1 rw =0 data we:in < data we >; c.g 0 0 1+1 rw =0 hwset:in hwclr:in < hwset hwclr > value; c.h 0 0 2+1 rw =0 < we > value\n\
addrmap a { reg { field {} f[4] = 0; field {} g[4] = 0; f -> hwset = g->ored; f -> hwmask = g; f -> swwe = g -> anded; } c; };\n\
c.f 0 0 0+4 rw swwe:c.g& =0 hwset:c.g| hwmask:c.g < > value; c.g 0 0 4+4 rw =0 < > value\n\
addrmap a { reg { field {} f[4] = 0; field {} g[4] = 0; f -> hwmask = g; } c; };\n\
c.f 0 0 0+4 rw =0 < > value; c.g 0 0 4+4 rw =0 < > value\n\
addrmap a { regfile { reg { field {} f = 0; } c; reg { field {} g = 0; } d[2]; c.f -> wel = d[1].g; } r[2]; r[1].c.f -> wel = r[0].d[0].g->xored; };\n\
r[0].c.f 0 0 0+1 rw =0 data wel:r[0].d[1].g < data > value; r[0].d[0].g 4 4 0+1 rw =0 < > value; r[0].d[1].g 8 8 0+1 rw =0 < > value; r[1].c.f 12 12 0+1 rw =0 data wel:r[0].d[0].g^ < data > value; r[1].d[0].g 16 16 0+1 rw =0 < > value; r[1].d[1].g 20 20 0+1 rw =0 < > value\n\
addrmap a { reg { field { counter; } f[4] = 0; field { counter; decr; decrvalue = 2; decrsaturate; underflow; } g[4] = 1; } c; };\n\
c.f 0 0 0+4 rw =0 incr:in +1 -1 < incr > value; c.g 0 0 4+4 rw =1 decr:in +1 -2! < decr > value underflow\n\
addrmap a { reg { field {} e = 0; field { counter; incrvalue = 3; incrsaturate; overflow; } f[4] = 0; f -> incr = e; } c; };\n\
c.e 0 0 0+1 rw =0 < > value; c.f 0 0 1+4 rw =0 incr:c.e +3! -1 < > value overflow\n\
addrmap a { reg { field { counter; incr = false; } f = 0; } c; };\n\
c.f 0 0 0+1 rw =0 +1 -1 < > value\n\
addrmap a { reg { field { intr; sticky; woclr; } f[4] = 0; field {} m[4] = 0; field { intr; sw = r; } g = 0; f -> mask = m; } c; };\n\
c.f 0 0 0+4 rw woclr =0 data intr sticky mask:c.m < data > value; c.m 0 0 4+4 rw =0 < > value; c.g 0 0 8+1 r =0 data intr < data > value\n\
addrmap a { reg { field { singlepulse; swmod; swacc; anded; ored; xored; } f = 0; } c; };\n\
c.f 0 0 0+1 rw =0 pulse < > value swmod swacc anded ored xored\n\
default sw = r; default hw = w; addrmap a { default sw = w; reg { field {} f; field { hw = r; } g = 1; } c; c.f -> sw = rw; };\n\
c.f 0 0 0+1 rw ? =0 data < data >; c.g 0 0 1+1 w =1 < > value\n\
addrmap x { reg { field {} f; } c; }; addrmap a { x b; x d @ 0x100; };\n\
b.c.f 0 0 0+1 rw ? =0 < > value; d.c.f 256 256 0+1 rw ? =0 < > value\n\
reg r { field {} f = 0; }; addrmap a { r x, y; reg r { field {} g = 0; } z; r w; };\n\
x.f 0 0 0+1 rw =0 < > value; y.f 4 4 0+1 rw =0 < > value; z.g 8 8 0+1 rw =0 < > value; w.g 12 12 0+1 rw =0 < > value\n\
addrmap uart { default regwidth = 32; default sw = rw; default hw = r; reg { field { desc = \"enable\"; } en = 0; field {} div[15:8] = 8'h1B; } ctrl; reg { default onwrite = woclr; field { hwset; } rx = 0; field { hwset; } tx = 0; } status; reg { field {} mask[2] = 0; } ie; reg { field { sw = r; hw = w; we; onread = rclr; } d[8] = 0; } data; reg { field { sw = w; singlepulse; } go = 0; } cmd; reg { field { sw = r; hw = na; } ver[16] = 16'h0102; } id; regfile { reg { field {} lo[16] = 0; } t; } ch[4] @ 0x40; ctrl.div->swwel = ctrl.en; };\n\
ctrl.en 0 0 0+1 rw =0 < > value; ctrl.div 0 0 8+8 rw swwel:ctrl.en =27 < > value; status.rx 4 4 0+1 rw woclr =0 hwset:in < hwset > value; status.tx 4 4 1+1 rw woclr =0 hwset:in < hwset > value; ie.mask 8 8 0+2 rw =0 < > value; data.d 12 12 0+8 r rclr =0 data we:in < data we >; cmd.go 16 16 0+1 w =0 pulse < > value; id.ver 20 20 0+16 r =258 < >; ch[0].t.lo 64 64 0+16 rw =0 < > value; ch[1].t.lo 68 68 0+16 rw =0 < > value; ch[2].t.lo 72 72 0+16 rw =0 < > value; ch[3].t.lo 76 76 0+16 rw =0 < > value\n\
";

#[test]
fn fields_stand_in_order_with_their_effective_properties(rt: HostRuntime) -> Result<(), Fail> {
    let mut text = b"".as_slice();
    for (number, line) in CASES.split(|byte| *byte == b'\n').enumerate() {
        if number % 2 == 0 {
            text = line;
        } else {
            let found = answer(rt.alloc(), text)?;
            assert_eq!(rt;
                found.as_slice(),
                line,
                "the description in line {number} of the table"
            );
        }
    }
    Ok(())
}
