//! The maps of descriptions: bus words by address, fields and hardware inputs by their numbers.

use crate::shown::push_number;
use bit_base::text::Text;
use field_policies::extra::{Counter, Extra, Intr};
use field_policies::field::Field;
use field_policies::signal::{Gate, HwExpr, HwInput, InSignal};
use rdl_map::map::{Parts, parts_of};
use rdl_parse::parse_rdl;
use rdl_tree::scan::scan_rdl;
use std::alloc::{AllocError, Global};
use std::test::Fail;
use std::vec::Vec;

fn push_name(alloc: Global, out: &mut Vec<u8>, name: &[u8], number: u32) -> Result<(), AllocError> {
    out.extend_from_slice(name)?;
    push_number(alloc, out, u64::from(number))
}

fn push_expr(alloc: Global, out: &mut Vec<u8>, expr: HwExpr) -> Result<(), AllocError> {
    match expr {
        HwExpr::Input(number) => push_name(alloc, out, b"i", number),
        HwExpr::Value(number) => push_name(alloc, out, b"f", number),
        HwExpr::Anded(number) => push_name(alloc, out, b"&", number),
        HwExpr::Ored(number) => push_name(alloc, out, b"|", number),
        HwExpr::Xored(number) => push_name(alloc, out, b"^", number),
    }
}

fn push_given(
    alloc: Global,
    out: &mut Vec<u8>,
    name: &[u8],
    expr: Option<HwExpr>,
) -> Result<(), AllocError> {
    match expr {
        None => Ok(()),
        Some(expr) => {
            out.extend_from_slice(name)?;
            push_expr(alloc, out, expr)
        }
    }
}

fn push_gate(
    alloc: Global,
    out: &mut Vec<u8>,
    high: &[u8],
    low: &[u8],
    gate: Option<Gate>,
) -> Result<(), AllocError> {
    match gate {
        None => Ok(()),
        Some(gate) => {
            out.extend_from_slice(if gate.high { high } else { low })?;
            push_expr(alloc, out, gate.expr)
        }
    }
}

fn push_intr(alloc: Global, out: &mut Vec<u8>, intr: &Intr) -> Result<(), AllocError> {
    out.extend_from_slice(b" intr")?;
    push_gate(alloc, out, b" enable:", b" mask:", intr.filter)?;
    for member in intr.members.as_slice() {
        push_name(alloc, out, b" m", *member)?;
    }
    Ok(())
}

fn push_counter(alloc: Global, out: &mut Vec<u8>, counter: &Counter) -> Result<(), AllocError> {
    push_given(alloc, out, b" incr:", counter.incr)?;
    push_given(alloc, out, b" decr:", counter.decr)?;
    push_name(alloc, out, b" +", counter.up)?;
    push_name(alloc, out, b" -", counter.down)
}

fn push_extra(alloc: Global, out: &mut Vec<u8>, extra: &Extra) -> Result<(), AllocError> {
    match extra {
        Extra::Plain => Ok(()),
        Extra::Counter(counter) => push_counter(alloc, out, counter),
        Extra::Intr(intr) => push_intr(alloc, out, intr),
    }
}

fn push_path(out: &mut Vec<u8>, path: &Text) -> Result<(), AllocError> {
    Ok(out.extend_from_slice(path.as_bytes())?)
}

fn push_field(alloc: Global, out: &mut Vec<u8>, field: &Field) -> Result<(), AllocError> {
    push_path(out, &field.path)?;
    push_name(alloc, out, b" ", field.word)?;
    push_name(alloc, out, b" ", field.lsb)?;
    push_name(alloc, out, b"+", field.width)?;
    push_gate(alloc, out, b" swwe:", b" swwel:", field.sw_gate)?;
    if let Some(input) = field.data_in {
        push_name(alloc, out, b" data:i", input)?;
    }
    push_gate(alloc, out, b" we:", b" wel:", field.data_gate)?;
    push_given(alloc, out, b" hwset:", field.set)?;
    push_given(alloc, out, b" hwclr:", field.clear)?;
    push_gate(alloc, out, b" hwenable:", b" hwmask:", field.bit_gate)?;
    push_extra(alloc, out, &field.extra)?;
    if field.shown.intr {
        out.extend_from_slice(b" > intr")?;
    }
    Ok(())
}

fn signal_name(signal: InSignal) -> &'static [u8] {
    match signal {
        InSignal::Data => b" data".as_slice(),
        InSignal::We => b" we".as_slice(),
        InSignal::Wel => b" wel".as_slice(),
        InSignal::HwSet => b" hwset".as_slice(),
        InSignal::HwClr => b" hwclr".as_slice(),
        InSignal::SwWe => b" swwe".as_slice(),
        InSignal::SwWel => b" swwel".as_slice(),
        InSignal::Incr => b" incr".as_slice(),
        InSignal::Decr => b" decr".as_slice(),
    }
}

fn push_input(alloc: Global, out: &mut Vec<u8>, input: HwInput) -> Result<(), AllocError> {
    push_name(alloc, out, b" ", input.field)?;
    out.extend_from_slice(signal_name(input.signal))?;
    push_name(alloc, out, b"+", input.width)
}

/// The bits of a bus word and the words; behind `;` each field; behind `<` the inputs.
fn push_parts(alloc: Global, out: &mut Vec<u8>, parts: &Parts) -> Result<(), AllocError> {
    push_number(alloc, out, parts.bus_width)?;
    for word in parts.words.as_slice() {
        push_name(alloc, out, b" ", *word)?;
    }
    for field in parts.fields.as_slice() {
        out.extend_from_slice(b"; ")?;
        push_field(alloc, out, field)?;
    }
    out.extend_from_slice(b" <")?;
    for input in parts.inputs.as_slice() {
        push_input(alloc, out, *input)?;
    }
    Ok(())
}

fn answer(alloc: Global, text: &[u8]) -> Result<Vec<u8>, Fail> {
    let tokens = scan_rdl(alloc, text)?;
    let file = parse_rdl(alloc, &tokens)?;
    let mut out = Vec::new(alloc);
    if let Some(parts) = parts_of(alloc, &file)? {
        push_parts(alloc, &mut out, &parts)?;
    }
    Ok(out)
}

/// Descriptions, each with its map in the line behind it, empty where a part can't be told.
const CASES: &[u8] = b"addrmap a {};\n\
32 <\n\
addrmap a { reg { field {} f; } c @ 16, d @ 0; };\n\
32 0 16; d.f 0 0+1; c.f 1 0+1 <\n\
addrmap a { reg { regwidth = 128; field {} f[127:100]; } c; };\n\
32 0 4 8 12; c.f 3 4+28 <\n\
addrmap a { reg { regwidth = 32; accesswidth = 8; field {} f[31:24]; } c[2] @ 4; reg { accesswidth = 8; regwidth = 8; field {} g; } d @ 1; };\n\
8 1 4 5 6 7 8 9 10 11; d.g 0 0+1; c[0].f 4 0+8; c[1].f 8 0+8 <\n\
addrmap a { reg { field { hw = w; we; } f[4] = 0; field { hwset; swwe; } g[4] = 0; f -> swwel = g->ored; } c @ 8; reg { field { counter; } n = 0; } b @ 0; };\n\
32 0 8; b.n 0 0+1 incr:i0 +1 -1; c.f 1 0+4 swwel:|2 data:i1 we:i2; c.g 1 4+4 swwe:i4 hwset:i3 < 0 incr+1 1 data+4 1 we+1 2 hwset+1 2 swwe+1\n\
addrmap a { reg { regwidth = 64; field { intr; } f[40:40] = 0; field { intr; } g[3:0] = 0; field {} e[11:8] = 0; field { counter; decrvalue = 1; } n[15:12] = 0; g -> enable = e; n -> decr = g->xored; n -> incr = e->anded; } c, d; };\n\
32 0 4 8 12; c.g 0 0+4 data:i0 intr enable:f1 m0 m3 > intr; c.e 0 8+4; c.n 0 12+4 incr:&1 decr:^0 +1 -1; c.f 1 8+1 data:i1 intr; d.g 2 0+4 data:i2 intr enable:f5 m4 m7 > intr; d.e 2 8+4; d.n 2 12+4 incr:&5 decr:^4 +1 -1; d.f 3 8+1 data:i3 intr < 0 data+4 3 data+1 4 data+4 7 data+1\n\
addrmap a { reg { field {} f[4] = 0; field { hwset; } g[4] = 0; g -> hwmask = f; } c; };\n\
32 0; c.f 0 0+4; c.g 0 4+4 hwset:i0 hwmask:f0 < 1 hwset+1\n\
addrmap a { reg { field { hwset; } f; f -> we = g; } c; };\n\
\n\
addrmap a { reg { field {} f; } c @ 0x100000000; };\n\
\n\
addrmap uart { default regwidth = 32; default sw = rw; default hw = r; reg { field { desc = \"enable\"; } en = 0; field {} div[15:8] = 8'h1B; } ctrl; reg { default onwrite = woclr; field { hwset; } rx = 0; field { hwset; } tx = 0; } status; reg { field {} mask[2] = 0; } ie; reg { field { sw = r; hw = w; we; onread = rclr; } d[8] = 0; } data; reg { field { sw = w; singlepulse; } go = 0; } cmd; reg { field { sw = r; hw = na; } ver[16] = 16'h0102; } id; regfile { reg { field {} lo[16] = 0; } t; } ch[4] @ 0x40; ctrl.div->swwel = ctrl.en; };\n\
32 0 4 8 12 16 20 64 68 72 76; ctrl.en 0 0+1; ctrl.div 0 8+8 swwel:f0; status.rx 1 0+1 hwset:i0; status.tx 1 1+1 hwset:i1; ie.mask 2 0+2; data.d 3 0+8 data:i2 we:i3; cmd.go 4 0+1; id.ver 5 0+16; ch[0].t.lo 6 0+16; ch[1].t.lo 7 0+16; ch[2].t.lo 8 0+16; ch[3].t.lo 9 0+16 < 2 hwset+1 3 hwset+1 5 data+8 5 we+1\n\
";

#[test]
fn maps_have_words_fields_and_inputs_by_number(rt: HostRuntime) -> Result<(), Fail> {
    let mut text = b"".as_slice();
    for (number, line) in CASES.split(|byte| *byte == b'\n').enumerate() {
        if number % 2 == 0 {
            text = line;
        } else {
            let found = answer(rt.alloc(), text)?;
            assert_eq!(rt;
                found.as_slice(),
                line,
                "the description in line {number} of the table"
            );
        }
    }
    Ok(())
}
