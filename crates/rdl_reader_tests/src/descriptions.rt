//! What descriptions are refused for, by the least code at its first place.

use rdl_elab::description::check_rdl;
use rdl_parse::parse_rdl;
use rdl_tree::fault::RdlFault;
use rdl_tree::scan::scan_rdl;
use std::alloc::Global;
use std::test::Fail;

/// Whether a description is right, or its refusal.
fn answer(alloc: Global, text: &[u8]) -> Result<String, Fail> {
    let tokens = scan_rdl(alloc, text)?;
    let file = parse_rdl(alloc, &tokens)?;
    match check_rdl(alloc, &file) {
        Ok(()) => Ok(String::from_str(alloc, "fine")?),
        Err(RdlFault::NoMemory) => Ok(String::from_str(alloc, "NoMemory")?),
        Err(RdlFault::At { code, place }) => {
            let (line, column) = (place.line, place.column);
            Ok(format!(in alloc; "{code:?} {line}:{column}")?)
        }
    }
}

/// Descriptions, each with what is answered of it in the line behind it.
const CASES: &[u8] = b"\n\
RdlName 1:1\n\
addrmap a { reg { regwidth=8; field {} a[3:0]=0; field {} b[4:3]=0; } c; };\n\
RdlPlace 1:59\n\
addrmap a { reg { regwidth=8; field {} a; } c; };\n\
fine\n\
addrmap a { q c; };\n\
RdlName 1:13\n\
addrmap a { foo = 1; reg { field {} f=0; } c; };\n\
RdlProperty 1:13\n\
addrmap a { reg { field { we; wel; } f; field { foo; } g; } c; };\n\
RdlProperty 1:38\n\
addrmap a { reg { field { foo; we; wel; } f; } c; };\n\
RdlProperty 1:27\n\
addrmap a { reg { field {} f = 2; field { we; wel; } g; } c; };\n\
RdlProperty 1:54\n\
addrmap a { reg { field {} f = 2; field { sw = 1; } g; } c; };\n\
RdlValue 1:28\n\
addrmap a { reg { regwidth = 16; field {} f; } c; reg { field {} f; } d; };\n\
RdlValue 1:71\n\
reg q { regwidth = 8; field {} f; }; addrmap a { q c; reg { field {} f; } d; q e; };\n\
RdlValue 1:75\n\
reg q { field {} f; }; addrmap a { regfile { q r; } x, y; x.r -> accesswidth = 8; };\n\
RdlValue 1:48\n\
addrmap a { reg { field {} f; } c @ 4; reg { field {} f; } d @ 4; };\n\
RdlPlace 1:60\n\
addrmap a { reg { field {} f; } d @ 8; reg { field {} f; } c[4]; reg { field {} f; } e @ 12; };\n\
RdlPlace 1:86\n\
addrmap a { reg { field {} f; } c @ 4; reg { field {} f; } d @ 8; };\n\
fine\n\
addrmap a { reg { regwidth = 64; field {} f; } c; reg { field {} f; } d @ 4; };\n\
RdlPlace 1:71\n\
addrmap a { reg { regwidth = 64; field {} f; } c; reg { field {} f; } d @ 8; };\n\
fine\n\
addrmap a { reg { field {} f; } c @ 2; };\n\
RdlPlace 1:33\n\
addrmap a { reg { field {} f; } c[2] += 2; };\n\
RdlPlace 1:33\n\
addrmap a { reg { field {} f; } c[2] += 8; reg { field {} f; } d @ 4; };\n\
fine\n\
addrmap a { reg { field {} f; } c[2] += 8; reg { field {} f; } d @ 8; };\n\
RdlPlace 1:64\n\
addrmap a { reg { field {} f; } c @ 0xFFFFFFFC; };\n\
fine\n\
addrmap a { reg { field {} f; } c @ 0x100000000; };\n\
RdlPlace 1:33\n\
addrmap a { reg { field {} f; } c[2] @ 0xFFFFFFFC; };\n\
RdlPlace 1:33\n\
addrmap a { reg {} c; };\n\
RdlPlace 1:20\n\
addrmap a { regfile {} c; };\n\
RdlPlace 1:24\n\
addrmap a { };\n\
RdlPlace 1:1\n\
addrmap a { reg { field {} f[33]; } c; };\n\
RdlPlace 1:28\n\
addrmap a { reg { regwidth = 64; field {} f[31:0]; field {} g[63:32]; } c; };\n\
fine\n\
addrmap a { reg { regwidth = 64; field {} f[30:0]; field {} g[2]; } c; };\n\
RdlPlace 1:61\n\
addrmap a { reg { field {} f[7:4]; field {} g; } c; };\n\
fine\n\
addrmap a { reg { field {} f[31:31]; field {} g; } c; };\n\
RdlPlace 1:47\n\
addrmap a { regfile { reg { field {} f; } r @ 4; } x %= 16, y; reg { field {} f; } z; };\n\
fine\n\
addrmap a { reg { field {} f; } r[1024]; };\n\
fine\n\
addrmap a { reg { field {} f; } r[1025]; };\n\
RdlSize 0:0\n\
addrmap a { reg { regwidth = 64; field {} f; } r[513]; };\n\
RdlSize 0:0\n\
addrmap a { reg { field {} f[32]; } r[128]; };\n\
fine\n\
addrmap a { reg { field {} f[32]; } r[129]; };\n\
RdlSize 0:0\n\
addrmap a { reg { field {} f; } r[1048577]; };\n\
RdlSize 0:0\n\
addrmap a { reg { field { we; wel; } f; } r[1048577]; };\n\
RdlSize 0:0\n\
addrmap a { reg { field { foo; } f; } r[1048577]; };\n\
RdlProperty 1:27\n\
addrmap a { regfile { reg { field {} f; } r; reg { field {} f; } s; } x[2] += 4; };\n\
RdlPlace 1:66\n\
";

#[test]
fn the_least_code_is_refused_at_its_first_place(rt: HostRuntime) -> Result<(), Fail> {
    let mut text = b"".as_slice();
    for (number, line) in CASES.split(|byte| *byte == b'\n').enumerate() {
        if number % 2 == 0 {
            text = line;
        } else {
            let found = answer(rt.alloc(), text)?;
            assert_eq!(rt;
                found.as_bytes(),
                line,
                "the description in line {number} of the table"
            );
        }
    }
    Ok(())
}
