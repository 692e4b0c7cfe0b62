//! The register map of a description, or what it is refused for.

use field_policies::map::RegMap;
use rdl_parse::parse_rdl;
use rdl_regmap::elaborate::elaborate_rdl;
use rdl_tree::fault::RdlFault;
use rdl_tree::scan::scan_rdl;
use std::alloc::{AllocError, Global};
use std::string::String;
use std::test::Fail;

fn elaborated(alloc: Global, text: &[u8]) -> Result<RegMap, RdlFault> {
    let tokens = scan_rdl(alloc, text)?;
    let file = parse_rdl(alloc, &tokens)?;
    elaborate_rdl(alloc, &file)
}

fn size_of(alloc: Global, map: &RegMap) -> Result<String, AllocError> {
    let bus = map.bus_width;
    let words = map.words.len();
    let fields = map.fields.len();
    let inputs = map.inputs.len();
    format!(in alloc; "{bus} bits, {words} words, {fields} fields, {inputs} inputs")
}

fn answer(alloc: Global, text: &[u8]) -> Result<String, Fail> {
    match elaborated(alloc, text) {
        Ok(map) => Ok(size_of(alloc, &map)?),
        Err(RdlFault::NoMemory) => Ok(String::from_str(alloc, "NoMemory")?),
        Err(RdlFault::At { code, place }) => {
            let (line, column) = (place.line, place.column);
            Ok(format!(in alloc; "{code:?} {line}:{column}")?)
        }
    }
}

/// Descriptions, each with what is answered of it in the line behind it.
const CASES: &[u8] = b"\n\
RdlName 1:1\n\
addrmap a { ~\n\
RdlByte 1:13\n\
addrmap { };\n\
RdlSyntax 1:12\n\
addrmap a { reg { regwidth=8; field {} a[3:0]=0; field {} b[4:3]=0; } c; };\n\
RdlPlace 1:59\n\
addrmap a { reg { regwidth=8; field {} a; } c; };\n\
8 bits, 1 words, 1 fields, 0 inputs\n\
addrmap a { q c; };\n\
RdlName 1:13\n\
addrmap a { foo = 1; reg { field {} f=0; } c; };\n\
RdlProperty 1:13\n\
addrmap a { reg { field { hwset; } f; f -> we = g; } c; };\n\
RdlName 1:39\n\
addrmap a { reg { field {} f[2] = 4; } c; };\n\
RdlValue 1:28\n\
addrmap a { reg { field {} f = 0; } c[1025]; };\n\
RdlSize 0:0\n\
addrmap a { reg { field { hw = w; we; } f[4] = 0; field { hwset; swwe; } g[4] = 0; } c @ 8; reg { field { counter; } n = 0; } b @ 0; };\n\
32 bits, 2 words, 3 fields, 5 inputs\n\
addrmap gpio { default regwidth = 32; reg { field { sw = r; hw = w; } pins[32]; } in; reg { field { hw = r; } pins[32] = 0; } out; reg { field { onwrite = woclr; hwset; } rose[32] = 0; } events[2] @ 0x10; };\n\
32 bits, 4 words, 4 fields, 3 inputs\n\
";

#[test]
fn maps_and_refusals_of_descriptions(rt: HostRuntime) -> Result<(), Fail> {
    let mut text = b"".as_slice();
    for (number, line) in CASES.split(|byte| *byte == b'\n').enumerate() {
        if number % 2 == 0 {
            text = line;
        } else {
            let found = answer(rt.alloc(), text)?;
            assert_eq!(rt;
                found.as_str().as_bytes(),
                line,
                "the description in line {number} of the table"
            );
        }
    }
    Ok(())
}
