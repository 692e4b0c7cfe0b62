//! Descriptions whose text is right, and the code and place of the first fault of the others.

use rdl_parse::parse_rdl;
use rdl_text::text::check_text;
use rdl_tree::fault::RdlFault;
use rdl_tree::scan::scan_rdl;
use std::alloc::Global;
use std::test::Fail;

/// Whether a text is right, or its refusal.
fn answer(alloc: Global, text: &[u8]) -> Result<String, Fail> {
    let tokens = scan_rdl(alloc, text)?;
    let file = parse_rdl(alloc, &tokens)?;
    match check_text(alloc, &file) {
        Ok(()) => Ok(String::from_str(alloc, "fine")?),
        Err(RdlFault::NoMemory) => Ok(String::from_str(alloc, "NoMemory")?),
        Err(RdlFault::At { code, place }) => {
            let (line, column) = (place.line, place.column);
            Ok(format!(in alloc; "{code:?} {line}:{column}")?)
        }
    }
}

/// Descriptions, each with what is answered of it in the line behind it.
const CASES: &[u8] = b"addrmap a { reg { field {} f; } c; };\n\
fine\n\
\n\
RdlName 1:1\n\
reg r { field {} f; };\n\
RdlName 1:23\n\
regfile x { reg { field {} f; } c; };\n\
RdlName 1:38\n\
addrmap a { q c; };\n\
RdlName 1:13\n\
addrmap a { q c; reg q { field {} f; }; };\n\
RdlName 1:13\n\
addrmap a { reg q { field {} f; }; q c; };\n\
fine\n\
addrmap a { enum q { x; }; q c; };\n\
RdlName 1:28\n\
reg q { field {} f; }; addrmap a { enum q { x; }; q c; };\n\
RdlName 1:51\n\
reg q { field {} f; }; addrmap a { q c; };\n\
fine\n\
addrmap a { reg q { q f; }; };\n\
RdlName 1:21\n\
field q {}; addrmap a { reg q { q f; }; q c; };\n\
fine\n\
addrmap a { reg q { field {} f; }; field q {}; };\n\
RdlName 1:36\n\
addrmap a { enum q { x; }; reg q { field {} f; }; };\n\
RdlName 1:28\n\
addrmap a { reg q { field {} f; }; enum q { x; }; };\n\
RdlName 1:36\n\
addrmap a {}; addrmap a {};\n\
RdlName 1:15\n\
addrmap a { reg { field {} f; } c, c; };\n\
RdlName 1:36\n\
addrmap a { reg { field {} f; } c, d, d; };\n\
RdlName 1:39\n\
addrmap a { reg q { field {} f; }; q c; q d, c; };\n\
RdlName 1:46\n\
addrmap a { reg c { field {} f; } c; };\n\
fine\n\
addrmap a { field {} f; };\n\
RdlName 1:13\n\
addrmap a { reg { reg { field {} f; } d; } c; };\n\
RdlName 1:19\n\
addrmap a { reg { reg d { field {} f; }; field {} f; } c; };\n\
fine\n\
addrmap a { regfile { addrmap {} m; } f; };\n\
RdlName 1:23\n\
addrmap b {}; addrmap a { regfile { b m; } f; };\n\
RdlName 1:37\n\
addrmap a {} x;\n\
RdlName 1:1\n\
addrmap {} x;\n\
RdlName 1:1\n\
name = \"n\"; addrmap a {};\n\
RdlName 1:1\n\
default sw = r; addrmap a {};\n\
fine\n\
addrmap a {}; a -> name = \"x\";\n\
RdlName 1:15\n\
addrmap a { reg { field {} f; } c; c.f -> reset = 0; };\n\
fine\n\
addrmap a { c.f -> reset = 0; reg { field {} f; } c; };\n\
fine\n\
addrmap a { reg { field {} f; } c; c.g -> reset = 0; };\n\
RdlName 1:36\n\
addrmap a { reg { field {} f; } c[2]; c.f -> reset = 0; };\n\
RdlName 1:39\n\
addrmap a { reg { field {} f; } c[2]; c[1].f -> reset = 0; };\n\
fine\n\
addrmap a { reg { field {} f; } c[2]; c[2].f -> reset = 0; };\n\
RdlName 1:39\n\
addrmap a { reg { field {} f; } c; c[0].f -> reset = 0; };\n\
RdlName 1:36\n\
addrmap a { reg { field {} f[4]; } c; c.f[1] -> reset = 0; };\n\
RdlName 1:39\n\
addrmap a { reg { field {} f[4]; } c; c.f -> reset = 0; };\n\
fine\n\
addrmap a { reg { field {} f; } c; c -> reset = 0; };\n\
RdlName 1:36\n\
addrmap a { reg { field {} f; } c; c -> regwidth = 8; };\n\
fine\n\
addrmap a { reg { field {} f; } c; c.f -> regwidth = 8; };\n\
RdlName 1:36\n\
addrmap a { reg { field {} f; } c; c -> name = \"x\"; c.f -> desc = \"y\"; };\n\
fine\n\
addrmap a { reg { field {} f; } c; c.f -> foo = 1; };\n\
RdlProperty 1:36\n\
addrmap a { reg { field {} f; field {} g; } c; c.f -> we = c.g; };\n\
fine\n\
addrmap a { reg { field {} f; } c; c.f -> we = c.g; };\n\
RdlName 1:36\n\
addrmap a { reg { field {} f; } c; c.f -> hwenable = c; };\n\
RdlName 1:36\n\
addrmap a { reg { field {} f; } c; c.f -> hwset = c.g->ored; };\n\
RdlName 1:36\n\
addrmap a { reg { field {} f; } c; c.f -> hwset = c.g->swmod; };\n\
RdlValue 1:36\n\
addrmap a { reg { field {} f; } c; c.f -> hwenable = c.g->ored; };\n\
RdlValue 1:36\n\
addrmap a { reg { field {} f; } c; c.f -> sw = rw; };\n\
fine\n\
addrmap a { reg { field {} f; field {} g; f -> we = g; } c; };\n\
fine\n\
addrmap a { c.f -> reset = 0; q c; };\n\
RdlName 1:13\n\
addrmap a { reg r { q f; }; };\n\
RdlName 1:21\n\
addrmap a { regfile { reg { field {} f; } c[3]; } g[2]; g[1].c[2].f -> sw = r; g[2].c[2].f -> sw = r; };\n\
RdlName 1:80\n\
addrmap a { q c; r d; };\n\
RdlName 1:13\n\
addrmap a { foo = 1; reg { field {} f; } c; };\n\
RdlProperty 1:13\n\
addrmap a { foo = 1; q c; };\n\
RdlName 1:22\n\
addrmap a { reset = 1; reg { field {} f; } c; };\n\
RdlProperty 1:13\n\
addrmap a { reg { regwidth = 8; field { regwidth = 8; } f; } c; };\n\
RdlProperty 1:41\n\
addrmap a { reg { field { sw = r; sw = w; } f; } c; };\n\
RdlProperty 1:35\n\
addrmap a { reg { field { onread = rclr; rset; } f; } c; };\n\
RdlProperty 1:42\n\
addrmap a { reg { field { rclr = false; onread = rset; } f; } c; };\n\
RdlProperty 1:41\n\
addrmap a { reg { field { woclr; woset; } f; } c; };\n\
RdlProperty 1:34\n\
addrmap a { default sw = r; default sw = w; reg { field {} f; } c; };\n\
RdlProperty 1:29\n\
default sw = r; default sw = w; addrmap a {};\n\
RdlProperty 1:17\n\
addrmap a { default sw = r; reg { default sw = w; field { sw = rw; } f; } c; };\n\
fine\n\
addrmap a { default foo; reg { field {} f; } c; };\n\
RdlProperty 1:13\n\
addrmap a { reg { field {} f; } c; c.f -> sw = r; c.f -> sw = w; };\n\
RdlProperty 1:51\n\
addrmap a { reg { field {} f; } c[2]; c[0].f -> sw = r; c[1].f -> sw = w; c[0x0].f -> sw = w; };\n\
RdlProperty 1:75\n\
addrmap a { reg { field {} f; } c; c.f -> foo = r; };\n\
RdlProperty 1:36\n\
addrmap a { reg { field { reset = 1; } f = 0; } c; };\n\
RdlProperty 1:42\n\
addrmap a { reg { field { reset = 1; } f; } c; };\n\
fine\n\
field q { reset = 1; }; addrmap a { reg { q f, g = 0; } c; };\n\
RdlProperty 1:50\n\
addrmap a { reg { field {} f; } c = 0; };\n\
RdlProperty 1:35\n\
addrmap a { enum e { x { name = \"x\"; sw = r; }; }; };\n\
RdlProperty 1:38\n\
addrmap a { enum e { x { name = \"x\"; name = \"y\"; }; y { name = \"y\"; }; }; };\n\
RdlProperty 1:38\n\
addrmap a { reg { field { sw = maybe; } f; } c; };\n\
RdlValue 1:27\n\
addrmap a { reg { field { sw; } f; } c; };\n\
RdlValue 1:27\n\
addrmap a { reg { field { sw = \"r\"; } f; } c; };\n\
RdlValue 1:27\n\
addrmap a { reg { regwidth = 24; field {} f; } c; };\n\
RdlValue 1:19\n\
addrmap a { reg { regwidth = 128; accesswidth = 32; field {} f; } c; };\n\
fine\n\
addrmap a { reg { accesswidth = 64; field {} f; } c; };\n\
RdlValue 1:19\n\
addrmap a { addressing = compact; reg { field {} f; } c; };\n\
RdlValue 1:13\n\
addrmap a { addressing = regalign; lsb0; reg { field {} f; } c; };\n\
fine\n\
addrmap a { lsb0 = false; reg { field {} f; } c; };\n\
RdlValue 1:13\n\
addrmap a { reg { field { fieldwidth = 32; } f; } c; };\n\
fine\n\
addrmap a { reg { field { fieldwidth = 33; } f; } c; };\n\
RdlValue 1:27\n\
addrmap a { reg { field { reset = true; } f; } c; };\n\
RdlValue 1:27\n\
addrmap a { reg { field { encode = e; swmod; singlepulse = false; hwset = true; } f; } c; };\n\
fine\n\
addrmap a { reg { field { we = g; } f; field {} g; } c; };\n\
RdlValue 1:27\n\
addrmap a { default we = g; reg { field {} f; field {} g; } c; };\n\
RdlValue 1:13\n\
addrmap a { reg { field {} f; field {} g; f -> we = g->ored; f -> hwmask = g; } c; };\n\
fine\n\
addrmap a { reg { field {} f; field {} g; f -> hwmask = g->ored; } c; };\n\
RdlValue 1:43\n\
addrmap a { reg { field {} f; field {} g; f -> we = g->swmod; } c; };\n\
RdlValue 1:43\n\
addrmap a { reg { field {} f; field {} g; f -> swmod = g; } c; };\n\
RdlValue 1:43\n\
addrmap a { reg { field { counter; incrvalue = 1; decrvalue = 0; } f; } c; };\n\
RdlValue 1:51\n\
addrmap a { reg { field {} f @ 4; } c; };\n\
RdlValue 1:28\n\
addrmap a { reg { field {} f; } c @ 4 %= 8; };\n\
RdlValue 1:33\n\
addrmap a { reg { field {} f; } c[3:0]; };\n\
RdlValue 1:33\n\
addrmap a { reg { field {} f[0:3]; } c; };\n\
RdlValue 1:28\n\
addrmap a { reg { field {} f[3:0], g[7:7]; } c; };\n\
fine\n\
addrmap a { reg { field {} f; } c += 8; };\n\
RdlValue 1:33\n\
addrmap a { reg { field {} f; } c[2] @ 0x10 += 8, d %= 16; };\n\
fine\n\
addrmap a { reg { field {} f; } c[0]; };\n\
RdlValue 1:33\n\
addrmap a { reg { field {} f[0]; } c; };\n\
RdlValue 1:28\n\
addrmap a { reg { field {} f; } c[2] += 0; };\n\
RdlValue 1:33\n\
addrmap a { reg { field {} f; } c %= 0; };\n\
RdlValue 1:33\n\
reg q { field {} f; }; addrmap a { q c, d[1:0]; };\n\
RdlValue 1:41\n\
addrmap a { enum e { x { name = 1; }; }; };\n\
RdlValue 1:26\n\
addrmap a { reg { field { sw = 1; } f; field { foo; } g; } c; };\n\
RdlProperty 1:48\n\
";

#[test]
fn the_least_fault_is_refused_at_its_place(rt: HostRuntime) -> Result<(), Fail> {
    let mut text = b"".as_slice();
    for (number, line) in CASES.split(|byte| *byte == b'\n').enumerate() {
        if number % 2 == 0 {
            text = line;
        } else {
            let found = answer(rt.alloc(), text)?;
            assert_eq!(rt;
                found.as_bytes(),
                line,
                "the description in line {number} of the table"
            );
        }
    }
    let lines = b"addrmap a {\n  reg { field {} f; } c;\n  c.g -> reset = 0;\n};";
    let found = answer(rt.alloc(), lines.as_slice())?;
    assert_eq!(rt; found.as_str(), "RdlName 3:3");
    Ok(())
}
