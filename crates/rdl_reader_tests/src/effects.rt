//! What the effective values of descriptions are refused for: the first place by each of the two codes.

use bit_base::place::Place;
use rdl_effects::effect::{Effect, first_conflict};
use rdl_effects::limit::has_too_many;
use rdl_parse::parse_rdl;
use rdl_tree::scan::scan_rdl;
use std::alloc::Global;
use std::test::Fail;

/// A place as it is written in the table.
fn shown(alloc: Global, place: Option<Place>) -> Result<String, Fail> {
    match place {
        None => Ok(String::from_str(alloc, "-")?),
        Some(place) => {
            let (line, column) = (place.line, place.column);
            Ok(format!(in alloc; "{line}:{column}")?)
        }
    }
}

/// Where properties of a description exclude each other, and where values don't fit.
fn answer(alloc: Global, text: &[u8]) -> Result<String, Fail> {
    let tokens = scan_rdl(alloc, text)?;
    let file = parse_rdl(alloc, &tokens)?;
    let torn = shown(alloc, first_conflict(alloc, &file, Effect::Properties)?)?;
    let misfit = shown(alloc, first_conflict(alloc, &file, Effect::Values)?)?;
    let (torn, misfit) = (torn.as_str(), misfit.as_str());
    Ok(format!(in alloc; "{torn} {misfit}")?)
}

/// Descriptions, each with what is answered of it in the line behind it.
const CASES: &[u8] = b"addrmap a { reg { field {} f; } c; };\n\
- -\n\
\n\
- -\n\
addrmap a { reg { field { we; wel; } f; } c; };\n\
1:38 -\n\
addrmap a { reg { field { we; wel = false; } f; } c; };\n\
- -\n\
addrmap a { default wel; reg { field { we; } f; } c; };\n\
1:46 -\n\
addrmap a { reg { field { we; } f; default wel; } c; };\n\
- -\n\
addrmap a { reg { field { we; } f; } c; c.f -> wel; };\n\
1:33 -\n\
addrmap a { reg { field { we; } f; f -> wel; } c; c.f -> wel = false; };\n\
- -\n\
addrmap a { reg { field { we; } f; f -> wel = false; } c; c.f -> wel; };\n\
1:33 -\n\
addrmap a { reg { field { swwe; swwel; } f; } c; };\n\
1:42 -\n\
addrmap a { reg { field { intr; enable; mask; } f; } c; };\n\
- 1:49\n\
addrmap a { reg { field { intr; } f = 0; field {} g = 0; f -> enable = g; f -> mask = g; } c; };\n\
1:35 -\n\
addrmap a { reg { field { intr; sticky; stickybit; } f = 0; } c; };\n\
1:54 -\n\
addrmap a { reg { field { fieldwidth = 4; } f[4]; } c; };\n\
- -\n\
addrmap a { reg { field { fieldwidth = 5; } f[4]; } c; };\n\
- 1:45\n\
addrmap a { reg { field { fieldwidth = 4; } f[7:4] = 15; } c; };\n\
- -\n\
addrmap a { reg { field { fieldwidth = 4; } f = 16; } c; };\n\
- 1:45\n\
addrmap a { reg { field {} f = 2; } c; };\n\
- 1:28\n\
addrmap a { reg { field {} f; } c; c.f -> reset = 2; };\n\
- 1:28\n\
addrmap a { reg { field {} f = 2; } c; c.f -> reset = 1; };\n\
- -\n\
addrmap a { default reset = 2; reg { field {} f = 1; } c; };\n\
- -\n\
addrmap a { default reset = 2; reg { field {} f; } c; };\n\
- 1:47\n\
reg r { field {} f; }; addrmap a { default reset = 2; r c; };\n\
- -\n\
default reset = 2; reg r { field {} f; }; addrmap a { r c; };\n\
- 1:37\n\
addrmap a { reg { field { singlepulse; } f = 0; } c; };\n\
- -\n\
addrmap a { reg { field { singlepulse; } f = 1; } c; };\n\
- 1:42\n\
addrmap a { reg { field { singlepulse; } f[2] = 0; } c; };\n\
- 1:42\n\
addrmap a { reg { field { singlepulse; sw = r; } f = 0; } c; };\n\
- 1:50\n\
addrmap a { reg { field { singlepulse; sw = w1; } f = 0; } c; };\n\
- 1:51\n\
addrmap a { reg { field { singlepulse; hw = w; } f = 0; } c; };\n\
- 1:50\n\
addrmap a { reg { field { singlepulse; rclr; } f = 0; } c; };\n\
- 1:48\n\
addrmap a { reg { field { singlepulse; rclr = false; } f = 0; } c; };\n\
- -\n\
addrmap a { reg { field { counter; } f = 0; } c; };\n\
- -\n\
addrmap a { reg { field { counter; } f; } c; };\n\
- 1:38\n\
addrmap a { reg { field { counter; incrvalue = 4; } f[2] = 0; } c; };\n\
- 1:53\n\
addrmap a { reg { field { counter; incrvalue = 3; } f[2] = 0; } c; };\n\
- -\n\
addrmap a { reg { field { incr; } f = 0; } c; };\n\
- 1:35\n\
addrmap a { reg { field { incr = false; } f = 0; } c; };\n\
- -\n\
addrmap a { reg { field { intr; hw = r; } f = 0; } c; };\n\
- 1:43\n\
addrmap a { reg { field { sticky; } f = 0; } c; };\n\
- 1:37\n\
addrmap a { reg { regwidth = 8; accesswidth = 16; field {} f; } c; };\n\
- 1:65\n\
addrmap a { reg { regwidth = 8; field {} f; } c; c -> accesswidth = 16; };\n\
- 1:47\n\
addrmap a { reg { field {} f = 0; field {} g[2] = 0; f -> we = g; } c; };\n\
- 1:54\n\
addrmap a { reg { field {} f = 0; field {} g[2] = 0; f -> we = g->ored; } c; };\n\
- -\n\
addrmap a { reg { field {} f = 0; field {} g[2] = 0; g -> hwmask = f; } c; };\n\
- 1:54\n\
addrmap a { reg { field {} f[2]; field {} g[2] = 0; g -> hwmask = f; } c; };\n\
- 1:53\n\
addrmap a { reg { field {} f = 0; field {} g[2] = 0; g -> hwmask = f; } c; c.f -> fieldwidth = 2; };\n\
- -\n\
reg r { field { we; wel; } f; }; addrmap b { r c; }; addrmap a {};\n\
- -\n\
";

#[test]
fn effective_values_are_refused_at_the_first_place(rt: HostRuntime) -> Result<(), Fail> {
    let mut text = b"".as_slice();
    for (number, line) in CASES.split(|byte| *byte == b'\n').enumerate() {
        if number % 2 == 0 {
            text = line;
        } else {
            let found = answer(rt.alloc(), text)?;
            assert_eq!(rt;
                found.as_bytes(),
                line,
                "the description in line {number} of the table"
            );
        }
    }
    Ok(())
}

/// Whether a description has too many instances.
fn is_large(alloc: Global, text: &[u8]) -> Result<bool, Fail> {
    let tokens = scan_rdl(alloc, text)?;
    let file = parse_rdl(alloc, &tokens)?;
    Ok(has_too_many(alloc, &file)?)
}

/// Descriptions with few enough instances and with too many, one behind the other.
const LARGE: &[u8] = b"addrmap a { regfile { reg { field {} f; } r[1023]; } x[1024]; };\n\
addrmap a { regfile { reg { field {} f; } r[1024]; } x[1024]; };\n\
addrmap a { reg { field {} f[8]; } r[1048576]; };\n\
addrmap a { reg { field {} f; } r[1048577]; };\n\
regfile b { reg { field {} f; } r[0xFFFFFFFFFFFFFFFF]; }; addrmap a {};\n\
regfile b { reg { field {} f; } r[0xFFFFFFFFFFFFFFFF]; }; addrmap a { b x; };\n\
";

#[test]
fn over_1048576_instances_are_too_many(rt: HostRuntime) -> Result<(), Fail> {
    for (number, line) in LARGE.split(|byte| *byte == b'\n').enumerate() {
        if !line.is_empty() {
            let large = is_large(rt.alloc(), line)?;
            assert_eq!(rt; large, number % 2 == 1, "the description in line {number}");
        }
    }
    Ok(())
}
