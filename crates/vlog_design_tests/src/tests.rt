//! Designs, and what is answered of them.

use crate::draft::Draft;
use bit_base::text::Text;
use flat_raw::raw::RawDesign;
use std::alloc::{AllocError, Global};
use std::string::String;
use std::test::Fail;
use std::vec::Vec;
use vlog_design::design::Design;
use vlog_tree::fault::VlogFault;

fn drafted(alloc: Global, text: &[u8]) -> Result<Option<RawDesign>, AllocError> {
    let mut draft = Draft::new(alloc);
    for word in text.split(|byte| *byte == b' ') {
        draft.read(alloc, word)?;
    }
    let Draft { nets, items, .. } = draft;
    RawDesign::of(alloc, nets, items)
}

/// The nets are named by letters: their numbers.
fn numbers_of(alloc: Global, names: &[Text]) -> Result<Vec<u8>, AllocError> {
    let mut numbers = Vec::new(alloc);
    for name in names {
        match name.as_bytes() {
            [letter] => numbers.push(letter.wrapping_sub(b'a'))?,
            _ => numbers.push(255)?,
        }
    }
    Ok(numbers)
}

fn accepted(alloc: Global, design: &Design) -> Result<String, AllocError> {
    let (order, clock, cost) = (design.order.as_slice(), design.clock, design.cost);
    match design.reset {
        None => format!(in alloc; "{order:?} {clock:?} None {cost}"),
        Some(reset) => {
            let (net, high) = (reset.net, reset.high);
            format!(in alloc; "{order:?} {clock:?} {net} {high} {cost}")
        }
    }
}

fn answer(alloc: Global, text: &[u8]) -> Result<String, AllocError> {
    let Some(raw) = drafted(alloc, text)? else {
        return String::from_str(alloc, "unfit");
    };
    match Design::check(alloc, raw) {
        Ok(design) => accepted(alloc, &design),
        Err(VlogFault::NoMemory) => String::from_str(alloc, "no memory"),
        Err(
            VlogFault::At {
                code,
                place,
                names,
                path,
            },
        ) => {
            let names = numbers_of(alloc, names.as_slice())?;
            let (line, names, path) = (place.line, names.as_slice(), path.as_slice());
            format!(in alloc; "{code:?} {line} {names:?} {path:?}")
        }
    }
}

/// Designs, each with what is answered of it in the line behind it: the order, the clock, the reset and its level, and the cost; or the
/// code, the line, the nets and the path.
const CASES: &[u8] = b"\n\
[] None None 1\n\
I1 W1 o n0 A1\n\
[0] None None 2\n\
I8 I8 W8 o n0 n1 + A2\n\
[0] None None 97\n\
I1 W1 o W1 n2 A1 n0 A2\n\
[1, 0] None None 2\n\
I1 I1 R8 o I8 n0 n3 s2 r0 K\n\
VlogRace 1 [2] []\n\
I1 I8 R8 o n1 d2 r0 K\n\
[] Some(0) None 18\n\
I1 I1 I8 R8 o n1 ! k0:8 d3 n2 d3 e r0 l1 K\n\
[] Some(0) 1 false 47\n\
I1 I1 I8 R8 o n1 k0:8 d3 n2 d3 e l1 r0 K\n\
VlogClock 1 [1] []\n\
I1 I1 I8 R8 o n1 k0:8 d3 n2 d3 e r0 r1 K\n\
[] Some(0) 1 true 44\n\
I1 W1 I1 R1 o n0 C1 n2 d3 r1 K\n\
[0] Some(0) None 4\n\
I1 W1 W1 I1 R1 o n1 C2 n0 C1 n3 d4 r2 K\n\
[1, 0] Some(0) None 4\n\
I1 I1 W1 o n0 n1 s2 k0:1 s2 e P\n\
[0] None None 7\n\
I2 W1 o n0 k0:2 k0:1 s1 m k1:2 k1:1 s1 m k2:2 k0:1 s1 m k3:2 k1:1 s1 m c P\n\
[0] None None 47\n\
I2 W1 o n0 k0:2 k0:1 s1 m k1:1 s1 g P\n\
[0] None None 14\n\
I8 W4 W4 o n0 j2 j1 B n1 k1:4 & s2 P\n\
VlogDrive 2 [2] []\n\
I8 I3 W1 o n1 x0:1 A2\n\
[0] None None 188\n\
I8 W8 o k0:3 k0:8 s1 P\n\
[0] None None 9\n\
I3 I1 W8 o k0:8 s2 n1 n0 t2:1 i ; P\n\
[0] None None 109\n\
H4 W4 o n0 A1\n\
[0] None None 5\n\
I1 I1 R4 R4 o n1 z4 n2 + s2 n2 d3 ; r0 K\n\
[] Some(0) None 51\n\
I1 I8 I8 R8 o n1 n2 * d3 r0 K\n\
[] Some(0) None 794\n\
I8 I8 W1 o n0 n1 < A2\n\
[0] None None 97\n\
I8 W1 o n0 p A1\n\
[0] None None 33\n\
I1 I8 I8 W8 o n0 n1 n2 ? A3\n\
[0] None None 43\n\
I8 W4 o k4:8 x0:4 A1\n\
[0] None None 9\n\
I8:4 W4 o k4:8 x0:4 A1\n\
[0] None None 9\n\
I1 I1 R1 o n1 d2 l0 K\n\
VlogClock 1 [0] []\n\
I1 I1 R1 o n1 d2 v0 K\n\
VlogClock 1 [0] []\n\
I1 I1 I1 I1 R1 o n3 d4 r0 r1 r2 K\n\
VlogClock 1 [0] []\n\
I1 W1 I1 R1 o n0 ! A1 n2 d3 r1 K\n\
VlogClock 2 [1] []\n\
I1 I1 I1 R1 o R1 o n2 d3 r0 K n2 d4 r1 K\n\
VlogClock 2 [1] []\n\
I1 I1 I1 R1 o n2 d3 r0 r1 K\n\
VlogClock 1 [0] []\n\
I1 I1 I1 R1 o n1 k0:1 d3 n2 d3 e r0 l1 K\n\
VlogClock 1 [0] []\n\
I1 I1 I1 I1 R1 o R1 o n1 k0:1 d4 n3 d4 e r0 r1 K n2 k0:1 d5 n3 d5 e r0 r2 K\n\
VlogClock 2 [2] []\n\
I1 I1 I1 R1 o R1 o n1 k0:1 d3 n2 d3 e r0 r1 K n1 ! k0:1 d4 n2 d4 e r0 l1 K\n\
VlogClock 2 [1] []\n\
I1 I1 R1 o W1 o n1 d2 r0 K n0 n1 & A3\n\
VlogClock 2 [0] []\n\
I1 W1 I1 R1 o W1 o n0 C1 n2 d3 r1 K n1 ! A4\n\
VlogClock 3 [0] []\n\
I1 I1 R1 o W1 n0 C3 L9 n1 d2 r0 K L4 n3 d2 l3 K\n\
VlogClock 4 [0] []\n\
I1 I1 R1 o R1 o W1 n0 C4 L9 n1 d2 r0 K L4 n1 d3 l4 K\n\
VlogClock 4 [4] []\n\
I1 W1 o n0 A1 n0 ! A1\n\
VlogDrive 2 [1] []\n\
I1 W1 o W1 o L7 n0 A1 L3 n0 A1 n0 A2\n\
VlogDrive 3 [1] []\n\
I1 W1 o L7 n0 A1 L3 n0 A1\n\
VlogDrive 3 [1] []\n\
I2 W1 o n0 j1 j1 B\n\
VlogDrive 1 [1] []\n\
I1 W1 W1 o n1 A2\n\
VlogDrive 1 [1] []\n\
I1 W1 o\n\
VlogDrive 0 [1] []\n\
I1 W1 W1 o\n\
VlogDrive 0 [2] []\n\
I1 I1 W1 o n0 A1 n0 A2\n\
VlogDrive 1 [1] []\n\
I8 W8 o k0:3 k0:8 n0 A1 n0 A1\n\
VlogDrive 2 [1] []\n\
I4 W8 o n0 k0:3 t1:4 B\n\
VlogDrive 0 [1] []\n\
I4 W8 o n0 k0:3 t1:4 B n0 k4:3 t1:4 B\n\
[0, 1] None None 5\n\
I4 W8 o n0 k0:3 t1:4 B n0 k3:3 t1:4 B\n\
VlogDrive 2 [1] []\n\
I1 W1 o n0 s1 P n0 s1 P\n\
VlogDrive 2 [1] []\n\
I1 W1 o n0 d1 P\n\
VlogRace 1 [1] []\n\
I1 I1 R1 o n1 s2 n1 d2 ; r0 K\n\
VlogRace 1 [2] []\n\
I1 I1 R1 W1 o n1 s2 r0 K n2 A3\n\
VlogRace 1 [2] []\n\
I1 I1 R1 o n1 s2 r0 K\n\
VlogRace 1 [2] []\n\
I1 I1 R1 R1 o n1 s2 n2 d3 ; r0 K\n\
[] Some(0) None 5\n\
I1 I1 R1 R1 o n1 s2 r0 K n2 d3 r0 K\n\
VlogRace 1 [2] []\n\
I1 I1 W1 o n0 n1 s2 f P\n\
VlogLatch 1 [2] [1]\n\
I2 W1 o n0 k0:2 k0:1 s1 m k1:2 k1:1 s1 m k2:2 k0:1 s1 m c P\n\
VlogLatch 1 [1] [3]\n\
I2 W1 o n0 k0:2 k0:1 s1 m k1:2 . m k2:2 k0:1 s1 m k3:2 k1:1 s1 m c P\n\
VlogLatch 1 [1] [1]\n\
I2 W1 o n0 k0:2 k0:1 s1 m . g P\n\
VlogLatch 1 [1] [1]\n\
I9 W1 o n0 k0:9 k0:1 s1 m c P\n\
VlogLatch 1 [1] [1]\n\
I1 I1 W1 o n0 n1 n0 s2 f . e P\n\
VlogLatch 1 [2] [0, 1]\n\
I3 I1 W8 o n1 n0 t2:1 i P\n\
VlogLatch 1 [2] []\n\
I1 I1 W1 o W1 o n0 n1 s3 n1 s2 ; f P\n\
VlogLatch 1 [2] [1]\n\
I1 I1 W1 o W1 o L5 n0 n1 s2 f P L2 n0 n1 s3 . e P\n\
VlogLatch 2 [3] [1]\n\
I1 W1 W1 o n2 A1 n1 A2\n\
VlogLoop 1 [1, 2] []\n\
W1 o n0 A0\n\
VlogLoop 1 [0] []\n\
I1 W1 W1 W1 o n3 A1 n1 A2 n2 A3\n\
VlogLoop 1 [1, 3, 2] []\n\
I1 W1 W1 o W1 L9 n2 A1 L5 n1 A2 L3 n3 A3\n\
VlogLoop 3 [3] []\n\
I1 W1 W1 o n1 s2 n0 s1 ; P\n\
VlogLoop 1 [1] []\n\
I1 W2 o k0:1 x1:1 k1:1 t1:1 B n0 k0:1 t1:1 B\n\
[1, 0] None None 2\n\
I1 W2 o k0:1 x1:1 k0:1 t1:1 B n0 k1:1 t1:1 B\n\
VlogLoop 1 [1] []\n\
I1 W1 W1 o n2 s1 n0 s1 e P n1 A2\n\
VlogLoop 1 [1, 2] []\n\
I1 W1 W1 o n2 A1 n1 A2 n1 A2\n\
VlogDrive 3 [2] []\n\
I1 I1 W1 W1 o n0 n3 s2 f P n2 A3\n\
VlogLatch 1 [2] [1]\n\
I1 I1 W1 o n0 n1 s2 f P n0 A2\n\
VlogDrive 2 [2] []\n\
I1 I1 W1 o n0 n1 d2 f P\n\
VlogRace 1 [2] []\n\
I1 I1 W1 o R1 o n1 d3 l0 K\n\
VlogClock 1 [0] []\n\
I1 I1024 R1024 o R1024 o R1024 o R1024 o n1 d2 n1 d3 ; n1 d4 n1 d5 ; ; r0 K\n\
[] Some(0) None 5122\n\
I1 I1024 R1024 o R1024 o R1024 o R1024 o R1 o n1 d2 n1 d3 ; n1 d4 n1 d5 ; ; k0:1 d6 ; r0 K\n\
VlogSize 0 [] []\n\
I64 I64 W64 o n0 n1 * n1 * A2\n\
[0] None None 98433\n\
I64 I64 W64 o I1024 I543 n0 n1 * n1 * A2\n\
[0] None None 100000\n\
I64 I64 W64 o I1024 I544 n0 n1 * n1 * A2\n\
VlogSize 0 [] []\n\
I64 I64 W64 o n0 n1 * n1 * n1 * n1 * A2\n\
VlogSize 0 [] []\n\
I8 W4 o n0 A1\n\
unfit\n\
I8 W8 n0 A2\n\
unfit\n\
W0\n\
unfit\n\
W1025\n\
unfit\n\
I8 R8 o n0 A1\n\
unfit\n\
H4 k0:4 A0\n\
unfit\n\
I8 W4 o k5:8 x0:4 A1\n\
unfit";

#[test]
fn designs_are_accepted_or_refused(rt: HostRuntime) -> Result<(), Fail> {
    let mut text = b"".as_slice();
    for (number, line) in CASES.split(|byte| *byte == b'\n').enumerate() {
        if number % 2 == 0 {
            text = line;
        } else {
            let found = answer(rt.alloc(), text)?;
            assert_eq!(rt;
                found.as_str().as_bytes(),
                line,
                "the design in line {number} of the table"
            );
        }
    }
    Ok(())
}
