use bit_base::text::{Text, text_of};
use prove_top::{Status, run_tool};
use std::alloc::{AllocError, Global};
use std::process::Abort;
use std::test::Fail;
use std::vec::Vec;
use tool_edge::memory_depot::MemoryDepot;
use tool_edge::memory_sink::MemorySink;

const RDL: &[u8] = b"addrmap a { reg { regwidth=8; field { sw=rw; hw=r; } v[8]=0; } c; };\n";

const PORTS: &[u8] =
    b"clock clk\nreset rst_n low 1\npsel psel\npenable penable\npwrite pwrite\npaddr paddr\npwdata pwdata\nprdata prdata\npready pready\npslverr pslverr\nwait 0\nunmapped zero\n\nout c.v v\n";

const HEAD: &[u8] =
    b"module f(input clk, input rst_n, input psel, input penable, input pwrite,\n  input [1:0] paddr, input [7:0] pwdata, output [7:0] prdata,\n  output pready, output pslverr, output reg [7:0] v);\n  assign pready = 1'b1;\n  assign pslverr = 1'b0;\n  assign prdata = ";

const MIDDLE: &[u8] = b";\n  always @(posedge clk) v <= ";

const TAIL: &[u8] = b";\nendmodule\n";

/// The two expressions of a right block.
const READ_DATA: &str = "(v & (~{8{paddr[0]}} & ~{8{paddr[1]}}))";

const NEXT: &str =
    "({8{rst_n}} & (v ^ (({8{psel}} & ({8{penable}} & ({8{pwrite}} & (~{8{paddr[0]}} & ~{8{paddr[1]}})))) & (v ^ pwdata))))";

const COMMAND: &[u8] = b"prove a.rdl a.ports f.v";

/// The Verilog with these two expressions.
fn verilog(alloc: Global, read_data: &[u8], next: &[u8]) -> Result<Vec<u8>, AllocError> {
    let mut text = HEAD.to_vec(alloc)?;
    text.extend_from_slice(read_data)?;
    text.extend_from_slice(MIDDLE)?;
    text.extend_from_slice(next)?;
    text.extend_from_slice(TAIL)?;
    Ok(text)
}

/// A depot with the three files of the command, `f.v` with these two expressions.
fn depot(alloc: Global, read_data: &[u8], next: &[u8]) -> Result<MemoryDepot, AllocError> {
    let mut depot = MemoryDepot::new(alloc);
    depot.hold(text_of(alloc, b"a.rdl".as_slice())?, RDL.to_vec(alloc)?)?;
    depot.hold(text_of(alloc, b"a.ports".as_slice())?, PORTS.to_vec(alloc)?)?;
    depot.hold(
        text_of(alloc, b"f.v".as_slice())?,
        verilog(alloc, read_data, next)?,
    )?;
    Ok(depot)
}

/// The words of a command line, separated by single spaces.
fn words(alloc: Global, line: &[u8]) -> Result<Vec<Text>, AllocError> {
    let mut words = Vec::new(alloc);
    for word in line.split(|byte| *byte == b' ') {
        if !word.is_empty() {
            words.push(text_of(alloc, word)?)?;
        }
    }
    Ok(words)
}

/// Runs this command line, and looks at the status and at how what is put begins.
fn answers(
    rt: &impl Abort,
    alloc: Global,
    line: &[u8],
    depot: &mut MemoryDepot,
    status: Status,
    text: &[u8],
) -> Result<Vec<u8>, AllocError> {
    let mut out = MemorySink::new(alloc);
    let words = words(alloc, line)?;
    let ended = run_tool(alloc, &words, depot, &mut out);
    assert_eq!(rt; ended.status, status);
    assert!(rt; out.bytes().starts_with(text));
    out.bytes().to_vec(alloc)
}

/// A block whose PRDATA is PWDATA and whose register is always 0, under twenty seeds. The expected
/// lines come from a calculation of its own in another language, from the published xoshiro256++ and
/// SplitMix64.
#[test]
fn each_seed_shows_its_first_difference(rt: HostRuntime) -> Result<(), Fail> {
    let alloc = rt.alloc();
    for (seed, line) in [
        ("0", "refuted edge=3 readdata\nrdltrace 1\n"),
        ("1", "refuted edge=6 output c.v\nrdltrace 1\n"),
        ("2", "refuted edge=17 readdata\nrdltrace 1\n"),
        ("3", "refuted edge=3 readdata\n"),
        ("4", "refuted edge=3 readdata\n"),
        ("5", "refuted edge=11 output c.v\n"),
        ("6", "refuted edge=2 readdata\n"),
        ("7", "refuted edge=7 output c.v\n"),
        ("8", "refuted edge=3 readdata\n"),
        ("9", "refuted edge=2 readdata\n"),
        ("10", "refuted edge=8 readdata\n"),
        ("11", "refuted edge=9 output c.v\n"),
        ("12", "refuted edge=4 output c.v\n"),
        ("13", "refuted edge=5 readdata\n"),
        ("14", "refuted edge=2 readdata\n"),
        ("15", "refuted edge=2 readdata\n"),
        ("16", "refuted edge=4 readdata\n"),
        ("17", "refuted edge=4 readdata\n"),
        ("12345678901", "refuted edge=3 output c.v\n"),
        ("18446744073709551615", "refuted edge=3 output c.v\n"),
    ] {
        let mut depot = depot(alloc, b"pwdata".as_slice(), b"8'h00".as_slice())?;
        let words = format!(in alloc; "prove a.rdl a.ports f.v --seed {seed}")?;
        answers(
            &rt,
            alloc,
            words.as_bytes(),
            &mut depot,
            Status::No,
            line.as_bytes(),
        )?;
    }
    Ok(())
}

/// A right block has no difference, and one that takes a wrong value at the reset edge shows it at
/// edge 1, in a trace of five lines, under each of fifty seeds.
#[test]
fn right_and_wrong_blocks_are_told_apart(rt: HostRuntime) -> Result<(), Fail> {
    let alloc = rt.alloc();
    let wrong = format!(in alloc; "({NEXT} | (~{{8{{rst_n}}}} & 8'h01))")?;
    for seed in 0..50u8 {
        let words = format!(in alloc; "prove a.rdl a.ports f.v --seed {seed}")?;
        let mut depot = depot(alloc, READ_DATA.as_bytes(), NEXT.as_bytes())?;
        let text = answers(
            &rt,
            alloc,
            words.as_bytes(),
            &mut depot,
            Status::Unknown,
            b"unknown simulated\n".as_slice(),
        )?;
        assert_eq!(rt; text.len(), 18);
        let mut depot = self::depot(alloc, READ_DATA.as_bytes(), wrong.as_bytes())?;
        let text = answers(
            &rt,
            alloc,
            words.as_bytes(),
            &mut depot,
            Status::No,
            b"refuted edge=1 output c.v\nrdltrace 1\nstart v ".as_slice(),
        )?;
        assert_eq!(rt; text.iter().filter(|byte| **byte == b'\n').count(), 6);
        assert!(rt; text.ends_with(b"\nend\n".as_slice()));
        assert!(rt; text.len() > 54);
        assert!(rt; text[53..].starts_with(b"\nedge rst_n=0 psel=0 penable=".as_slice()));
    }
    Ok(())
}

/// Words, files and failures of the outside, each with its status and its text.
#[test]
fn each_row_has_its_answer(rt: HostRuntime) -> Result<(), Fail> {
    let alloc = rt.alloc();
    for (line, status, text) in [
        (
            "",
            Status::Usage,
            "usage: rdlprove prove, check, replay, map, sample or equal\n",
        ),
        (
            "equal",
            Status::Usage,
            "usage: rdlprove prove, check, replay, map, sample or equal\n",
        ),
        (
            "equal a.rdl a.ports a.v b.v",
            Status::Usage,
            "usage: rdlprove prove, check, replay, map, sample or equal\n",
        ),
        (
            "--help",
            Status::Usage,
            "usage: rdlprove prove, check, replay, map, sample or equal\n",
        ),
        (
            "prove",
            Status::Usage,
            "usage: rdlprove prove, check, replay, map, sample or equal\n",
        ),
        (
            "prove a.rdl a.ports",
            Status::Usage,
            "usage: rdlprove prove, check, replay, map, sample or equal\n",
        ),
        (
            "prove a.rdl a.ports --seed 1",
            Status::Usage,
            "usage: rdlprove prove, check, replay, map, sample or equal\n",
        ),
        (
            "prove --seed 1 a.rdl a.ports f.v",
            Status::Usage,
            "usage: rdlprove prove, check, replay, map, sample or equal\n",
        ),
        (
            "prove a.rdl a.ports f.v --seed",
            Status::Usage,
            "usage: rdlprove prove, check, replay, map, sample or equal\n",
        ),
        (
            "prove a.rdl a.ports f.v --seed 01",
            Status::Usage,
            "usage: rdlprove prove, check, replay, map, sample or equal\n",
        ),
        (
            "prove a.rdl a.ports f.v --seed 18446744073709551616",
            Status::Usage,
            "usage: rdlprove prove, check, replay, map, sample or equal\n",
        ),
        (
            "prove a.rdl a.ports f.v --seed 1 --seed 1",
            Status::Usage,
            "usage: rdlprove prove, check, replay, map, sample or equal\n",
        ),
        (
            "prove a.rdl a.ports f.v --bound 0",
            Status::Usage,
            "usage: rdlprove prove, check, replay, map, sample or equal\n",
        ),
        (
            "prove a.rdl a.ports f.v --bound 33",
            Status::Usage,
            "usage: rdlprove prove, check, replay, map, sample or equal\n",
        ),
        (
            "prove a.rdl a.ports f.v --budget 200001",
            Status::Usage,
            "usage: rdlprove prove, check, replay, map, sample or equal\n",
        ),
        (
            "prove a.rdl a.ports f.v --guards",
            Status::Usage,
            "usage: rdlprove prove, check, replay, map, sample or equal\n",
        ),
        (
            "prove a.rdl a.ports f.v --trace --seed",
            Status::Usage,
            "usage: rdlprove prove, check, replay, map, sample or equal\n",
        ),
        (
            "prove a.rdl a.ports --v",
            Status::Usage,
            "usage: rdlprove prove, check, replay, map, sample or equal\n",
        ),
        (
            "prove a b c d e f g h i j k l m n o p q r s",
            Status::Usage,
            "usage: rdlprove prove, check, replay, map, sample or equal\n",
        ),
        (
            "check a.cert a.rdl a.ports",
            Status::Usage,
            "usage: rdlprove prove, check, replay, map, sample or equal\n",
        ),
        (
            "check a.cert a.rdl a.ports a.v --seed 1",
            Status::Usage,
            "usage: rdlprove prove, check, replay, map, sample or equal\n",
        ),
        (
            "replay t.trace a.rdl a.ports",
            Status::Usage,
            "usage: rdlprove prove, check, replay, map, sample or equal\n",
        ),
        (
            "map",
            Status::Usage,
            "usage: rdlprove prove, check, replay, map, sample or equal\n",
        ),
        (
            "map a.rdl b.rdl",
            Status::Usage,
            "usage: rdlprove prove, check, replay, map, sample or equal\n",
        ),
        (
            "sample",
            Status::Usage,
            "usage: rdlprove prove, check, replay, map, sample or equal\n",
        ),
        (
            "sample -1",
            Status::Usage,
            "usage: rdlprove prove, check, replay, map, sample or equal\n",
        ),
        (
            "sample 01",
            Status::Usage,
            "usage: rdlprove prove, check, replay, map, sample or equal\n",
        ),
        (
            "prove a.rdl a.ports f.v g.v",
            Status::Refused,
            "refused 801 words:0:0 NotYet\n",
        ),
        (
            "prove a b c d e f g h i j k l m n o p q r",
            Status::Refused,
            "refused 801 words:0:0 NotYet\n",
        ),
        (
            "prove a.rdl a.ports f.v --bound 32",
            Status::Refused,
            "refused 801 words:0:0 NotYet\n",
        ),
        (
            "prove a.rdl a.ports f.v --budget 200000 --seed 1 --bound 1",
            Status::Refused,
            "refused 801 words:0:0 NotYet\n",
        ),
        (
            "prove a.rdl a.ports f.v --cert c",
            Status::Refused,
            "refused 801 words:0:0 NotYet\n",
        ),
        (
            "check a.cert a.rdl a.ports a.v",
            Status::Refused,
            "refused 801 words:0:0 NotYet\n",
        ),
        ("map a.rdl", Status::Yes, "00000000 c.v [7:0] RW 00\n"),
        (
            "map g.rdl",
            Status::Refused,
            "refused 701 g.rdl:0:0 NoFile\n",
        ),
        (
            "map a.ports",
            Status::Refused,
            "refused 102 a.ports:2:1 RdlSyntax\n",
        ),
        (
            "sample 0",
            Status::Refused,
            "refused 801 words:0:0 NotYet\n",
        ),
        (
            "prove a.rdl a.ports g.v",
            Status::Refused,
            "refused 701 g.v:0:0 NoFile\n",
        ),
        (
            "prove a.rdl a.rdl f.v",
            Status::Refused,
            "refused 801 a.rdl:0:0 NotYet\n",
        ),
        (
            "prove a.rdl a.ports a.ports",
            Status::Refused,
            "refused 801 a.ports:0:0 NotYet\n",
        ),
        (
            "prove a.rdl a.ports f.v",
            Status::No,
            "refuted edge=6 output c.v\n",
        ),
    ] {
        let mut depot = depot(alloc, b"pwdata".as_slice(), b"8'h00".as_slice())?;
        answers(
            &rt,
            alloc,
            line.as_bytes(),
            &mut depot,
            status,
            text.as_bytes(),
        )?;
    }
    let mut failing = depot(alloc, b"v".as_slice(), b"v".as_slice())?;
    failing.fail_at(2)?;
    answers(
        &rt,
        alloc,
        COMMAND,
        &mut failing,
        Status::Fault,
        b"fault read a.ports\n".as_slice(),
    )?;
    let mut depot = depot(alloc, b"v".as_slice(), b"v".as_slice())?;
    let mut out = MemorySink::new(alloc);
    out.fail_at(1)?;
    let words = words(alloc, COMMAND)?;
    let ended = run_tool(alloc, &words, &mut depot, &mut out);
    assert_eq!(rt; ended.status, Status::Fault);
    assert_eq!(rt; ended.status.number(), 5);
    assert!(rt; out.bytes().is_empty());
    Ok(())
}

/// A trace of a read of 0 from address 0.
const TRACE: &str =
    "rdltrace 1\nstart v 00000000\nedge rst_n=0 psel=0 penable=0 pwrite=0 paddr=00 pwdata=00000000\nedge rst_n=1 psel=1 penable=0 pwrite=0 paddr=00 pwdata=00000000\nedge rst_n=1 psel=1 penable=1 pwrite=0 paddr=00 pwdata=00000000\nend\n";

/// A right block under traces, legal and not, and under another reset value; and the trace that `prove`
/// puts for a wrong block.
#[test]
fn traces_are_replayed(rt: HostRuntime) -> Result<(), Fail> {
    let alloc = rt.alloc();
    let line = b"replay t.trace a.rdl a.ports f.v".as_slice();
    for (trace, status, text) in [
        (TRACE, Status::Yes, "agrees edges=3\n"),
        (
            "rdltrace 1\nstart v 00000000\nend\n",
            Status::Yes,
            "agrees edges=0\n",
        ),
        (
            "rdltrace 1\nstart v 00000000\nedge rst_n=0 psel=0 penable=0 pwrite=0 paddr=00 pwdata=00000000\nedge rst_n=1 psel=1 penable=0 pwrite=0 paddr=00 pwdata=00000000\nedge rst_n=1 psel=0 penable=1 pwrite=0 paddr=00 pwdata=00000000\nend\n",
            Status::Refused,
            "refused 503 t.trace:5:1 TraceIllegal\n",
        ),
        (
            "rdltrace 1\nstart v 00000000\nedge rst_n=0 psel=0 penable=0 pwrite=0 paddr=00 pwdata=00000000\n",
            Status::Refused,
            "refused 501 t.trace:4:1 TraceLine\n",
        ),
        (
            "rdltrace 1\nstart w 00000000\nend\n",
            Status::Refused,
            "refused 502 t.trace:2:1 TraceName\n",
        ),
        (
            "rdltrace 1\nstart v 00000000\nedge rst_n=1 psel=0 penable=0 pwrite=0 paddr=00 pwdata=00000000\nend\n",
            Status::Refused,
            "refused 503 t.trace:3:1 TraceIllegal\n",
        ),
    ] {
        let mut depot = depot(alloc, READ_DATA.as_bytes(), NEXT.as_bytes())?;
        depot.hold(
            text_of(alloc, b"t.trace".as_slice())?,
            trace.as_bytes().to_vec(alloc)?,
        )?;
        answers(&rt, alloc, line, &mut depot, status, text.as_bytes())?;
    }
    let mut three = depot(alloc, READ_DATA.as_bytes(), NEXT.as_bytes())?;
    three.hold(
        text_of(alloc, b"a.rdl".as_slice())?,
        b"addrmap a { reg { regwidth=8; field { sw=rw; hw=r; } v[8]=3; } c; };\n"
            .as_slice()
            .to_vec(alloc)?,
    )?;
    three.hold(
        text_of(alloc, b"t.trace".as_slice())?,
        TRACE.as_bytes().to_vec(alloc)?,
    )?;
    let differs = b"differs edge=1 output c.v\n".as_slice();
    answers(&rt, alloc, line, &mut three, Status::No, differs)?;
    let wrong = format!(in alloc; "({NEXT} | (~{{8{{rst_n}}}} & 8'h01))")?;
    let mut depot = depot(alloc, READ_DATA.as_bytes(), wrong.as_bytes())?;
    let refuted = b"refuted edge=1 output c.v\n".as_slice();
    let text = answers(&rt, alloc, COMMAND, &mut depot, Status::No, refuted)?;
    depot.hold(
        text_of(alloc, b"t.trace".as_slice())?,
        text[refuted.len().min(text.len())..].to_vec(alloc)?,
    )?;
    answers(&rt, alloc, line, &mut depot, Status::No, differs)?;
    Ok(())
}

/// A trace with this many edges without a transfer after the reset edge.
fn idle_trace(alloc: Global, edges: u8) -> Result<Vec<u8>, AllocError> {
    let mut text =
        b"rdltrace 1\nstart v 00000000\nedge rst_n=0 psel=0 penable=0 pwrite=0 paddr=00 pwdata=00000000\n"
            .as_slice()
            .to_vec(alloc)?;
    for _edge in 0..edges {
        text.extend_from_slice(
            b"edge rst_n=1 psel=0 penable=0 pwrite=0 paddr=00 pwdata=00000000\n".as_slice(),
        )?;
    }
    text.extend_from_slice(b"end\n".as_slice())?;
    Ok(text)
}

/// Traces of 64 and of 65 edges, and one that is a byte too long.
#[test]
fn long_traces_are_told(rt: HostRuntime) -> Result<(), Fail> {
    let alloc = rt.alloc();
    let mut long = Vec::new(alloc);
    long.resize(16_777_217, b'a')?;
    for (trace, status, text) in [
        (idle_trace(alloc, 63)?, Status::Yes, "agrees edges=64\n"),
        (
            idle_trace(alloc, 64)?,
            Status::Refused,
            "refused 501 t.trace:67:1 TraceLine\n",
        ),
        (long, Status::Refused, "refused 504 t.trace:0:0 TraceSize\n"),
    ] {
        let mut depot = depot(alloc, READ_DATA.as_bytes(), NEXT.as_bytes())?;
        depot.hold(text_of(alloc, b"t.trace".as_slice())?, trace)?;
        let line = b"replay t.trace a.rdl a.ports f.v".as_slice();
        answers(&rt, alloc, line, &mut depot, status, text.as_bytes())?;
    }
    Ok(())
}

/// With `--trace` the trace of a wrong block is stored and the line stands alone, the stored file
/// replays, and a failed store leaves none; after a failed put the file is there; a right block stores
/// nothing.
#[test]
fn traces_are_stored(rt: HostRuntime) -> Result<(), Fail> {
    let alloc = rt.alloc();
    let line = b"prove a.rdl a.ports f.v --trace t.trace --seed 3".as_slice();
    let name = text_of(alloc, b"t.trace".as_slice())?;
    let wrong = format!(in alloc; "({NEXT} | (~{{8{{rst_n}}}} & 8'h01))")?;
    let refuted = b"refuted edge=1 output c.v\n".as_slice();
    let mut stored = depot(alloc, READ_DATA.as_bytes(), wrong.as_bytes())?;
    let text = answers(&rt, alloc, line, &mut stored, Status::No, refuted)?;
    assert_eq!(rt; text.len(), refuted.len());
    assert_eq!(rt; stored.calls().len(), 4);
    let replay = b"replay t.trace a.rdl a.ports f.v".as_slice();
    let differs = b"differs edge=1 output c.v\n".as_slice();
    answers(&rt, alloc, replay, &mut stored, Status::No, differs)?;
    let mut failing = depot(alloc, READ_DATA.as_bytes(), wrong.as_bytes())?;
    failing.fail_at(4)?;
    let fault = b"fault store t.trace\n".as_slice();
    answers(&rt, alloc, line, &mut failing, Status::Fault, fault)?;
    assert!(rt; failing.bytes_of(&name).is_none());
    let mut unsaid = depot(alloc, READ_DATA.as_bytes(), wrong.as_bytes())?;
    let mut out = MemorySink::new(alloc);
    out.fail_at(1)?;
    let words = words(alloc, line)?;
    let ended = run_tool(alloc, &words, &mut unsaid, &mut out);
    assert_eq!(rt; ended.status, Status::Fault);
    assert!(rt; out.bytes().is_empty());
    assert!(rt; unsaid.bytes_of(&name) == stored.bytes_of(&name));
    let mut right = depot(alloc, READ_DATA.as_bytes(), NEXT.as_bytes())?;
    let simulated = b"unknown simulated\n".as_slice();
    answers(&rt, alloc, line, &mut right, Status::Unknown, simulated)?;
    assert!(rt; right.bytes_of(&name).is_none());
    Ok(())
}

/// The sum of two texts and five bytes: the two, combined.
fn pair(alloc: Global, left: &[u8], right: &[u8]) -> Result<Vec<u8>, AllocError> {
    let mut text = b"(".as_slice().to_vec(alloc)?;
    text.extend_from_slice(left)?;
    text.extend_from_slice(b" & ".as_slice())?;
    text.extend_from_slice(right)?;
    text.extend_from_slice(b")".as_slice())?;
    Ok(text)
}

/// So many inverses of the register.
fn inverses(alloc: Global, count: u8) -> Result<Vec<u8>, AllocError> {
    let mut text = Vec::new(alloc);
    for _turn in 0..count {
        text.push(b'~')?;
    }
    text.push(b'v')?;
    Ok(text)
}

/// An expression of 1,896 bytes and so many inverses more.
fn long_text(alloc: Global, count: u8) -> Result<Vec<u8>, AllocError> {
    let mut sizes = Vec::new(alloc);
    let mut text = b"v".as_slice().to_vec(alloc)?;
    for _turn in 0..8u8 {
        let next = pair(alloc, &text, &text)?;
        sizes.push(text)?;
        text = next;
    }
    let mut last = inverses(alloc, count)?;
    for size in &sizes {
        if size.len() == 19 || size.len() == 43 || size.len() == 91 || size.len() == 187 {
            last = pair(alloc, size, &last)?;
        }
    }
    pair(alloc, &text, &last)
}

/// Sixty inverses and 1,900 bytes are read, sixty-one and 1,901 aren't; and each byte of a right block,
/// changed in its lowest bit, is refused, but for the four places (told by a parser in another
/// language) at which another wire is named.
#[test]
fn first_form_is_exact(rt: HostRuntime) -> Result<(), Fail> {
    let alloc = rt.alloc();
    for (next, read) in [
        (inverses(alloc, 60)?, true),
        (inverses(alloc, 61)?, false),
        (long_text(alloc, 3)?, true),
        (long_text(alloc, 4)?, false),
    ] {
        let mut depot = depot(alloc, b"v".as_slice(), &next)?;
        let status = if read { Status::No } else { Status::Refused };
        answers(&rt, alloc, COMMAND, &mut depot, status, b"ref".as_slice())?;
    }
    assert_eq!(rt; long_text(alloc, 3)?.len(), 1_900);
    let right = verilog(alloc, READ_DATA.as_bytes(), NEXT.as_bytes())?;
    for place in 0..right.len() {
        let mut changed = right.as_slice().to_vec(alloc)?;
        if let Some(byte) = changed.get_mut(place) {
            *byte ^= 1;
        }
        let mut depot = MemoryDepot::new(alloc);
        depot.hold(text_of(alloc, b"a.rdl".as_slice())?, RDL.to_vec(alloc)?)?;
        depot.hold(text_of(alloc, b"a.ports".as_slice())?, PORTS.to_vec(alloc)?)?;
        depot.hold(text_of(alloc, b"f.v".as_slice())?, changed)?;
        let mut out = MemorySink::new(alloc);
        let words = words(alloc, COMMAND)?;
        let ended = run_tool(alloc, &words, &mut depot, &mut out);
        let other = place == 273 || place == 290 || place == 402 || place == 419;
        assert_eq!(rt; ended.status != Status::Refused, other);
    }
    Ok(())
}
