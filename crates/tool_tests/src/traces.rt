use apb_rules::wires::Choice;
use std::alloc::{AllocError, Global};
use std::process::Abort;
use std::test::Fail;
use std::vec::Vec;
use trace_replay::block::Block;
use trace_replay::expression::Expression;
use trace_replay::fault::{TraceCode, TraceFault};
use trace_replay::input::JointInput;
use trace_replay::joint::Difference;
use trace_replay::read::{TRACE_LIMIT, read_trace};
use trace_replay::replay::replay;
use trace_replay::text::write_trace;
use trace_replay::trace::{EDGE_LIMIT, START_BITS, Trace, trace_of};

/// A write of 0 to address 0: an edge of reset, a setup edge and an access edge.
const TRACE: &[u8] =
    b"rdltrace 1\nstart v 00000000\nedge rst_n=0 psel=0 penable=0 pwrite=0 paddr=00 pwdata=00000000\nedge rst_n=1 psel=1 penable=0 pwrite=0 paddr=00 pwdata=00000000\nedge rst_n=1 psel=1 penable=1 pwrite=0 paddr=00 pwdata=00000000\nend\n";

/// What each byte of that text leads to where it alone is deleted, worked out by hand: `l` for a line
/// that isn't of the form, `n` for another name or number of digits, at the line of the byte.
const DELETED: &[u8] =
    b"lllllllllll\nllllllllnnnnnnnnl\nlllllnnnnnlllnnnnlllnnnnnnnlllnnnnnnlllnnnnnlnnlnnnnnnlnnnnnnnnl\nlllllnnnnnlllnnnnlllnnnnnnnlllnnnnnnlllnnnnnlnnlnnnnnnlnnnnnnnnl\nlllllnnnnnlllnnnnlllnnnnnnnlllnnnnnnlllnnnnnlnnlnnnnnnlnnnnnnnnl\nllll\n";

/// The first line, the start and the edge of reset.
const OPENING: &str =
    "rdltrace 1\nstart v 00000000\nedge rst_n=0 psel=0 penable=0 pwrite=0 paddr=00 pwdata=00000000\n";

/// An edge without a transfer.
const IDLE: &str = "edge rst_n=1 psel=0 penable=0 pwrite=0 paddr=00 pwdata=00000000\n";

/// A block whose register never changes, with this reset value.
fn block(alloc: Global, reset: u8) -> Result<Block, AllocError> {
    Block::new(alloc, reset, Expression::Register, Expression::Register)
}

/// Reads this text, and looks at the refusal, if there is one.
fn reads(
    rt: &impl Abort,
    alloc: Global,
    text: &[u8],
    refusal: Option<(TraceCode, u32)>,
) -> Result<(), AllocError> {
    match (read_trace(alloc, text, &block(alloc, 0)?), refusal) {
        (Ok(_), None) => Ok(()),
        (Err(fault), Some((code, line))) => {
            assert_eq!(rt; fault, TraceFault::At { code, line });
            Ok(())
        }
        _ => Err(AllocError),
    }
}

/// Each byte of a trace deleted in turn, and the text cut after each of its lines.
#[test]
fn each_missing_byte_is_refused_at_its_line(rt: HostRuntime) -> Result<(), Fail> {
    let alloc = rt.alloc();
    let mut line = 1u32;
    let mut place = 0usize;
    for mark in DELETED {
        if *mark == b'\n' {
            reads(
                &rt,
                alloc,
                &TRACE[..place.min(TRACE.len())],
                if place == TRACE.len() {
                    None
                } else {
                    Some((TraceCode::TraceLine, line.saturating_add(1)))
                },
            )?;
            line = line.saturating_add(1);
            continue;
        }
        let mut text = TRACE[..place.min(TRACE.len())].to_vec(alloc)?;
        text.extend_from_slice(&TRACE[place.saturating_add(1).min(TRACE.len())..])?;
        let code = if *mark == b'n' {
            TraceCode::TraceName
        } else {
            TraceCode::TraceLine
        };
        reads(&rt, alloc, &text, Some((code, line)))?;
        place = place.saturating_add(1);
    }
    assert_eq!(rt; place, TRACE.len());
    Ok(())
}

/// Texts that differ from a trace in one thing or two, with the refusal of the first.
#[test]
fn each_wrong_text_is_refused_at_its_line(rt: HostRuntime) -> Result<(), Fail> {
    let alloc = rt.alloc();
    for (rest, refusal) in [
        ("end\n", None),
        ("", Some((TraceCode::TraceLine, 4))),
        ("end", Some((TraceCode::TraceLine, 4))),
        ("end\n\n", Some((TraceCode::TraceLine, 5))),
        ("end\nend\n", Some((TraceCode::TraceLine, 5))),
        (
            "edge rst_n=1 psel=1 penable=0 pwrite=0 paddr=00 pwdata=00000000\nedge rst_n=1 psel=0 penable=1 pwrite=0 paddr=00 pwdata=00000000\nend\n",
            Some((TraceCode::TraceIllegal, 5)),
        ),
        (
            "edge rst_n=0 psel=0 penable=0 pwrite=0 paddr=00 pwdata=00000000\nend\n",
            Some((TraceCode::TraceIllegal, 4)),
        ),
        (
            "edge rst_n=1 psel=1 penable=1 pwrite=0 paddr=00 pwdata=00000000\nend\n",
            Some((TraceCode::TraceIllegal, 4)),
        ),
        (
            "edge rst_n=1 psel=1 penable=0 pwrite=1 paddr=01 pwdata=00000001\nedge rst_n=1 psel=1 penable=1 pwrite=1 paddr=01 pwdata=00000011\nend\n",
            Some((TraceCode::TraceIllegal, 5)),
        ),
        (
            "edge rst_n=1 psel=1 penable=0 pwrite=0 paddr=01 pwdata=00000001\nedge rst_n=1 psel=1 penable=1 pwrite=0 paddr=01 pwdata=00000011\nend\n",
            None,
        ),
        (
            "edge rst_n=1 select=1 penable=0 pwrite=0 paddr=00 pwdata=000000\nedge\nend\n",
            Some((TraceCode::TraceName, 4)),
        ),
        (
            "edge rst_n=1 select=1 penable=2 pwrite=0 paddr=00 pwdata=00000000\nend\n",
            Some((TraceCode::TraceLine, 4)),
        ),
        (
            "edge rst_n=1 psel=1 penable=1 pwrite=0 paddr=00 pwdata=00000000\nedge rst_n=1\nend\n",
            Some((TraceCode::TraceLine, 5)),
        ),
    ] {
        let text = format!(in alloc; "{OPENING}{rest}")?;
        reads(&rt, alloc, text.as_bytes(), refusal)?;
    }
    for (text, refusal) in [
        ("", Some((TraceCode::TraceLine, 1))),
        (
            "rdltrace 2\nstart v 00000000\nend\n",
            Some((TraceCode::TraceLine, 1)),
        ),
        ("rdltrace 1\nstart v 00000000\nend\n", None),
        (
            "rdltrace 1\nstart w 00000000\nend\n",
            Some((TraceCode::TraceName, 2)),
        ),
        (
            "rdltrace 1\nstart w=v 1\nend\n",
            Some((TraceCode::TraceName, 2)),
        ),
        (
            "rdltrace 1\nstart v 0000000x\nend\n",
            Some((TraceCode::TraceLine, 2)),
        ),
        ("rdltrace 1\nend\n", Some((TraceCode::TraceLine, 2))),
        (
            "rdltrace 1\nstart v 00000000\nedge rst_n=1 psel=0 penable=0 pwrite=0 paddr=00 pwdata=00000000\nend\n",
            Some((TraceCode::TraceIllegal, 3)),
        ),
        (
            "rdltrace 1\nstart v 00000000\nedge rst_n=0 psel=1 penable=0 pwrite=0 paddr=00 pwdata=00000000\nend\n",
            Some((TraceCode::TraceIllegal, 3)),
        ),
    ] {
        reads(&rt, alloc, text.as_bytes(), refusal)?;
    }
    Ok(())
}

/// A trace has at most 64 edges, and its text at most 16 MiB.
#[test]
fn long_texts_are_refused(rt: HostRuntime) -> Result<(), Fail> {
    let alloc = rt.alloc();
    for (edges, refusal) in [(63u8, None), (64, Some((TraceCode::TraceLine, 67)))] {
        let mut text = OPENING.as_bytes().to_vec(alloc)?;
        for _edge in 0..edges {
            text.extend_from_slice(IDLE.as_bytes())?;
        }
        text.extend_from_slice(b"end\n".as_slice())?;
        reads(&rt, alloc, &text, refusal)?;
    }
    let mut text = b"rdltrace 2\n".as_slice().to_vec(alloc)?;
    text.resize(TRACE_LIMIT, b'0')?;
    reads(&rt, alloc, &text, Some((TraceCode::TraceLine, 1)))?;
    text.push(b'0')?;
    reads(&rt, alloc, &text, Some((TraceCode::TraceSize, 0)))?;
    Ok(())
}

/// A trace that is made of choices is written, read back and run: the register's reset value decides
/// whether, and where, block and machine differ.
#[test]
fn traces_are_read_back_and_run(rt: HostRuntime) -> Result<(), Fail> {
    let alloc = rt.alloc();
    let idle = Choice {
        start: false,
        enable: false,
        write: false,
        address: 0,
        payload: 0,
        strobe: 0,
        prot: 0,
    };
    let start = Choice {
        start: true,
        ..idle
    };
    let inputs = [
        JointInput { choice: idle },
        JointInput { choice: start },
        JointInput { choice: idle },
    ];
    let bits = [false; START_BITS];
    let right = block(alloc, 0)?;
    let trace = trace_of(alloc, &right, &bits, &inputs)?;
    let text = write_trace(alloc, &right, &trace)?;
    assert_eq!(rt; text.as_slice(), TRACE);
    for (reset, difference) in [(0u8, None), (3, Some((1usize, Difference::Output(0))))] {
        let block = block(alloc, reset)?;
        let Ok(mut again) = read_trace(alloc, TRACE, &block) else {
            return Err(Fail::from(AllocError));
        };
        assert_eq!(rt; replay(alloc, &block, &again)?, difference);
        again.cut(1);
        assert_eq!(rt; again.edges.len(), 1);
    }
    Ok(())
}
