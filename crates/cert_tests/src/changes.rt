//! Certificates that are written are read back; changed ones are refused where they were changed, or
//! are those of other proofs.

use crate::circuits::{
    CONSTANT, HANDSHAKE, OPPOSITES, PARITY, Parts, REGISTERS, SHIFTS, SPLIT, STAYS, Safe,
    circuit_of, proof_of,
};
use cert_text::{CertFault, check_cert, write_cert};
use k_induction::verdict::SafeCircuit;
use std::alloc::{AllocError, Global};
use std::test::Fail;
use std::vec::Vec;

/// The proof that a text is taken for, as one of the circuit of these parts.
fn read(
    alloc: Global,
    parts: Parts,
    text: &[u8],
) -> Result<Result<SafeCircuit, CertFault>, AllocError> {
    match circuit_of(alloc, parts)? {
        Some(circuit) => Ok(check_cert(alloc, circuit, text)),
        None => Ok(Err(CertFault::NoMemory)),
    }
}

/// Whether the text is accepted, as just what is written of the proof that it is taken for.
fn is_read_back(alloc: Global, parts: Parts, text: &[u8]) -> Result<bool, AllocError> {
    match read(alloc, parts, text)? {
        Ok(safe) => {
            let again = write_cert(alloc, &safe)?;
            Ok(again.as_slice() == text)
        }
        Err(_) => Ok(false),
    }
}

/// Whether the text is refused at this line or behind it, or else read back.
fn is_refused_from(
    alloc: Global,
    parts: Parts,
    text: &[u8],
    line: usize,
) -> Result<bool, AllocError> {
    match read(alloc, parts, text)? {
        Ok(_) => is_read_back(alloc, parts, text),
        Err(CertFault::At { line: found, .. }) => Ok(line <= found as usize),
        Err(CertFault::NoMemory) => Ok(false),
    }
}

/// The text of the proof of a case, where there is one.
fn text_of(alloc: Global, case: Safe) -> Result<Option<Vec<u8>>, AllocError> {
    match proof_of(alloc, case)? {
        Some(safe) => Ok(Some(write_cert(alloc, &safe)?)),
        None => Ok(None),
    }
}

/// What is done to a line: it is left out, written twice, or exchanged with the next.
#[derive(Clone, Copy, Debug, Drop)]
enum Change {
    LeftOut,
    Twice,
    Exchanged,
}

/// Appends the line at this place.
fn push_line(text: &mut Vec<u8>, lines: &[&[u8]], place: usize) -> Result<(), AllocError> {
    if let Some(line) = lines.get(place) {
        text.extend_from_slice(line)?;
        text.push(b'\n')?;
    }
    Ok(())
}

/// The text of the lines, with this change at the line at this place.
fn changed(
    alloc: Global,
    lines: &[&[u8]],
    at: usize,
    change: Change,
) -> Result<Vec<u8>, AllocError> {
    let mut text = Vec::new(alloc);
    let next = at.saturating_add(1);
    for i in 0..lines.len() {
        match change {
            Change::LeftOut if i == at => {}
            Change::Twice if i == at => {
                push_line(&mut text, lines, at)?;
                push_line(&mut text, lines, at)?;
            }
            Change::Exchanged if i == at => push_line(&mut text, lines, next)?,
            Change::Exchanged if i == next => push_line(&mut text, lines, at)?,
            _ => push_line(&mut text, lines, i)?,
        }
    }
    Ok(text)
}

/// The first line, counted from 1, whose change isn't found at it or behind it.
fn change_not_found(
    alloc: Global,
    parts: Parts,
    text: &[u8],
) -> Result<Option<(usize, Change)>, AllocError> {
    let lines: Vec<&[u8]> = text
        .split_inclusive(|byte| *byte == b'\n')
        .map(|line| line.strip_suffix(b"\n").unwrap_or(line))
        .collect(alloc)?;
    for (at, _) in lines.iter().enumerate() {
        let number = at.saturating_add(1);
        for change in [Change::LeftOut, Change::Twice, Change::Exchanged] {
            let other = changed(alloc, lines.as_slice(), at, change)?;
            if !is_refused_from(alloc, parts, other.as_slice(), number)? {
                return Ok(Some((number, change)));
            }
        }
    }
    Ok(None)
}

const fn safe(parts: Parts, mined: bool, bound: u32) -> Safe {
    Safe {
        parts,
        mined,
        bound,
    }
}

/// Certificates of circuits, with mined sets and without, and each of their lines left out, written
/// twice and exchanged with the next.
#[test]
fn certificates_are_read_back_and_changed_lines_found(rt: HostRuntime) -> Result<(), Fail> {
    let cases = [
        safe(STAYS, false, 1),
        safe(SHIFTS, false, 5),
        safe(PARITY, false, 1),
        safe(SPLIT, false, 4),
        safe(REGISTERS, true, 4),
        safe(OPPOSITES, true, 4),
        safe(CONSTANT, true, 1),
        safe(HANDSHAKE, true, 2),
    ];
    for (i, case) in cases.iter().enumerate() {
        let text = text_of(rt.alloc(), *case)?.unwrap_or(Vec::new(rt.alloc()));
        let back = is_read_back(rt.alloc(), case.parts, text.as_slice())?;
        assert!(rt; back, "case {i}");
        let missed = change_not_found(rt.alloc(), case.parts, text.as_slice())?;
        assert!(rt; missed.is_none(), "case {i}: {missed:?}");
    }
    Ok(())
}

/// The place of the first byte of the text whose change to one of three others isn't found at its
/// line or behind it.
fn byte_not_found(
    alloc: Global,
    parts: Parts,
    text: &mut Vec<u8>,
) -> Result<Option<(usize, u8)>, AllocError> {
    let mut line: usize = 1;
    for at in 0..text.len() {
        let byte = text[at];
        for other in [byte ^ 1, b' ', b'7'] {
            text[at] = other;
            if other != byte && !is_refused_from(alloc, parts, text.as_slice(), line)? {
                return Ok(Some((at, other)));
            }
        }
        text[at] = byte;
        if byte == b'\n' {
            line = line.saturating_add(1);
        }
    }
    Ok(None)
}

/// Each byte of a small certificate, changed to three others.
#[test]
fn changed_bytes_are_found(rt: HostRuntime) -> Result<(), Fail> {
    let case = safe(CONSTANT, true, 1);
    let mut text = text_of(rt.alloc(), case)?.unwrap_or(Vec::new(rt.alloc()));
    let missed = byte_not_found(rt.alloc(), case.parts, &mut text)?;
    assert!(rt; !text.is_empty() && missed.is_none(), "{missed:?}");
    Ok(())
}
