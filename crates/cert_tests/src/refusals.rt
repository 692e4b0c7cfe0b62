//! A certificate, and what is wrong with others.

use cert_text::{CertCode, CertFault, check_cert};
use gate_graph::{Circuit, CircuitParts, Graph, Latch, Start};
use std::alloc::{AllocError, Global};
use std::test::Fail;

/// Two latches, the second of which starts at 0 and keeps its value, and is bad.
fn parts(alloc: Global) -> Result<CircuitParts, AllocError> {
    let mut graph = Graph::new(alloc)?;
    let live = graph.latch()?;
    let bad = graph.latch()?;
    let mut latches = Vec::new(alloc);
    latches.push(Latch {
        start: Start::Zero,
        next: live,
    })?;
    latches.push(Latch {
        start: Start::Zero,
        next: bad,
    })?;
    Ok(CircuitParts {
        graph,
        latches,
        inputs: 0,
        bad,
        address_first: 0,
        address_bits: 0,
        addresses: Vec::new(alloc),
        control: Vec::new(alloc),
    })
}

/// What `check_cert` answers: the k of a safe circuit, or the fault.
fn answer(alloc: Global, text: &[u8]) -> Result<Result<u32, CertFault>, AllocError> {
    match Circuit::check(parts(alloc)?) {
        Ok(circuit) => match check_cert(alloc, circuit, text) {
            Ok(safe) => Ok(Ok(safe.k)),
            Err(fault) => Ok(Err(fault)),
        },
        Err(_) => Ok(Err(CertFault::NoMemory)),
    }
}

/// A text and its answer.
#[derive(Clone, Copy, Drop)]
struct Row {
    text: &'static [u8],
    answer: Result<u32, CertFault>,
}

const fn refused(text: &'static [u8], code: CertCode, line: u32) -> Row {
    Row {
        text,
        answer: Err(CertFault::At { code, line }),
    }
}

/// Each text is accepted, or refused at the line of its first fault.
#[test]
fn certificates_are_accepted_and_refused_at_their_first_fault(rt: HostRuntime) -> Result<(), Fail> {
    let rows = [
        Row {
            text: b"cert 1\nk 1\nkeep 1\nc -2\nq keep\nr 4 2 1 3 4 / 4 2 3 4\nq base 1\nr 3 2 / 3\nq step\nr 5 2 4 / 6 3\nend\n",
            answer: Ok(1),
        },
        refused(
            b"cert 1\nk 1\nkeep 1\nc -2\nq keep\nr 4 2 1 3 4 / 4 2 3 4\nq base 1\nr 3 2 / 3\nq step\nr 5 2 4 / 6 3\n",
            CertCode::CertShort,
            11,
        ),
        refused(
            b"cert 1\nk 1\nkeep 1\nc -2\nq keep\nr 4 2 1 3 4 / 4 2 3 4\nq base 1\nr 3 2 / 3\nq step\nr 5 2 4 / 6 3\nend\nend\n",
            CertCode::CertLine,
            12,
        ),
        refused(
            b"cert 1\nk 1\nkeep 1\nc -2\nq keep\nr 4 2 1 3 4 / 4 2 3 4\nq base 1\nr 3 2 / 3\nq step\nr 5 2 / 6\nend\n",
            CertCode::CertShort,
            11,
        ),
        refused(
            b"cert 1\nk 1\nkeep 1\nc -2\nq keep\nr 4 2 1 3 / 4 2 3 4\n",
            CertCode::BadStep,
            6,
        ),
        refused(
            b"cert 1\nk 1\nkeep 1\nc -2\nq keep\nr 4294967300 2 / 4\n",
            CertCode::BadStep,
            6,
        ),
        refused(
            b"cert 1\nk 1\nkeep 1\nc -2\nq keep\nr 4 2 1 3 4 / 4 2 3 4\nq step\n",
            CertCode::CertLine,
            7,
        ),
        refused(b"", CertCode::CertShort, 1),
        refused(b"cert 1\nk 0\n", CertCode::CertLine, 2),
        refused(b"cert 1\nk 1\nkeep 0\nend\n", CertCode::CertLine, 4),
        refused(b"cert 1\nk 33\n", CertCode::CertLine, 2),
        refused(b"cert 1\nk 01\n", CertCode::CertLine, 2),
        refused(b"cert 1\nk 1\nkeep 1\nc 0\n", CertCode::CertLine, 4),
        refused(b"cert 1\nk 1\nkeep 1\nc 3\n", CertCode::CertLine, 4),
        refused(b"cert 1\nk 1\nkeep 1\nc -2 -2\n", CertCode::CertLine, 4),
        refused(
            b"cert 1\nk 1\nkeep 1\nc -2\nq keep\nr 0 /\n",
            CertCode::BadStep,
            6,
        ),
        refused(
            b"cert 1\nk 1\nkeep 1\nc -2\nq keep\nq base 1\n",
            CertCode::CertShort,
            6,
        ),
        refused(b"cert 1\nk 1\nkeep 1\nc -2", CertCode::CertLine, 4),
        refused(
            b"cert 1\nk 1\nkeep 0\nq keep\nq step\n",
            CertCode::CertLine,
            5,
        ),
    ];
    for (i, row) in rows.iter().enumerate() {
        assert_eq!(rt; answer(rt.alloc(), row.text)?, row.answer, "row {i}");
    }
    Ok(())
}
