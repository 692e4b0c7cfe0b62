use bit_base::text::text_of;
use std::alloc::{AllocError, Global};
use std::fs;
use std::process::Abort;
use std::test::Fail;
use std::vec::Vec;
use tool_edge::depot::{Depot, DepotAnswer, DepotCall, DepotFault, Fetched};
use tool_edge::host_depot::HostDepot;
use tool_edge::host_sink::HostSink;
use tool_edge::memory_depot::MemoryDepot;
use tool_edge::memory_sink::MemorySink;
use tool_edge::sink::{Sink, SinkFault};
use tool_edge::steady_depot::SteadyDepot;
use tool_edge::steady_sink::SteadySink;

/// One call of a depot: whether it is a store, its name and limit, what it is to answer, and the
/// bytes that it stores or is to fetch.
struct Row {
    store: bool,
    name: &'static [u8],
    limit: u8,
    answer: DepotAnswer,
    bytes: &'static [u8],
}

/// Makes the calls of a table one after another, and looks at each answer and at what was fetched.
fn answers_as<D: Depot>(
    rt: &impl Abort,
    alloc: Global,
    depot: &mut D,
    rows: &[Row],
) -> Result<(), AllocError> {
    for row in rows {
        let mut bytes = Vec::from_slice(alloc, if row.store { row.bytes } else { b"old" })?;
        let answer = answer_of(alloc, depot, row, &mut bytes)?;
        assert_eq!(rt; answer, row.answer);
        assert_eq!(rt; bytes.as_slice(), row.bytes);
    }
    Ok(())
}

fn answer_of<D: Depot>(
    alloc: Global,
    depot: &mut D,
    row: &Row,
    bytes: &mut Vec<u8>,
) -> Result<DepotAnswer, AllocError> {
    let name = text_of(alloc, row.name)?;
    if row.store {
        return match depot.store(alloc, &name, row.bytes) {
            Ok(()) => Ok(DepotAnswer::Stored),
            Err(DepotFault::Failed) => Ok(DepotAnswer::Failed),
            Err(DepotFault::NoMemory) => Err(AllocError),
        };
    }
    match depot.fetch(alloc, &name, row.limit as usize, bytes) {
        Ok(Fetched::Whole) => Ok(DepotAnswer::Whole),
        Ok(Fetched::Long) => Ok(DepotAnswer::Long),
        Ok(Fetched::Missing) => Ok(DepotAnswer::Missing),
        Err(DepotFault::Failed) => Ok(DepotAnswer::Failed),
        Err(DepotFault::NoMemory) => Err(AllocError),
    }
}

/// Whether a list of calls is that of the table.
fn are_listed(calls: &[DepotCall], rows: &[Row]) -> bool {
    calls.len() == rows.len()
        && calls
            .iter()
            .zip(rows)
            .all(|(call, row)| is_listed(call, row))
}

fn is_listed(call: &DepotCall, row: &Row) -> bool {
    call.name.as_bytes() == row.name && call.store == row.store && call.answer == row.answer
}

/// A held name, an absent one, one over the limit and a store, in this order; then the fifth call,
/// which is to fail and leaves its file as it was.
const MEMORY_ROWS: [Row; 6] = [
    Row {
        store: false,
        name: b"a.rdl",
        limit: 3,
        answer: DepotAnswer::Whole,
        bytes: b"abc",
    },
    Row {
        store: false,
        name: b"b.rdl",
        limit: 3,
        answer: DepotAnswer::Missing,
        bytes: b"",
    },
    Row {
        store: false,
        name: b"a.rdl",
        limit: 1,
        answer: DepotAnswer::Long,
        bytes: b"ab",
    },
    Row {
        store: true,
        name: b"c",
        limit: 0,
        answer: DepotAnswer::Stored,
        bytes: b"xy",
    },
    Row {
        store: true,
        name: b"c",
        limit: 0,
        answer: DepotAnswer::Failed,
        bytes: b"z",
    },
    Row {
        store: false,
        name: b"c",
        limit: 9,
        answer: DepotAnswer::Whole,
        bytes: b"xy",
    },
];

const HOST_ROWS: [Row; 5] = [
    Row {
        store: true,
        name: b"tool_edge_file",
        limit: 0,
        answer: DepotAnswer::Stored,
        bytes: b"abc",
    },
    Row {
        store: false,
        name: b"tool_edge_file",
        limit: 3,
        answer: DepotAnswer::Whole,
        bytes: b"abc",
    },
    Row {
        store: false,
        name: b"tool_edge_file",
        limit: 1,
        answer: DepotAnswer::Long,
        bytes: b"ab",
    },
    Row {
        store: false,
        name: b"tool_edge_none",
        limit: 3,
        answer: DepotAnswer::Failed,
        bytes: b"",
    },
    Row {
        store: false,
        name: b"tool_edge_sink",
        limit: 9,
        answer: DepotAnswer::Whole,
        bytes: b"one two",
    },
];

#[test]
fn depots_in_memory_answer_and_list_their_calls(rt: HostRuntime) -> Result<(), Fail> {
    let alloc = rt.alloc();
    let mut depot = MemoryDepot::new(alloc);
    depot.hold(text_of(alloc, b"a.rdl")?, Vec::from_slice(alloc, b"abc")?)?;
    depot.fail_at(5)?;
    answers_as(&rt, alloc, &mut depot, &MEMORY_ROWS)?;
    assert!(rt; are_listed(depot.calls(), &MEMORY_ROWS));
    let name = text_of(alloc, b"c")?;
    assert_eq!(rt; depot.bytes_of(&name), Some(b"xy".as_slice()));
    Ok(())
}

#[test]
fn steady_depots_answer_and_list_their_calls(rt: HostRuntime) -> Result<(), Fail> {
    let alloc = rt.alloc();
    let mut depot = SteadyDepot::new(alloc);
    depot.hold(text_of(alloc, b"a.rdl")?, Vec::from_slice(alloc, b"abc")?)?;
    answers_as(&rt, alloc, &mut depot, &MEMORY_ROWS[..4])?;
    assert!(rt; are_listed(depot.calls(), &MEMORY_ROWS[..4]));
    let name = text_of(alloc, b"c")?;
    assert_eq!(rt; depot.bytes_of(&name), Some(b"xy".as_slice()));
    Ok(())
}

/// Puts these texts one after another, and looks at each answer.
fn puts<S: Sink>(
    rt: &impl Abort,
    alloc: Global,
    sink: &mut S,
    rows: &[(&[u8], Result<(), SinkFault>)],
) {
    for (bytes, answer) in rows {
        assert_eq!(rt; sink.put(alloc, bytes), *answer);
    }
}

#[test]
fn sinks_take_bytes_in_order(rt: HostRuntime) -> Result<(), Fail> {
    let alloc = rt.alloc();
    let rows: [(&[u8], Result<(), SinkFault>); 3] = [
        (b"one ", Ok(())),
        (b"three ", Err(SinkFault::Failed)),
        (b"two", Ok(())),
    ];
    let mut steady = SteadySink::new(alloc);
    puts(&rt, alloc, &mut steady, &rows[..1]);
    assert_eq!(rt; steady.bytes(), b"one ".as_slice());
    let mut memory = MemorySink::new(alloc);
    memory.fail_at(2)?;
    puts(&rt, alloc, &mut memory, &rows);
    assert_eq!(rt; memory.bytes(), b"one two".as_slice());
    Ok(())
}

/// Real files: what is stored is fetched again, an absent file is a fault, and what a sink takes is
/// in its file.
#[test]
fn the_host_keeps_files(rt: HostRuntime) -> Result<(), Fail> {
    let alloc = rt.alloc();
    let mut sink = HostSink::new(fs::create(&rt, "tool_edge_sink")?);
    puts(
        &rt,
        alloc,
        &mut sink,
        &[(b"one ", Ok(())), (b"two", Ok(()))],
    );
    let mut depot = HostDepot::new(rt.clone()?);
    answers_as(&rt, alloc, &mut depot, &HOST_ROWS)?;
    fs::remove_file(&rt, "tool_edge_file")?;
    fs::remove_file(&rt, "tool_edge_sink")?;
    Ok(())
}

/// A real file of exactly the limit is whole; with one byte more it is long, and comes up to that byte.
#[test]
fn a_file_of_the_host_is_long_from_one_byte_above_the_limit(rt: HostRuntime) -> Result<(), Fail> {
    let alloc = rt.alloc();
    let limit = 65_536;
    let mut depot = HostDepot::new(rt.clone()?);
    let name = text_of(alloc, b"tool_edge_limit")?;
    let mut bytes = Vec::new(alloc);
    for (size, answer) in [(limit, Fetched::Whole), (limit + 1, Fetched::Long)] {
        let stored = vec![in alloc; b'x'; size]?;
        assert!(rt; depot.store(alloc, &name, &stored).is_ok(), "{size} bytes");
        assert_eq!(rt;
            depot.fetch(alloc, &name, limit, &mut bytes),
            Ok(answer),
            "{size} bytes"
        );
        assert_eq!(rt; bytes.len(), size, "{size} bytes");
    }
    fs::remove_file(&rt, "tool_edge_limit")?;
    Ok(())
}
