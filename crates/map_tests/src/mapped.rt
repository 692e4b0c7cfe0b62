//! The command on one description.

use bit_base::text::{Text, text_of};
use prove_top::{Status, run_tool};
use std::alloc::{AllocError, Global};
use std::vec::Vec;
use tool_edge::memory_depot::MemoryDepot;
use tool_edge::memory_sink::MemorySink;

/// The words `map a.rdl`.
fn words(alloc: Global) -> Result<Vec<Text>, AllocError> {
    let mut words = Vec::new(alloc);
    words.push(text_of(alloc, b"map".as_slice())?)?;
    words.push(text_of(alloc, b"a.rdl".as_slice())?)?;
    Ok(words)
}

/// How `map` ends on a description, and what it puts.
pub fn mapped(alloc: Global, text: &[u8]) -> Result<(Status, Vec<u8>), AllocError> {
    let mut depot = MemoryDepot::new(alloc);
    depot.hold(text_of(alloc, b"a.rdl".as_slice())?, text.to_vec(alloc)?)?;
    let mut out = MemorySink::new(alloc);
    let words = words(alloc)?;
    let ended = run_tool(alloc, &words, &mut depot, &mut out);
    Ok((ended.status, out.bytes().to_vec(alloc)?))
}
