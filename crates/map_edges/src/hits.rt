//! The words that a bus event is at.

ghost use Rattle.std.specs.Prelude.{◌≡◌, ℕ, Some, ◌+◌, ◌*◌, ◌^◌, ◌<◌, length, map, slice_get, IfOk};
ghost use Rattle.gate_graph.specs.Gates.{Extends};
ghost use Rattle.event_gates.specs.Graphs.{AreEvents};
ghost use Rattle.map_edges.specs.Hits.{AreHits, hit_wires, hits_made};

use event_gates::{EventGates, HitGates, hit_gates};
use gate_graph::Graph;
use std::alloc::{AllocError, Global};
use std::vec::Vec;

/// Whether the event reads and writes each word, at these addresses: a gate for each place of the
/// address and three more at most, a word.
pub fn hit_words(
    graph: &mut Graph,
    alloc: Global,
    event: &EventGates,
    words: &[u32],
) -> Result<Vec<HitGates>, AllocError>
    requires event { AreEvents graph.old event.now }
    requires room { length graph.old + length words.now * (length event.now.address.items + 3) < 2 ^ 31 }
    ensures nodes { Extends graph.old graph.new (length words.now * (length event.now.address.items + 3)) }
    ensures one_each { IfOk result (λ hits. length hits.items ≡ length words.now) }
    ensures hits { IfOk result (λ hits. AreHits graph.new event.now words.now hits.items) }
    ensures exact { IfOk result (λ hits. hits_made graph.old event.now words.now ≡ (map hit_wires hits.items, graph.new)) }
{
    let mut hits = Vec::new(alloc);
    for n in 0..words.len() {
        let hit = hit_gates(graph, event, words[n])?;
        hits.push(hit)?;
    }
    Ok(hits)
}
