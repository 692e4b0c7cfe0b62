//! The error of the answer.

ghost use Rattle.std.specs.Prelude.{◌≡◌, ℕ, Bool, ◌&&◌, ◌||◌, ◌+◌, ◌*◌, ◌^◌, ◌<◌, length, IfOk};
ghost use Rattle.std.specs.List.{list_any};
ghost use Rattle.gate_graph.specs.Gates.{wire_value, Extends, Means};
ghost use Rattle.reg_machine.specs.Machines.{is_unmapped};
ghost use Rattle.event_gates.specs.Events.{event_at};
ghost use Rattle.event_gates.specs.Graphs.{AreEvents};
ghost use Rattle.map_edges.specs.Hits.{AreHits, hits_of};
ghost use Rattle.map_answers.specs.Errors.{is_at, found_made, error_made};

use event_gates::{EventGates, HitGates};
use gate_graph::{Graph, Wire};
use std::alloc::AllocError;
use word_gates::{inverted, only_if, or_wire};

/// The event is at one of the words: two gates a word.
fn found_wire(
    graph: &mut Graph,
    event: &EventGates,
    words: &[u32],
    hits: &[HitGates],
) -> Result<Wire, AllocError>
    requires hits { AreHits graph.old event.now words.now hits.now }
    requires one_each { length hits.now ≡ length words.now }
    requires room { length graph.old + length words.now * 2 < 2 ^ 31 }
    ensures nodes { Extends graph.old graph.new (length words.now * 2) }
    ensures wire { IfOk result (λ w. Means graph.new w (λ v. list_any (is_at (event_at v event.now)) words.now)) }
    ensures exact { IfOk result (λ w. found_made graph.old (hits_of hits.now) ≡ (w, graph.new)) }
{
    let mut found = graph.zero();
    for n in 0..hits.len() {
        let hit = hits[n];
        let one = or_wire(graph, hit.reads, hit.writes)?;
        found = or_wire(graph, found, one)?;
    }
    Ok(found)
}

/// The answer is an error: the event is at an address that no word has, and that is one. Two gates a
/// word and two more.
#[tactic(auto, using(gate_graph::proofs::GateLemmas::extends_more), unfolding(crate::specs::Errors::error_made))]
pub fn error_wire(
    graph: &mut Graph,
    event: &EventGates,
    words: &[u32],
    hits: &[HitGates],
) -> Result<Wire, AllocError>
    requires event { AreEvents graph.old event.now }
    requires hits { AreHits graph.old event.now words.now hits.now }
    requires one_each { length hits.now ≡ length words.now }
    requires room { length graph.old + length words.now * 2 + 2 < 2 ^ 31 }
    ensures nodes { Extends graph.old graph.new (length words.now * 2 + 2) }
    ensures wire { IfOk result (λ w. Means graph.new w (λ v. event.now.unmapped_error && is_unmapped (event_at v event.now) words.now)) }
    ensures exact { IfOk result (λ w. error_made graph.old event.now (hits_of hits.now) ≡ (w, graph.new)) }
{
    let found = found_wire(graph, event, words, hits)?;
    let some = or_wire(graph, event.read, event.write)?;
    let unmapped = graph.and(some, inverted(found))?;
    let wire = only_if(graph, event.unmapped_error, unmapped);
    Ok(wire)
}
