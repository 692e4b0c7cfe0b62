//! The search for a loop through a node, breadth first, so that the first that is found is a shortest.

ghost use Rattle.std.specs.Prelude.{◌≡◌, ◌<◌, ◌∷◌, ℕ, [], true, length, slice_get, Some, IfOk, MatchOption};
ghost use Rattle.flat_loops.specs.Graphs.{leads};
ghost use Rattle.flat_cycles.specs.Visits.{IsFrom, AreComing, IsWay};
ghost use Rattle.flat_cycles.specs.Rounds.{IsRound, IsShut};

use crate::visit::{Visit, visit_row};
use flat_loops::graph::Graph;
use flat_sets::NumberSet;
use std::alloc::{AllocError, Global};
use std::vec::Vec;

/// The nodes on the way from the first one to that of a visit, in their order, with the last.
fn way_to(
    alloc: Global,
    graph: &Graph,
    first: usize,
    visits: &[Visit],
    place: usize,
) -> Result<Vec<usize>, AllocError>
    requires coming { AreComing graph.now first visits.now }
    requires place { place < length visits.now }
    ensures { IfOk result (λ way. IsWay graph.now first visits.now place way.items) }
{
    let mut way = Vec::new(alloc);
    let mut at = Some(place);
    'back: while let Some(p) = at {
        let visit = visits[p];
        way.push(visit.node)?;
        at = visit.from;
    }
    way.reverse();
    Ok(way)
}

/// The first node, and those of a way behind it.
fn round_of(alloc: Global, first: usize, way: &[usize]) -> Result<Vec<usize>, AllocError>
    ensures { IfOk result (λ round. round.items ≡ first ∷ way.now) }
{
    let mut round = Vec::new(alloc);
    round.push(first)?;
    round.extend_from_slice(way)?;
    Ok(round)
}

/// A shortest of the loops that begin at a node and have no other before it.
pub fn round_at(
    alloc: Global,
    graph: &Graph,
    first: usize,
) -> Result<Option<Vec<usize>>, AllocError>
    requires bounded { (k j : ℕ) → leads graph.now k j ≡ true → j < length graph.now }
    ensures { IfOk result (λ o. MatchOption o (IsShut graph.now first) (λ round. IsRound graph.now first round.items)) }
{
    let mut seen = NumberSet::empty(alloc, graph.len())?;
    let mut visits = Vec::new(alloc);
    if visit_row(graph, first, first, None, &mut seen, &mut visits)? {
        let round = round_of(alloc, first, &[])?;
        return Ok(Some(round));
    }
    let mut head = 0;
    'visiting: while head < visits.len() {
        let node = visits[head].node;
        if visit_row(graph, first, node, Some(head), &mut seen, &mut visits)? {
            let way = way_to(alloc, graph, first, visits.as_slice(), head)?;
            let round = round_of(alloc, first, way.as_slice())?;
            return Ok(Some(round));
        }
        head += 1;
    }
    Ok(None)
}
