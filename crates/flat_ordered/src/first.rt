//! The first of the loops of a graph, by the places of their first nodes.

ghost use Rattle.std.specs.Prelude.{◌≡◌, ◌<◌, ◌+◌, ℕ, List, true, length, slice_get, Some, IfOk};
ghost use Rattle.bit_base.specs.declared.place.Place as declared;
ghost use Rattle.flat_loops.specs.Graphs.{leads};
ghost use Rattle.flat_ordered.specs.Bests.{IsSoFar, IsNext};

use bit_base::place::Place;
use flat_cycles::search::round_at;
use flat_loops::graph::Graph;
use std::alloc::{AllocError, Global};
use std::vec::Vec;

/// A loop, the number of its first node, and the place of that.
#[derive(Debug, Drop)]
pub struct Best {
    pub number: usize,
    pub place: Place,
    pub round: Vec<usize>,
}

/// The loop that begins at a node, if there is one.
fn found_at(
    alloc: Global,
    graph: &Graph,
    number: usize,
    place: Place,
    other: Option<Best>,
) -> Result<Option<Best>, AllocError>
    requires { (k j : ℕ) → leads graph.now k j ≡ true → j < length graph.now }
    ensures { IfOk result (λ found. IsNext graph.now number place other found) }
{
    match round_at(alloc, graph, number)? {
        None => Ok(other),
        Some(round) => Ok(Some(Best {
            number,
            place,
            round,
        })),
    }
}

/// The first of the loops so far and that of a node. Where the node's place isn't before that of the loop so far, it isn't looked for.
fn first_of(
    alloc: Global,
    graph: &Graph,
    number: usize,
    place: Place,
    best: Option<Best>,
) -> Result<Option<Best>, AllocError>
    requires bounded { (k j : ℕ) → leads graph.now k j ≡ true → j < length graph.now }
    ensures { (places : List declared.Place) → slice_get places number ≡ Some place → IsSoFar graph.now places number best → IfOk result (IsSoFar graph.now places (number + 1)) }
{
    match best {
        None => found_at(alloc, graph, number, place, None),
        Some(best) => {
            if !place.is_before(best.place) {
                return Ok(Some(best));
            }
            found_at(alloc, graph, number, place, Some(best))
        }
    }
}

/// The first of the loops of a graph, by the places of their first nodes, and then by the nodes.
pub fn first_round(
    alloc: Global,
    graph: &Graph,
    places: &[Place],
) -> Result<Option<Best>, AllocError>
    requires bounded { (k j : ℕ) → leads graph.now k j ≡ true → j < length graph.now }
    ensures { IfOk result (IsSoFar graph.now places.now (length places.now)) }
{
    let mut best = None;
    for number in 0..places.len() {
        best = first_of(alloc, graph, number, places[number], best)?;
    }
    Ok(best)
}
