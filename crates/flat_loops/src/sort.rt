//! Sorting the nodes of a graph, or a loop in it.

ghost use Rattle.std.specs.Prelude.{◌≡◌, ℕ, ◌+◌, ◌-◌, ◌*◌, ◌<◌, ◌≤◌, ◌||◌, ◌++◌, ◌∷◌, List, [], Bool, Some, true, false, length, drop, slice_get, OnOk, IfOk, MatchOption};
ghost use Rattle.bit_base.specs.Operators.{count_of_true};
ghost use Rattle.flat_orders.specs.Orders.{among};
ghost use Rattle.flat_flows.specs.Tables.{in_table};
ghost use Rattle.flat_loops.specs.Graphs.{leads, IsLoop, IsSearch, IsClosed, AllIn, IsSorted};
ghost use Rattle.flat_loops.specs.Steps.{IsStep, IsBack, IsPart, HasSorted};
ghost use Rattle.flat_loops.specs.Sortings.{IsSorting};

use crate::graph::Graph;
use flat_flows::marks::Marks;
use flat_sets::NumberSet;
use std::alloc::{AllocError, Global};
use std::vec::Vec;

/// The part of a path from a node on.
fn from_node(alloc: Global, path: &[usize], node: usize) -> Result<Vec<usize>, AllocError>
    requires { among node path.now ≡ true }
    ensures { IfOk result (λ part. IsPart node path.now part.items) }
{
    for (i, n) in path.iter().enumerate() {
        if *n == node {
            return path[i..].to_vec(alloc);
        }
    }
    Ok(Vec::new(alloc))
}

/// One step of a search: the last node of the path goes, sorted if it wasn't, or one that it leads to comes behind it. Where that one
/// is on the path already, it is the answer.
fn step(
    graph: &Graph,
    seen: &mut NumberSet,
    done: &mut Marks,
    order: &mut Vec<usize>,
    path: &mut Vec<usize>,
) -> Result<Option<usize>, AllocError>
    requires search { IsSearch graph.now seen.old done.old order.old.items path.old.items }
    requires bounded { (k j : ℕ) → leads graph.now k j ≡ true → j < length seen.old }
    requires some { 0 < length path.old.items }
    ensures step { IfOk result (λ o. MatchOption o (IsStep graph.now seen.old done.old order.old.items path.old.items seen.new done.new order.new.items path.new.items) (λ next. IsBack graph.now path.new.items next)) }
{
    let Some(node) = path.pop() else {
        return Ok(None);
    };
    if done.has(node) {
        return Ok(None);
    }
    match graph.next_outside(node, done) {
        None => {
            order.push(node)?;
            done.add(node)?;
            Ok(None)
        }
        Some(next) => {
            path.push(node)?;
            if seen.has(next) {
                return Ok(Some(next));
            }
            seen.add(next)?;
            path.push(next)?;
            Ok(None)
        }
    }
}

/// Sorts a node with all to which it leads and that aren't sorted yet; or a loop among them.
fn sort_from(
    alloc: Global,
    graph: &Graph,
    node: usize,
    seen: &mut NumberSet,
    done: &mut Marks,
    order: &mut Vec<usize>,
) -> Result<Option<Vec<usize>>, AllocError>
    requires search { IsSearch graph.now seen.old done.old order.old.items [] }
    requires bounded { (k j : ℕ) → leads graph.now k j ≡ true → j < length seen.old }
    requires node { node < length seen.old }
    ensures sorted { IfOk result (λ o. MatchOption o (HasSorted graph.now node seen.old order.old.items seen.new done.new order.new.items) (λ found. IsLoop graph.now found.items)) }
{
    let mut path = Vec::new(alloc);
    path.push(node)?;
    'search: while !path.is_empty() {
        if let Some(next) = step(graph, seen, done, order, &mut path)? {
            let found = from_node(alloc, path.as_slice(), next)?;
            return Ok(Some(found));
        }
    }
    Ok(None)
}

/// What sorting gives: an order, or a loop.
#[derive(Debug, Drop)]
pub enum Sorting {
    Order(Vec<usize>),
    Loop(Vec<usize>),
}

/// Sorts these nodes, with all to which they lead: each after those; or a loop among them.
pub fn sort(alloc: Global, graph: &Graph, nodes: &[usize]) -> Result<Sorting, AllocError>
    requires bounded { (k j : ℕ) → leads graph.now k j ≡ true → j < length graph.now }
    requires nodes { (k : ℕ) → among k nodes.now ≡ true → k < length graph.now }
    ensures { IfOk result (IsSorting graph.now nodes.now) }
{
    let mut seen = NumberSet::empty(alloc, graph.len())?;
    let mut done = Marks::new(alloc);
    let mut order = Vec::new(alloc);
    for node in nodes {
        if let Some(found) = sort_from(alloc, graph, *node, &mut seen, &mut done, &mut order)? {
            return Ok(Sorting::Loop(found));
        }
    }
    Ok(Sorting::Order(order))
}
