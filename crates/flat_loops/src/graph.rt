//! Graphs by the numbers of their nodes.

ghost use Rattle.std.specs.Prelude.{◌≡◌, ℕ, ◌++◌, ◌∷◌, [], List, map, length, OnOk, IfOk, MatchOption, true, false};
ghost use Rattle.flat_orders.specs.Orders.{among};
ghost use Rattle.flat_flows.specs.Tables.{in_table};
ghost use Rattle.flat_loops.specs.Graphs.{row_of, leads};

use flat_flows::marks::Marks;
use std::alloc::{AllocError, Global};
use std::marker::Model;
use std::vec::Vec;

/// A graph: for each node, in the order of their numbers, the nodes to which it leads.
#[derive(Drop)]
pub struct Graph {
    rows: Vec<Vec<usize>>,
}

impl Model for Graph {
    ghost Value = { List (List ℕ) };

    ghost view = { λ g. map (λ r. r.items) g.rows.items };
}

impl Graph {
    /// The graph of no node.
    pub fn new(alloc: Global) -> Graph
        ensures { result ≡ [] }
    {
        Graph {
            rows: Vec::new(alloc),
        }
    }

    /// How many nodes there are.
    pub fn len(&self) -> usize
        ensures { result ≡ length self.now }
    {
        self.rows.len()
    }

    /// The graph with one node more.
    pub fn push(&mut self, row: Vec<usize>) -> Result<(), AllocError>
        ensures { OnOk result (self.new ≡ self.old ++ row.items ∷ []) }
    {
        self.rows.push(row)?;
        Ok(())
    }

    /// The nodes to which a node leads; none where there is no such node.
    pub fn row(&self, node: usize) -> &[usize]
        ensures { result.now ≡ row_of self.now node }
    {
        match self.rows.get(node) {
            None => &[],
            Some(row) => row.as_slice(),
        }
    }

    /// The first node to which a node leads and that isn't in a set.
    pub fn next_outside(&self, node: usize, set: &Marks) -> Option<usize>
        ensures { MatchOption result ((j : ℕ) → leads self.now node j ≡ true → in_table set.now j ≡ true) (λ j. (leads self.now node j ≡ true) × (in_table set.now j ≡ false)) }
    {
        outside(self.row(node), set)
    }
}

/// The first number of a list that isn't in a set.
fn outside(numbers: &[usize], set: &Marks) -> Option<usize>
    ensures { MatchOption result ((j : ℕ) → among j numbers.now ≡ true → in_table set.now j ≡ true) (λ j. (among j numbers.now ≡ true) × (in_table set.now j ≡ false)) }
{
    for number in numbers {
        if !set.has(*number) {
            return Some(*number);
        }
    }
    None
}
