//! Graphs of gates, to which nodes are added at the end.

ghost use Rattle.std.specs.Prelude.{◌≡◌, ℕ, Bool, false, ◌&&◌, ◌+◌, ◌*◌, ◌/◌, ◌^◌, ◌<◌, List, [], ◌∷◌, ◌++◌, length, slice_get, IfOk, OnOk, OnErr};
ghost use Rattle.gate_graph.specs.declared.nodes.Node.TheVariants.{Zero, Latch, Input, And};
ghost use Rattle.gate_graph.specs.Gates.{wire_value, IsOf, Extends, Keeps, Means, IsLow, IsGraph, IsSimple, latch_count, input_count};
ghost use Rattle.gate_graph.specs.Sharing.{and_of, gate_of};
ghost use Rattle.gate_graph.specs.Values.{at, IsValuation, node_value};

use crate::nodes::Node;
use crate::values::evaluate;
use crate::wires::Wire;
use std::alloc::{AllocError, Global};
use std::collections::HashMap;
use std::marker::Model;

/// A list of nodes. Node 0 is `Zero`, the wires of each gate are of two different lower nodes, and
/// the latch nodes and the input nodes are each counted from 0 in the order of the list. A table has
/// the first gate of each two wires, so that a conjunction takes the gate that is there.
#[derive(Debug, Drop)]
pub struct Graph {
    nodes: Vec<Node>,
    latches: u32,
    inputs: u32,
    gates: HashMap<(u32, u32), u32>,
}

impl Model for Graph {
    ghost use Rattle.std.specs.Prelude.{List};
    ghost use Rattle.gate_graph.specs.declared.nodes.Node.{Node};

    ghost Value = { List Node };

    ghost use Rattle.gate_graph.specs.Held.{IsHeld, pair_eq};
    ghost use Rattle.std.specs.HashMap.{get};

    ghost view = { λ g. g.nodes.items };

    ghost invariant = { λ g. IsHeld g.nodes.items g.latches g.inputs (get pair_eq g.gates) };
}

impl Graph {
    /// The graph of node 0 alone.
    pub fn new(alloc: Global) -> Result<Graph, AllocError>
        ensures { IfOk result (λ g. g ≡ Zero ∷ []) }
    {
        let mut nodes = Vec::new(alloc);
        nodes.push(Node::Zero)?;
        Ok(Graph {
            nodes,
            latches: 0,
            inputs: 0,
            gates: HashMap::new(alloc),
        })
    }

    /// Adds a node for the next latch, counted from 0, and gives its wire, not inverted.
    pub fn latch(&mut self) -> Result<Wire, AllocError>
        requires { length self.old + 1 < 2 ^ 31 }
        ensures added { OnOk result (self.new ≡ self.old ++ Latch (latch_count self.old) ∷ []) }
        ensures wire { IfOk result (λ w. w.0 ≡ 2 * length self.old) }
        ensures keeps { Keeps self.old self.new }
        ensures err { OnErr result (self.new ≡ self.old) }
    {
        let place = self.nodes.len();
        self.nodes.push(Node::Latch(self.latches))?;
        self.latches += 1;
        Ok(Wire(2 * place as u32))
    }

    /// Adds a node for the next input, counted from 0, and gives its wire, not inverted.
    pub fn input(&mut self) -> Result<Wire, AllocError>
        requires { length self.old + 1 < 2 ^ 31 }
        ensures added { OnOk result (self.new ≡ self.old ++ Input (input_count self.old) ∷ []) }
        ensures wire { IfOk result (λ w. w.0 ≡ 2 * length self.old) }
        ensures keeps { Keeps self.old self.new }
        ensures err { OnErr result (self.new ≡ self.old) }
    {
        let place = self.nodes.len();
        self.nodes.push(Node::Input(self.inputs))?;
        self.inputs += 1;
        Ok(Wire(2 * place as u32))
    }

    /// The number of nodes.
    pub fn size(&self) -> u32
        ensures size { result ≡ length self.now }
        ensures graph { IsGraph self.now }
    {
        self.nodes.len() as u32
    }

    /// The number of latch nodes.
    pub fn latch_count(&self) -> u32
        ensures { result ≡ latch_count self.now }
    {
        self.latches
    }

    /// The number of input nodes.
    pub fn input_count(&self) -> u32
        ensures { result ≡ input_count self.now }
    {
        self.inputs
    }

    /// Node `i`.
    pub fn node(&self, i: u32) -> Node
        requires { i < length self.now }
        ensures node { slice_get self.now i ≡ Some result }
        ensures low { IsLow i result }
    {
        self.nodes[i as usize]
    }

    /// The wire that is constantly false.
    pub fn zero(&self) -> Wire
        ensures wire { result.0 ≡ 0 }
        ensures value { Means self.now result (λ _. false) }
    {
        let _ = &self.nodes;
        Wire(0)
    }

    /// The gate of these two wires of different lower nodes: the one that is there, else a new one.
    #[tactic(auto, unfolding(crate::specs::Sharing::gate_of))]
    fn gate(&mut self, a: Wire, b: Wire) -> Result<Wire, AllocError>
        requires low { IsLow (length self.old) (And a b) }
        requires room { length self.old + 1 < 2 ^ 31 }
        ensures exact { IfOk result (λ w. gate_of self.old a b ≡ (w, self.new)) }
        ensures err { OnErr result (self.new ≡ self.old) }
    {
        let place = self.nodes.len() as u32;
        if let Some(found) = self.gates.get(&(a.0, b.0)) {
            return Ok(Wire(2 * *found));
        }
        self.nodes.push(Node::And(a, b))?;
        match self.gates.insert((a.0, b.0), place) {
            Ok(_) => Ok(Wire(2 * place)),
            Err(_) => {
                let _ = self.nodes.pop();
                Err(AllocError)
            }
        }
    }

    /// The wire of the conjunction, and the graph, that `and_of` gives.
    #[tactic(auto, unfolding(crate::specs::Sharing::and_of))]
    fn conjunction(&mut self, a: Wire, b: Wire) -> Result<Wire, AllocError>
        requires a_of { IsOf a self.old }
        requires b_of { IsOf b self.old }
        requires room { length self.old + 1 < 2 ^ 31 }
        ensures exact { IfOk result (λ w. and_of self.old a b ≡ (w, self.new)) }
        ensures err { OnErr result (self.new ≡ self.old) }
    {
        if a.0 == 0 || b.0 == 0 {
            return Ok(Wire(0));
        }
        if a.0 == 1 || a.0 == b.0 {
            return Ok(b);
        }
        if b.0 == 1 {
            return Ok(a);
        }
        if a.0 / 2 == b.0 / 2 {
            return Ok(Wire(0));
        }
        if a.0 < b.0 {
            self.gate(a, b)
        } else {
            self.gate(b, a)
        }
    }

    /// The wire whose value is the conjunction of these two. Where one of the graph's gates has
    /// these two wires, its wire is given. At most one node is added, and none where a wire is
    /// constant or both are of one node.
    pub fn and(&mut self, a: Wire, b: Wire) -> Result<Wire, AllocError>
        requires a_of { IsOf a self.old }
        requires b_of { IsOf b self.old }
        requires room { length self.old + 1 < 2 ^ 31 }
        ensures extends { Extends self.old self.new 1 }
        ensures simple { IsSimple a b → self.new ≡ self.old }
        ensures exact { IfOk result (λ w. and_of self.old a b ≡ (w, self.new)) }
        ensures err { OnErr result (self.new ≡ self.old) }
        ensures wire { IfOk result (λ w. Means self.new w (λ v. wire_value v a && wire_value v b)) }
    {
        let _ = &self.nodes;
        let wire = self.conjunction(a, b)?;
        Ok(wire)
    }

    /// Writes the value of each node into the table, under these latches and inputs.
    pub fn eval(&self, latches: &[bool], inputs: &[bool], table: &mut [bool])
        requires latches { length latches.now ≡ latch_count self.now }
        requires inputs { length inputs.now ≡ input_count self.now }
        requires table { length table.old ≡ length self.now }
        ensures length { length table.new ≡ length self.now }
        ensures values { IsValuation latches.now inputs.now (at table.new) self.now }
    {
        evaluate(self.nodes.as_slice(), latches, inputs, table);
    }
}
