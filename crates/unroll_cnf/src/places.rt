//! The nodes of latches and inputs, by their numbers.

ghost use Rattle.std.specs.Prelude.{◌≡◌, ◌+◌, ◌^◌, ◌<◌, ◌≤◌, [], ◌∷◌, ◌++◌, IfOk, OnOk};
ghost use Rattle.unroll_cnf.specs.Queries.{latch_places, input_places};

use gate_graph::{Circuit, Node};
use std::alloc::{AllocError, Global};
use std::vec::Vec;

/// Adds the node's number, if it is a latch.
fn push_latch_place(places: &mut Vec<u32>, i: u32, node: Node) -> Result<(), AllocError>
    ensures { OnOk result (places.new.items ≡ places.old.items ++ latch_places i (node ∷ [])) }
{
    match node {
        Node::Latch(_) => {
            places.push(i)?;
            Ok(())
        }
        Node::Zero | Node::Input(_) | Node::And(_, _) => Ok(()),
    }
}

/// The numbers of the latch nodes, in the order of the latches.
pub(crate) fn latch_nodes(alloc: Global, circuit: &Circuit) -> Result<Vec<u32>, AllocError>
    ensures { IfOk result (λ p. p.items ≡ latch_places 0 circuit.now.graph) }
{
    let mut places = Vec::new(alloc);
    for i in 0..circuit.graph.size() {
        push_latch_place(&mut places, i, circuit.graph.node(i))?;
    }
    Ok(places)
}

/// Adds the node's number, if it is an input.
fn push_input_place(places: &mut Vec<u32>, i: u32, node: Node) -> Result<(), AllocError>
    ensures { OnOk result (places.new.items ≡ places.old.items ++ input_places i (node ∷ [])) }
{
    match node {
        Node::Input(_) => {
            places.push(i)?;
            Ok(())
        }
        Node::Zero | Node::Latch(_) | Node::And(_, _) => Ok(()),
    }
}

/// The numbers of the input nodes, in the order of the inputs.
pub(crate) fn input_nodes(alloc: Global, circuit: &Circuit) -> Result<Vec<u32>, AllocError>
    ensures { IfOk result (λ p. p.items ≡ input_places 0 circuit.now.graph) }
{
    let mut places = Vec::new(alloc);
    for i in 0..circuit.graph.size() {
        push_input_place(&mut places, i, circuit.graph.node(i))?;
    }
    Ok(places)
}
