//! The values of nodes.

ghost use Rattle.std.specs.Prelude.{◌≡◌, ◌/◌, ◌<◌, length};
ghost use Rattle.gate_graph.specs.Gates.{wire_value, IsGraph, IsLow, latch_count, input_count};
ghost use Rattle.gate_graph.specs.Values.{at, IsValuation, node_value, IsNumbered};

use crate::nodes::Node;
use crate::wires::Wire;

/// Writes the value of each node into the table, in the order of the list.
pub fn evaluate(nodes: &[Node], latches: &[bool], inputs: &[bool], table: &mut [bool])
    requires graph { IsGraph nodes.now }
    requires latches { length latches.now ≡ latch_count nodes.now }
    requires inputs { length inputs.now ≡ input_count nodes.now }
    requires table { length table.old ≡ length nodes.now }
    ensures { IsValuation latches.now inputs.now (at table.new) nodes.now }
{
    for i in 0..nodes.len() {
        let value = value_of(nodes[i], i, latches, inputs, table);
        table[i] = value;
    }
}

/// The value of node `i`, where the table has the values of the lower ones.
fn value_of(node: Node, i: usize, latches: &[bool], inputs: &[bool], table: &[bool]) -> bool
    requires low { IsLow i node }
    requires within { i < length table.now }
    requires numbered { IsNumbered (length latches.now) (length inputs.now) node }
    ensures { result ≡ node_value latches.now inputs.now (at table.now) node }
{
    match node {
        Node::Zero => false,
        Node::Latch(number) => latches[number as usize],
        Node::Input(number) => inputs[number as usize],
        Node::And(a, b) => value_at(a, table) && value_at(b, table),
    }
}

/// The value of a wire, where the table has the value of its node.
#[tactic(auto, unfolding(crate::specs::Gates::wire_value))]
pub(crate) fn value_at(wire: Wire, table: &[bool]) -> bool
    requires { wire.0 / 2 < length table.now }
    ensures { result ≡ wire_value (at table.now) wire }
{
    let plain = table[(wire.0 / 2) as usize];
    if wire.0 % 2 == 1 { !plain } else { plain }
}
