//! The values of a graph's nodes in 64 runs at once: one word per node, and run `r` has bit `r`.

ghost use Rattle.std.specs.Prelude.{◌≡◌, ◌≢◌, ℕ, ◌*◌, ◌/◌, ◌<◌, Bool, length};
ghost use Rattle.gate_graph.specs.Gates.{wire_value, IsLow, latch_count, input_count};
ghost use Rattle.gate_graph.specs.Values.{IsValuation, IsNumbered, node_value};
ghost use Rattle.invariant_miner.specs.Lanes.{bit, lane, lane_at};

use gate_graph::{Circuit, Graph, Node, Wire};

/// The word with this bit in the place of run `r`.
#[tactic(auto, using(crate::proofs::BitLemmas::set_same, crate::proofs::BitLemmas::clear_same, crate::proofs::BitLemmas::set_other, crate::proofs::BitLemmas::clear_other))]
pub(crate) fn with_bit(word: u64, r: u32, value: bool) -> u64
    requires { r < 64 }
    ensures same { bit r result ≡ value }
    ensures others { (k : ℕ) → k < 64 → k ≢ r → bit k result ≡ bit k word }
{
    if value {
        word | 1 << r
    } else {
        word & !(1 << r)
    }
}

/// The values of a wire, where the table has those of its node.
pub(crate) fn wire_word(wire: Wire, table: &[u64]) -> u64
    requires { wire.0 / 2 < length table.now }
    ensures { (r : ℕ) → r < 64 → bit r result ≡ wire_value (lane_at r table.now) wire }
{
    let plain = table[(wire.0 / 2) as usize];
    if wire.0 % 2 == 1 { !plain } else { plain }
}

/// The values of a node, where the table has those of the lower ones.
fn node_word(node: Node, i: usize, latches: &[u64], inputs: &[u64], table: &[u64]) -> u64
    requires low { IsLow i node }
    requires within { i < length table.now }
    requires numbered { IsNumbered (length latches.now) (length inputs.now) node }
    ensures { (r : ℕ) → r < 64 → bit r result ≡ node_value (lane r latches.now) (lane r inputs.now) (lane_at r table.now) node }
{
    match node {
        Node::Zero => 0,
        Node::Latch(number) => latches[number as usize],
        Node::Input(number) => inputs[number as usize],
        Node::And(a, b) => wire_word(a, table) & wire_word(b, table),
    }
}

/// Writes the values of each node into the table.
pub(crate) fn evaluate(graph: &Graph, latches: &[u64], inputs: &[u64], table: &mut [u64])
    requires latches { length latches.now ≡ latch_count graph.now }
    requires inputs { length inputs.now ≡ input_count graph.now }
    requires table { length table.old ≡ length graph.now }
    ensures { (r : ℕ) → r < 64 → IsValuation (lane r latches.now) (lane r inputs.now) (lane_at r table.new) graph.now }
{
    for i in 0..graph.size() {
        let word = node_word(graph.node(i), i as usize, latches, inputs, table);
        table[i as usize] = word;
    }
}
