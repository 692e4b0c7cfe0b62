//! The bitwise operators.

ghost use Rattle.std.specs.Prelude.{◌≡◌, ℕ, Bool, ◌+◌, ◌*◌, ◌^◌, ◌<◌, length, IfOk};
ghost use Rattle.gate_graph.specs.Gates.{AreOf, Extends};
ghost use Rattle.bit_base.specs.Operators.{and_of, or_of, xor_of, xnor_of};
ghost use Rattle.word_gates.specs.Words.{values, Shows};
ghost use Rattle.word_gates.specs.Graphs.{bitwise_made};

use crate::bitwise::bitwise;
use crate::places::{AND, OR, XNOR, XOR};
use gate_graph::{Graph, Wire};
use std::alloc::{AllocError, Global};

/// `a & b`, place by place: one gate a place.
pub fn and(
    graph: &mut Graph,
    alloc: Global,
    a: &[Wire],
    b: &[Wire],
) -> Result<Vec<Wire>, AllocError>
    requires a_of { AreOf a.now graph.old }
    requires b_of { AreOf b.now graph.old }
    requires lengths { length a.now ≡ length b.now }
    requires room { length graph.old + length a.now < 2 ^ 31 }
    ensures nodes { Extends graph.old graph.new (length a.now) }
    ensures length { IfOk result (λ wires. length wires.items ≡ length a.now) }
    ensures value { IfOk result (λ wires. Shows graph.new wires.items (λ v. and_of (values v a.now) (values v b.now))) }
    ensures exact { IfOk result (λ wires. bitwise_made 0 graph.old a.now b.now ≡ (wires.items, graph.new)) }
{
    bitwise::<AND>(graph, alloc, a, b)
}

/// `a | b`, place by place: one gate a place.
pub fn or(graph: &mut Graph, alloc: Global, a: &[Wire], b: &[Wire]) -> Result<Vec<Wire>, AllocError>
    requires a_of { AreOf a.now graph.old }
    requires b_of { AreOf b.now graph.old }
    requires lengths { length a.now ≡ length b.now }
    requires room { length graph.old + length a.now < 2 ^ 31 }
    ensures nodes { Extends graph.old graph.new (length a.now) }
    ensures length { IfOk result (λ wires. length wires.items ≡ length a.now) }
    ensures value { IfOk result (λ wires. Shows graph.new wires.items (λ v. or_of (values v a.now) (values v b.now))) }
    ensures exact { IfOk result (λ wires. bitwise_made 1 graph.old a.now b.now ≡ (wires.items, graph.new)) }
{
    bitwise::<OR>(graph, alloc, a, b)
}

/// `a ^ b`, place by place: three gates a place.
pub fn xor(
    graph: &mut Graph,
    alloc: Global,
    a: &[Wire],
    b: &[Wire],
) -> Result<Vec<Wire>, AllocError>
    requires a_of { AreOf a.now graph.old }
    requires b_of { AreOf b.now graph.old }
    requires lengths { length a.now ≡ length b.now }
    requires room { length graph.old + 3 * length a.now < 2 ^ 31 }
    ensures nodes { Extends graph.old graph.new (3 * length a.now) }
    ensures length { IfOk result (λ wires. length wires.items ≡ length a.now) }
    ensures value { IfOk result (λ wires. Shows graph.new wires.items (λ v. xor_of (values v a.now) (values v b.now))) }
    ensures exact { IfOk result (λ wires. bitwise_made 2 graph.old a.now b.now ≡ (wires.items, graph.new)) }
{
    bitwise::<XOR>(graph, alloc, a, b)
}

/// `a ~^ b`, place by place: three gates a place.
pub fn xnor(
    graph: &mut Graph,
    alloc: Global,
    a: &[Wire],
    b: &[Wire],
) -> Result<Vec<Wire>, AllocError>
    requires a_of { AreOf a.now graph.old }
    requires b_of { AreOf b.now graph.old }
    requires lengths { length a.now ≡ length b.now }
    requires room { length graph.old + 3 * length a.now < 2 ^ 31 }
    ensures nodes { Extends graph.old graph.new (3 * length a.now) }
    ensures length { IfOk result (λ wires. length wires.items ≡ length a.now) }
    ensures value { IfOk result (λ wires. Shows graph.new wires.items (λ v. xnor_of (values v a.now) (values v b.now))) }
    ensures exact { IfOk result (λ wires. bitwise_made 3 graph.old a.now b.now ≡ (wires.items, graph.new)) }
{
    bitwise::<XNOR>(graph, alloc, a, b)
}
