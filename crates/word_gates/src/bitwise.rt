//! Operators place by place.

ghost use Rattle.std.specs.Prelude.{◌≡◌, ℕ, Bool, ◌+◌, ◌*◌, ◌^◌, ◌<◌, length, IfOk};
ghost use Rattle.gate_graph.specs.Gates.{AreOf, Extends};
ghost use Rattle.bit_base.specs.Operators.{each_place};
ghost use Rattle.word_gates.specs.Places.{place_of, gates_of};
ghost use Rattle.word_gates.specs.Words.{values, Shows};
ghost use Rattle.word_gates.specs.Graphs.{bitwise_made};

use crate::places::place;
use gate_graph::{Graph, Wire};
use std::alloc::{AllocError, Global};

/// The operator of this number at each place of both words.
pub fn bitwise<const OPERATOR: u8>(
    graph: &mut Graph,
    alloc: Global,
    a: &[Wire],
    b: &[Wire],
) -> Result<Vec<Wire>, AllocError>
    requires a_of { AreOf a.now graph.old }
    requires b_of { AreOf b.now graph.old }
    requires lengths { length a.now ≡ length b.now }
    requires room { length graph.old + length a.now * gates_of OPERATOR < 2 ^ 31 }
    ensures nodes { Extends graph.old graph.new (length a.now * gates_of OPERATOR) }
    ensures length { IfOk result (λ wires. length wires.items ≡ length a.now) }
    ensures value { IfOk result (λ wires. Shows graph.new wires.items (λ v. each_place (place_of OPERATOR) (values v a.now) (values v b.now))) }
    ensures exact { IfOk result (λ wires. bitwise_made OPERATOR graph.old a.now b.now ≡ (wires.items, graph.new)) }
{
    let wires = each_lane!(alloc, a.len(), i => place::<OPERATOR>(graph, a[i], b[i]));
    Ok(wires)
}
