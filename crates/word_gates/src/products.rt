//! Products.

ghost use Rattle.std.specs.Prelude.{◌≡◌, ℕ, Bool, ◌&&◌, ◌+◌, ◌*◌, ◌^◌, ◌<◌, map, length, IfOk};
ghost use Rattle.gate_graph.specs.Gates.{wire_value, AreOf, IsOf, Extends};
ghost use Rattle.bit_base.specs.Operators.{product_of, sum_of, shifted_left};
ghost use Rattle.word_gates.specs.Words.{values, Shows};
ghost use Rattle.word_gates.specs.Graphs.{row_made, product_made};

use crate::choices::masked;
use crate::moves::{UP, moved};
use crate::sums::{add, repeated};
use gate_graph::{Graph, Wire};
use std::alloc::{AllocError, Global};

/// The sum and one row of a product: the word moved up by so many places, where the bit is true.
/// Eleven gates a place.
pub fn with_row(
    graph: &mut Graph,
    alloc: Global,
    sum: &[Wire],
    a: &[Wire],
    places: usize,
    bit: Wire,
) -> Result<Vec<Wire>, AllocError>
    requires sum_of { AreOf sum.now graph.old }
    requires a_of { AreOf a.now graph.old }
    requires bit_of { IsOf bit graph.old }
    requires lengths { length sum.now ≡ length a.now }
    requires room { length graph.old + 11 * length a.now < 2 ^ 31 }
    ensures nodes { Extends graph.old graph.new (11 * length a.now) }
    ensures length { IfOk result (λ wires. length wires.items ≡ length a.now) }
    ensures value { IfOk result (λ wires. Shows graph.new wires.items
        (λ v. sum_of (values v sum.now) (map (λ x. x && wire_value v bit) (shifted_left places (values v a.now))))) }
    ensures exact { IfOk result (λ wires. row_made graph.old sum.now a.now places bit ≡ (wires.items, graph.new)) }
{
    let zero = graph.zero();
    let higher = moved::<UP>(alloc, a, places, zero)?;
    let row = masked(graph, alloc, higher.as_slice(), bit)?;
    let wires = add(graph, alloc, sum, row.as_slice())?;
    Ok(wires)
}

/// `a * b`, modulo 2 to the width: eleven gates for each place of both.
pub fn mul(
    graph: &mut Graph,
    alloc: Global,
    a: &[Wire],
    b: &[Wire],
) -> Result<Vec<Wire>, AllocError>
    requires a_of { AreOf a.now graph.old }
    requires b_of { AreOf b.now graph.old }
    requires lengths { length a.now ≡ length b.now }
    requires room { length graph.old + length a.now * (11 * length a.now) < 2 ^ 31 }
    ensures nodes { Extends graph.old graph.new (length a.now * (11 * length a.now)) }
    ensures length { IfOk result (λ wires. length wires.items ≡ length a.now) }
    ensures value { IfOk result (λ wires. Shows graph.new wires.items (λ v. product_of (values v a.now) (values v b.now))) }
    ensures exact { IfOk result (λ wires. product_made graph.old a.now b.now ≡ (wires.items, graph.new)) }
{
    let zero = graph.zero();
    let mut sum = repeated(alloc, zero, a.len())?;
    for i in 0..b.len() {
        sum = with_row(graph, alloc, sum.as_slice(), a, i, b[i])?;
    }
    Ok(sum)
}
