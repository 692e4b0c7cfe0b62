//! Reductions and equality.

ghost use Rattle.std.specs.Prelude.{◌≡◌, ℕ, Bool, ◌+◌, ◌*◌, ◌^◌, ◌<◌, [], ◌∷◌, length, IfOk};
ghost use Rattle.gate_graph.specs.Gates.{wire_value, AreOf, IsOf, Extends, Means};
ghost use Rattle.bit_base.specs.Operators.{are_all, is_any, is_odd, is_equal};
ghost use Rattle.word_gates.specs.Places.{place_of, gates_of, chained};
ghost use Rattle.word_gates.specs.Words.{values, Shows};
ghost use Rattle.word_gates.specs.Graphs.{one_made, chain_made, any_made, all_made, parity_made, equal_made};

use crate::bitwise::bitwise;
use crate::places::{AND, OR, XNOR, XOR, inverted, place};
use gate_graph::{Graph, Wire};
use std::alloc::{AllocError, Global};

/// The operator of this number over a wire and each wire of a word in turn.
pub fn chain<const OPERATOR: u8>(
    graph: &mut Graph,
    start: Wire,
    a: &[Wire],
) -> Result<Wire, AllocError>
    requires start_of { IsOf start graph.old }
    requires a_of { AreOf a.now graph.old }
    requires room { length graph.old + length a.now * gates_of OPERATOR < 2 ^ 31 }
    ensures nodes { Extends graph.old graph.new (length a.now * gates_of OPERATOR) }
    ensures wire { IfOk result (λ w. Means graph.new w (λ v. chained (place_of OPERATOR) (wire_value v start) (values v a.now))) }
    ensures exact { IfOk result (λ w. chain_made OPERATOR graph.old start a.now ≡ (w, graph.new)) }
{
    let mut along = start;
    for i in 0..a.len() {
        along = place::<OPERATOR>(graph, along, a[i])?;
    }
    Ok(along)
}

/// A word of this wire alone.
pub fn word_of(alloc: Global, wire: Wire) -> Result<Vec<Wire>, AllocError>
    ensures { IfOk result (λ wires. wires.items ≡ wire ∷ []) }
{
    let mut wires = Vec::new(alloc);
    wires.push(wire)?;
    Ok(wires)
}

/// The reduction `&a`: one gate a place.
pub fn all(graph: &mut Graph, alloc: Global, a: &[Wire]) -> Result<Vec<Wire>, AllocError>
    requires a_of { AreOf a.now graph.old }
    requires room { length graph.old + length a.now < 2 ^ 31 }
    ensures nodes { Extends graph.old graph.new (length a.now) }
    ensures length { IfOk result (λ wires. length wires.items ≡ 1) }
    ensures value { IfOk result (λ wires. Shows graph.new wires.items (λ v. are_all (values v a.now) ∷ [])) }
    ensures exact { IfOk result (λ wires. one_made (all_made graph.old a.now) ≡ (wires.items, graph.new)) }
{
    let start = inverted(graph.zero());
    let wire = chain::<AND>(graph, start, a)?;
    let wires = word_of(alloc, wire)?;
    Ok(wires)
}

/// The wire of the reduction `|a`: one gate a place.
pub fn any_wire(graph: &mut Graph, a: &[Wire]) -> Result<Wire, AllocError>
    requires a_of { AreOf a.now graph.old }
    requires room { length graph.old + length a.now < 2 ^ 31 }
    ensures nodes { Extends graph.old graph.new (length a.now) }
    ensures wire { IfOk result (λ w. Means graph.new w (λ v. is_any (values v a.now))) }
    ensures exact { IfOk result (λ w. any_made graph.old a.now ≡ (w, graph.new)) }
{
    let start = graph.zero();
    let wire = chain::<OR>(graph, start, a)?;
    Ok(wire)
}

/// The reduction `|a`: one gate a place.
pub fn any(graph: &mut Graph, alloc: Global, a: &[Wire]) -> Result<Vec<Wire>, AllocError>
    requires a_of { AreOf a.now graph.old }
    requires room { length graph.old + length a.now < 2 ^ 31 }
    ensures nodes { Extends graph.old graph.new (length a.now) }
    ensures length { IfOk result (λ wires. length wires.items ≡ 1) }
    ensures value { IfOk result (λ wires. Shows graph.new wires.items (λ v. is_any (values v a.now) ∷ [])) }
    ensures exact { IfOk result (λ wires. one_made (any_made graph.old a.now) ≡ (wires.items, graph.new)) }
{
    let wire = any_wire(graph, a)?;
    let wires = word_of(alloc, wire)?;
    Ok(wires)
}

/// The reduction `^a`: three gates a place.
pub fn parity(graph: &mut Graph, alloc: Global, a: &[Wire]) -> Result<Vec<Wire>, AllocError>
    requires a_of { AreOf a.now graph.old }
    requires room { length graph.old + 3 * length a.now < 2 ^ 31 }
    ensures nodes { Extends graph.old graph.new (3 * length a.now) }
    ensures length { IfOk result (λ wires. length wires.items ≡ 1) }
    ensures value { IfOk result (λ wires. Shows graph.new wires.items (λ v. is_odd (values v a.now) ∷ [])) }
    ensures exact { IfOk result (λ wires. one_made (parity_made graph.old a.now) ≡ (wires.items, graph.new)) }
{
    let start = graph.zero();
    let wire = chain::<XOR>(graph, start, a)?;
    let wires = word_of(alloc, wire)?;
    Ok(wires)
}

/// `a == b`: four gates a place.
pub fn equal(
    graph: &mut Graph,
    alloc: Global,
    a: &[Wire],
    b: &[Wire],
) -> Result<Vec<Wire>, AllocError>
    requires a_of { AreOf a.now graph.old }
    requires b_of { AreOf b.now graph.old }
    requires lengths { length a.now ≡ length b.now }
    requires room { length graph.old + 4 * length a.now < 2 ^ 31 }
    ensures nodes { Extends graph.old graph.new (4 * length a.now) }
    ensures length { IfOk result (λ wires. length wires.items ≡ 1) }
    ensures value { IfOk result (λ wires. Shows graph.new wires.items (λ v. is_equal (values v a.now) (values v b.now) ∷ [])) }
    ensures exact { IfOk result (λ wires. one_made (equal_made graph.old a.now b.now) ≡ (wires.items, graph.new)) }
{
    let same = bitwise::<XNOR>(graph, alloc, a, b)?;
    let start = inverted(graph.zero());
    let wire = chain::<AND>(graph, start, same.as_slice())?;
    let wires = word_of(alloc, wire)?;
    Ok(wires)
}
