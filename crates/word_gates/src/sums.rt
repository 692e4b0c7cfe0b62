//! Sums, differences and comparisons.

ghost use Rattle.std.specs.Prelude.{◌≡◌, ℕ, Bool, not, ◌&&◌, ◌||◌, ◌+◌, ◌*◌, ◌^◌, ◌<◌, List, [], ◌∷◌, ◌++◌, map, replicate, length, IfOk, OnOk};
ghost use Rattle.gate_graph.specs.declared.nodes.Node.{Node};
ghost use Rattle.gate_graph.specs.Gates.{wire_value, AreOf, IsOf, Extends, Means};
ghost use Rattle.bit_base.specs.Operators.{differ, sum_of, difference_of, negation_of, is_less, is_less_signed};
ghost use Rattle.word_gates.specs.Ripple.{sum_bits, carry_bits, with_sign_inverted};
ghost use Rattle.word_gates.specs.Words.{values, Shows};
ghost use Rattle.word_gates.specs.Graphs.{inverse, one_made, sum_step_made, sums_made, carry_out_made, add_made, sub_made, negate_made, less_made, sign_inverse, less_signed_made};
ghost use Rattle.gate_graph.specs.declared.wires.Wire.{Wire};

use crate::places::{carry_wire, inverted, sum_wire};
use crate::reductions::word_of;
use gate_graph::{Graph, Wire};
use std::alloc::{AllocError, Global};

/// The sum of two bits and the carry, which becomes the next carry: ten gates.
pub fn sum_step(graph: &mut Graph, a: Wire, b: Wire, carry: &mut Wire) -> Result<Wire, AllocError>
    requires a_of { IsOf a graph.old }
    requires b_of { IsOf b graph.old }
    requires carry_of { IsOf carry.old graph.old }
    requires room { length graph.old + 10 < 2 ^ 31 }
    ensures extends { Extends graph.old graph.new 10 }
    ensures sum { IfOk result (λ w. Means graph.new w (λ v. differ (differ (wire_value v a) (wire_value v b)) (wire_value v carry.old))) }
    ensures carry { OnOk result (Means graph.new carry.new (λ v. wire_value v a && wire_value v b || wire_value v carry.old && (wire_value v a || wire_value v b))) }
    ensures exact { IfOk result (λ w. (wires : List Wire) → sum_step_made graph.old (wires, carry.old) (a, b) ≡ ((wires ++ w ∷ [], carry.new), graph.new)) }
{
    let sum = sum_wire(graph, a, b, *carry)?;
    let carried = carry_wire(graph, a, b, *carry)?;
    *carry = carried;
    Ok(sum)
}

/// The sum of two words and a carry, without the carry out: ten gates a place.
pub fn sums(
    graph: &mut Graph,
    alloc: Global,
    a: &[Wire],
    b: &[Wire],
    start: Wire,
) -> Result<Vec<Wire>, AllocError>
    requires a_of { AreOf a.now graph.old }
    requires b_of { AreOf b.now graph.old }
    requires start_of { IsOf start graph.old }
    requires lengths { length a.now ≡ length b.now }
    requires room { length graph.old + length a.now * 10 < 2 ^ 31 }
    ensures nodes { Extends graph.old graph.new (length a.now * 10) }
    ensures length { IfOk result (λ wires. length wires.items ≡ length a.now) }
    ensures value { IfOk result (λ wires. Shows graph.new wires.items (λ v. sum_bits (values v a.now) (values v b.now) (wire_value v start))) }
    ensures exact { IfOk result (λ wires. sums_made graph.old a.now b.now start ≡ (wires.items, graph.new)) }
{
    let mut carry = start;
    let wires = each_lane!(alloc, a.len(), i => sum_step(graph, a[i], b[i], &mut carry));
    Ok(wires)
}

/// The carry out of the sum of two words and a carry: four gates a place.
pub fn carry_out(graph: &mut Graph, a: &[Wire], b: &[Wire], start: Wire) -> Result<Wire, AllocError>
    requires a_of { AreOf a.now graph.old }
    requires b_of { AreOf b.now graph.old }
    requires start_of { IsOf start graph.old }
    requires lengths { length a.now ≡ length b.now }
    requires room { length graph.old + length a.now * 4 < 2 ^ 31 }
    ensures nodes { Extends graph.old graph.new (length a.now * 4) }
    ensures wire { IfOk result (λ w. Means graph.new w (λ v. carry_bits (values v a.now) (values v b.now) (wire_value v start))) }
    ensures exact { IfOk result (λ w. carry_out_made graph.old a.now b.now start ≡ (w, graph.new)) }
{
    let mut carry = start;
    for i in 0..a.len() {
        carry = carry_wire(graph, a[i], b[i], carry)?;
    }
    Ok(carry)
}

/// The word with each wire inverted; no gates.
pub fn inverted_word(alloc: Global, a: &[Wire]) -> Result<Vec<Wire>, AllocError>
    ensures length { IfOk result (λ wires. length wires.items ≡ length a.now) }
    ensures value { IfOk result (λ wires. (nodes : List Node) → AreOf a.now nodes → Shows nodes wires.items (λ v. map not (values v a.now))) }
    ensures exact { IfOk result (λ wires. wires.items ≡ map inverse a.now) }
{
    let mut wires = Vec::new(alloc);
    for i in 0..a.len() {
        wires.push(inverted(a[i]))?;
    }
    Ok(wires)
}

/// The word with its last wire inverted; no gates.
pub fn sign_inverted(alloc: Global, a: &[Wire]) -> Result<Vec<Wire>, AllocError>
    requires { 0 < length a.now }
    ensures length { IfOk result (λ wires. length wires.items ≡ length a.now) }
    ensures value { IfOk result (λ wires. (nodes : List Node) → AreOf a.now nodes → Shows nodes wires.items (λ v. with_sign_inverted (values v a.now))) }
    ensures exact { IfOk result (λ wires. wires.items ≡ sign_inverse a.now) }
{
    let last = a.len() - 1;
    let mut wires = Vec::new(alloc);
    wires.extend_from_slice(&a[..last])?;
    wires.push(inverted(a[last]))?;
    Ok(wires)
}

/// So many times the same wire.
pub fn repeated(alloc: Global, wire: Wire, count: usize) -> Result<Vec<Wire>, AllocError>
    ensures { IfOk result (λ wires. wires.items ≡ replicate count wire) }
{
    let mut wires = Vec::new(alloc);
    for i in 0..count {
        wires.push(wire)?;
    }
    Ok(wires)
}

/// `a + b`, modulo 2 to the width: ten gates a place.
pub fn add(
    graph: &mut Graph,
    alloc: Global,
    a: &[Wire],
    b: &[Wire],
) -> Result<Vec<Wire>, AllocError>
    requires a_of { AreOf a.now graph.old }
    requires b_of { AreOf b.now graph.old }
    requires lengths { length a.now ≡ length b.now }
    requires room { length graph.old + 10 * length a.now < 2 ^ 31 }
    ensures nodes { Extends graph.old graph.new (10 * length a.now) }
    ensures length { IfOk result (λ wires. length wires.items ≡ length a.now) }
    ensures value { IfOk result (λ wires. Shows graph.new wires.items (λ v. sum_of (values v a.now) (values v b.now))) }
    ensures exact { IfOk result (λ wires. add_made graph.old a.now b.now ≡ (wires.items, graph.new)) }
{
    let start = graph.zero();
    let wires = sums(graph, alloc, a, b, start)?;
    Ok(wires)
}

/// `a - b`, modulo 2 to the width: ten gates a place.
pub fn sub(
    graph: &mut Graph,
    alloc: Global,
    a: &[Wire],
    b: &[Wire],
) -> Result<Vec<Wire>, AllocError>
    requires a_of { AreOf a.now graph.old }
    requires b_of { AreOf b.now graph.old }
    requires lengths { length a.now ≡ length b.now }
    requires room { length graph.old + 10 * length a.now < 2 ^ 31 }
    ensures nodes { Extends graph.old graph.new (10 * length a.now) }
    ensures length { IfOk result (λ wires. length wires.items ≡ length a.now) }
    ensures value { IfOk result (λ wires. Shows graph.new wires.items (λ v. difference_of (values v a.now) (values v b.now))) }
    ensures exact { IfOk result (λ wires. sub_made graph.old a.now b.now ≡ (wires.items, graph.new)) }
{
    let start = inverted(graph.zero());
    let opposite = inverted_word(alloc, b)?;
    let wires = sums(graph, alloc, a, opposite.as_slice(), start)?;
    Ok(wires)
}

/// `-a`, modulo 2 to the width: ten gates a place.
pub fn negate(graph: &mut Graph, alloc: Global, a: &[Wire]) -> Result<Vec<Wire>, AllocError>
    requires a_of { AreOf a.now graph.old }
    requires room { length graph.old + 10 * length a.now < 2 ^ 31 }
    ensures nodes { Extends graph.old graph.new (10 * length a.now) }
    ensures length { IfOk result (λ wires. length wires.items ≡ length a.now) }
    ensures value { IfOk result (λ wires. Shows graph.new wires.items (λ v. negation_of (values v a.now))) }
    ensures exact { IfOk result (λ wires. negate_made graph.old a.now ≡ (wires.items, graph.new)) }
{
    let zero = graph.zero();
    let zeros = repeated(alloc, zero, a.len())?;
    let wires = sub(graph, alloc, zeros.as_slice(), a)?;
    Ok(wires)
}

/// `a < b` of unsigned words: four gates a place.
pub fn less(
    graph: &mut Graph,
    alloc: Global,
    a: &[Wire],
    b: &[Wire],
) -> Result<Vec<Wire>, AllocError>
    requires a_of { AreOf a.now graph.old }
    requires b_of { AreOf b.now graph.old }
    requires lengths { length a.now ≡ length b.now }
    requires room { length graph.old + 4 * length a.now < 2 ^ 31 }
    ensures nodes { Extends graph.old graph.new (4 * length a.now) }
    ensures length { IfOk result (λ wires. length wires.items ≡ 1) }
    ensures value { IfOk result (λ wires. Shows graph.new wires.items (λ v. is_less (values v a.now) (values v b.now) ∷ [])) }
    ensures exact { IfOk result (λ wires. one_made (less_made graph.old a.now b.now) ≡ (wires.items, graph.new)) }
{
    let start = inverted(graph.zero());
    let opposite = inverted_word(alloc, b)?;
    let carry = carry_out(graph, a, opposite.as_slice(), start)?;
    let wire = inverted(carry);
    let wires = word_of(alloc, wire)?;
    Ok(wires)
}

/// `a < b` of signed words: four gates a place.
pub fn less_signed(
    graph: &mut Graph,
    alloc: Global,
    a: &[Wire],
    b: &[Wire],
) -> Result<Vec<Wire>, AllocError>
    requires a_of { AreOf a.now graph.old }
    requires b_of { AreOf b.now graph.old }
    requires some { 0 < length a.now }
    requires lengths { length a.now ≡ length b.now }
    requires room { length graph.old + 4 * length a.now < 2 ^ 31 }
    ensures nodes { Extends graph.old graph.new (4 * length a.now) }
    ensures length { IfOk result (λ wires. length wires.items ≡ 1) }
    ensures value { IfOk result (λ wires. Shows graph.new wires.items (λ v. is_less_signed (values v a.now) (values v b.now) ∷ [])) }
    ensures exact { IfOk result (λ wires. one_made (less_signed_made graph.old a.now b.now) ≡ (wires.items, graph.new)) }
{
    let left = sign_inverted(alloc, a)?;
    let right = sign_inverted(alloc, b)?;
    let wires = less(graph, alloc, left.as_slice(), right.as_slice())?;
    Ok(wires)
}
