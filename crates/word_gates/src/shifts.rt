//! Shifts by an amount of any length.

ghost use Rattle.std.specs.Prelude.{◌≡◌, ◌==◌, ℕ, Bool, true, false, ◌||◌, ◌+◌, ◌*◌, ◌^◌, ◌<◌, ◌≤◌, min, map, length, IfOk};
ghost use Rattle.gate_graph.specs.Gates.{wire_value, AreOf, IsOf, Extends};
ghost use Rattle.bit_base.specs.Numbers.{number_of, sign_of};
ghost use Rattle.bit_base.specs.Operators.{shifted_left, shifted_right};
ghost use Rattle.word_gates.specs.Moving.{moved_by};
ghost use Rattle.word_gates.specs.Words.{values, Shows};
ghost use Rattle.word_gates.specs.Graphs.{forced_made, shifted_made, shifted_signed_made};

use crate::choices::masked;
use crate::moves::{DOWN, UP, barrel};
use crate::places::{inverted, or_wire};
use crate::reductions::any_wire;
use gate_graph::{Graph, Wire};
use std::alloc::{AllocError, Global};

/// How many places of an amount are read one by one: a word has at most 2 to this many places.
const STAGES: usize = 11;

/// A shift without sign: where a far place of the amount is true, nothing is left.
pub fn shift<const DIRECTION: u8>(
    graph: &mut Graph,
    alloc: Global,
    a: &[Wire],
    b: &[Wire],
) -> Result<Vec<Wire>, AllocError>
    requires a_of { AreOf a.now graph.old }
    requires b_of { AreOf b.now graph.old }
    requires places { length a.now ≤ 2048 }
    requires room { length graph.old + 3 * length a.now * min (length b.now) 11 + length b.now + length a.now < 2 ^ 31 }
    ensures nodes { Extends graph.old graph.new (3 * length a.now * min (length b.now) 11 + length b.now + length a.now) }
    ensures length { IfOk result (λ wires. length wires.items ≡ length a.now) }
    ensures value { IfOk result (λ wires. Shows graph.new wires.items (λ v. moved_by (DIRECTION == UP) (number_of (values v b.now)) false (values v a.now))) }
    ensures exact { IfOk result (λ wires. shifted_made (DIRECTION == UP) graph.old a.now b.now ≡ (wires.items, graph.new)) }
{
    let near = b.len().min(STAGES);
    let far = any_wire(graph, &b[near..])?;
    let kept = masked(graph, alloc, a, inverted(far))?;
    let zero = graph.zero();
    let wires = barrel::<DIRECTION>(graph, alloc, kept.as_slice(), &b[..near], zero)?;
    Ok(wires)
}

/// `a << b`: for w places of a and n of b, 3w min(n, 11) + n + w gates.
pub fn shift_left(
    graph: &mut Graph,
    alloc: Global,
    a: &[Wire],
    b: &[Wire],
) -> Result<Vec<Wire>, AllocError>
    requires a_of { AreOf a.now graph.old }
    requires b_of { AreOf b.now graph.old }
    requires places { length a.now ≤ 2048 }
    requires room { length graph.old + 3 * length a.now * min (length b.now) 11 + length b.now + length a.now < 2 ^ 31 }
    ensures nodes { Extends graph.old graph.new (3 * length a.now * min (length b.now) 11 + length b.now + length a.now) }
    ensures length { IfOk result (λ wires. length wires.items ≡ length a.now) }
    ensures value { IfOk result (λ wires. Shows graph.new wires.items (λ v. shifted_left (number_of (values v b.now)) (values v a.now))) }
    ensures exact { IfOk result (λ wires. shifted_made true graph.old a.now b.now ≡ (wires.items, graph.new)) }
{
    shift::<UP>(graph, alloc, a, b)
}

/// `a >> b`: for w places of a and n of b, 3w min(n, 11) + n + w gates.
pub fn shift_right(
    graph: &mut Graph,
    alloc: Global,
    a: &[Wire],
    b: &[Wire],
) -> Result<Vec<Wire>, AllocError>
    requires a_of { AreOf a.now graph.old }
    requires b_of { AreOf b.now graph.old }
    requires places { length a.now ≤ 2048 }
    requires room { length graph.old + 3 * length a.now * min (length b.now) 11 + length b.now + length a.now < 2 ^ 31 }
    ensures nodes { Extends graph.old graph.new (3 * length a.now * min (length b.now) 11 + length b.now + length a.now) }
    ensures length { IfOk result (λ wires. length wires.items ≡ length a.now) }
    ensures value { IfOk result (λ wires. Shows graph.new wires.items (λ v. shifted_right (number_of (values v b.now)) false (values v a.now))) }
    ensures exact { IfOk result (λ wires. shifted_made false graph.old a.now b.now ≡ (wires.items, graph.new)) }
{
    shift::<DOWN>(graph, alloc, a, b)
}

/// Each place of the word, true also where the wire is: one gate a place.
pub fn forced(
    graph: &mut Graph,
    alloc: Global,
    a: &[Wire],
    c: Wire,
) -> Result<Vec<Wire>, AllocError>
    requires a_of { AreOf a.now graph.old }
    requires c_of { IsOf c graph.old }
    requires room { length graph.old + length a.now * 1 < 2 ^ 31 }
    ensures nodes { Extends graph.old graph.new (length a.now * 1) }
    ensures length { IfOk result (λ wires. length wires.items ≡ length a.now) }
    ensures value { IfOk result (λ wires. Shows graph.new wires.items (λ v. map (λ x. x || wire_value v c) (values v a.now))) }
    ensures exact { IfOk result (λ wires. forced_made graph.old a.now c ≡ (wires.items, graph.new)) }
{
    let wires = each_lane!(alloc, a.len(), i => or_wire(graph, a[i], c));
    Ok(wires)
}

/// `a >>> b` of a signed word, the sign coming in: for w places of a and n of b, 3w min(n, 11) + n + w
/// gates at most. A far place of the amount sets all near ones, and the sign alone is left.
pub fn shift_signed(
    graph: &mut Graph,
    alloc: Global,
    a: &[Wire],
    b: &[Wire],
) -> Result<Vec<Wire>, AllocError>
    requires a_of { AreOf a.now graph.old }
    requires b_of { AreOf b.now graph.old }
    requires some { 0 < length a.now }
    requires places { length a.now ≤ 2048 }
    requires room { length graph.old + 3 * length a.now * min (length b.now) 11 + length b.now + length a.now < 2 ^ 31 }
    ensures nodes { Extends graph.old graph.new (3 * length a.now * min (length b.now) 11 + length b.now + length a.now) }
    ensures length { IfOk result (λ wires. length wires.items ≡ length a.now) }
    ensures value { IfOk result (λ wires. Shows graph.new wires.items
        (λ v. shifted_right (number_of (values v b.now)) (sign_of (values v a.now)) (values v a.now))) }
    ensures exact { IfOk result (λ wires. shifted_signed_made graph.old a.now b.now ≡ (wires.items, graph.new)) }
{
    let sign = a[a.len() - 1];
    let near = b.len().min(STAGES);
    let far = any_wire(graph, &b[near..])?;
    let amount = forced(graph, alloc, &b[..near], far)?;
    let wires = barrel::<DOWN>(graph, alloc, a, amount.as_slice(), sign)?;
    Ok(wires)
}
