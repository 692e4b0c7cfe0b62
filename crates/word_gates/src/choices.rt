//! Choices between words.

ghost use Rattle.std.specs.Prelude.{◌≡◌, ℕ, Bool, ◌&&◌, if◌then◌else◌, ◌+◌, ◌*◌, ◌^◌, ◌<◌, map, length, IfOk};
ghost use Rattle.gate_graph.specs.Gates.{wire_value, AreOf, IsOf, Extends};
ghost use Rattle.bit_base.specs.Operators.{chosen, picked};
ghost use Rattle.word_gates.specs.Words.{values, Shows};
ghost use Rattle.word_gates.specs.Graphs.{between_made, masked_made, chosen_made, picked_made};

use crate::places::pick_wire;
use crate::reductions::any_wire;
use gate_graph::{Graph, Wire};
use std::alloc::{AllocError, Global};

/// The first word where the wire is true, else the second: three gates a place.
pub fn between(
    graph: &mut Graph,
    alloc: Global,
    a: &[Wire],
    b: &[Wire],
    c: Wire,
) -> Result<Vec<Wire>, AllocError>
    requires a_of { AreOf a.now graph.old }
    requires b_of { AreOf b.now graph.old }
    requires c_of { IsOf c graph.old }
    requires lengths { length a.now ≡ length b.now }
    requires room { length graph.old + length a.now * 3 < 2 ^ 31 }
    ensures nodes { Extends graph.old graph.new (length a.now * 3) }
    ensures length { IfOk result (λ wires. length wires.items ≡ length a.now) }
    ensures value { IfOk result (λ wires. Shows graph.new wires.items (λ v. if wire_value v c then values v a.now else values v b.now)) }
    ensures exact { IfOk result (λ wires. between_made graph.old a.now b.now c ≡ (wires.items, graph.new)) }
{
    let wires = each_lane!(alloc, a.len(), i => pick_wire(graph, a[i], b[i], c));
    Ok(wires)
}

/// Each place of the word where the wire is true, else false: one gate a place.
pub fn masked(
    graph: &mut Graph,
    alloc: Global,
    a: &[Wire],
    c: Wire,
) -> Result<Vec<Wire>, AllocError>
    requires a_of { AreOf a.now graph.old }
    requires c_of { IsOf c graph.old }
    requires room { length graph.old + length a.now * 1 < 2 ^ 31 }
    ensures nodes { Extends graph.old graph.new (length a.now * 1) }
    ensures length { IfOk result (λ wires. length wires.items ≡ length a.now) }
    ensures value { IfOk result (λ wires. Shows graph.new wires.items (λ v. map (λ x. x && wire_value v c) (values v a.now))) }
    ensures exact { IfOk result (λ wires. masked_made graph.old a.now c ≡ (wires.items, graph.new)) }
{
    let wires = each_lane!(alloc, a.len(), i => graph.and(a[i], c));
    Ok(wires)
}

/// `c ? a : b`: a where some wire of c is true, else b. Three gates a place, and one for each wire of c.
#[tactic(auto, unfolding(crate::specs::Graphs::chosen_made))]
pub fn choose(
    graph: &mut Graph,
    alloc: Global,
    a: &[Wire],
    b: &[Wire],
    c: &[Wire],
) -> Result<Vec<Wire>, AllocError>
    requires a_of { AreOf a.now graph.old }
    requires b_of { AreOf b.now graph.old }
    requires c_of { AreOf c.now graph.old }
    requires lengths { length a.now ≡ length b.now }
    requires room { length graph.old + 3 * length a.now + length c.now < 2 ^ 31 }
    ensures nodes { Extends graph.old graph.new (3 * length a.now + length c.now) }
    ensures length { IfOk result (λ wires. length wires.items ≡ length a.now) }
    ensures value { IfOk result (λ wires. Shows graph.new wires.items (λ v. chosen (values v a.now) (values v b.now) (values v c.now))) }
    ensures exact { IfOk result (λ wires. chosen_made graph.old a.now b.now c.now ≡ (wires.items, graph.new)) }
{
    let condition = any_wire(graph, c)?;
    let wires = between(graph, alloc, a, b, condition)?;
    Ok(wires)
}

/// At each place a where c is true there, else b: three gates a place.
pub fn pick(
    graph: &mut Graph,
    alloc: Global,
    a: &[Wire],
    b: &[Wire],
    c: &[Wire],
) -> Result<Vec<Wire>, AllocError>
    requires a_of { AreOf a.now graph.old }
    requires b_of { AreOf b.now graph.old }
    requires c_of { AreOf c.now graph.old }
    requires lengths { length a.now ≡ length b.now }
    requires conditions { length a.now ≡ length c.now }
    requires room { length graph.old + 3 * length a.now < 2 ^ 31 }
    ensures nodes { Extends graph.old graph.new (3 * length a.now) }
    ensures length { IfOk result (λ wires. length wires.items ≡ length a.now) }
    ensures value { IfOk result (λ wires. Shows graph.new wires.items (λ v. picked (values v a.now) (values v b.now) (values v c.now))) }
    ensures exact { IfOk result (λ wires. picked_made graph.old a.now b.now c.now ≡ (wires.items, graph.new)) }
{
    let wires = each_lane!(alloc, a.len(), i => pick_wire(graph, a[i], b[i], c[i]));
    Ok(wires)
}
