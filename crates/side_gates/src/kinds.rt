//! What the hardware of each kind of field makes of it.

ghost use Rattle.std.specs.Prelude.{◌≡◌, ℕ, Bool, ◌||◌, if◌then◌else◌, ◌+◌, ◌*◌, ◌^◌, ◌<◌, length, IfOk};
ghost use Rattle.gate_graph.specs.Gates.{wire_value, IsOf, AreOf, Extends, Means};
ghost use Rattle.word_gates.specs.Words.{values, Shows};
ghost use Rattle.side_gates.specs.Sides.{forced_bits};
ghost use Rattle.side_gates.specs.Graphs.{forced_made, any_three_made, any_four_made};

use gate_graph::{Graph, Wire};
use std::alloc::{AllocError, Global};
use std::vec::Vec;
use word_gates::{inverted, masked, or, or_wire, repeated};

/// The word, ones where `set` is true, then zeros where `clear` is: two gates a place.
#[tactic(auto, using(gate_graph::proofs::GateLemmas::are_of_later, gate_graph::proofs::GateLemmas::extends_more), unfolding(crate::specs::Graphs::forced_made))]
pub fn forced_word(
    graph: &mut Graph,
    alloc: Global,
    set: Wire,
    clear: Wire,
    a: &[Wire],
) -> Result<Vec<Wire>, AllocError>
    requires set_of { IsOf set graph.old }
    requires clear_of { IsOf clear graph.old }
    requires a_of { AreOf a.now graph.old }
    requires room { length graph.old + 2 * length a.now < 2 ^ 31 }
    ensures nodes { Extends graph.old graph.new (2 * length a.now) }
    ensures length { IfOk result (λ wires. length wires.items ≡ length a.now) }
    ensures value { IfOk result (λ wires. Shows graph.new wires.items (λ v. forced_bits (wire_value v set) (wire_value v clear) (values v a.now))) }
    ensures exact { IfOk result (λ wires. forced_made graph.old set clear a.now ≡ (wires.items, graph.new)) }
{
    let ones = repeated(alloc, set, a.len())?;
    let high = or(graph, alloc, a, ones.as_slice())?;
    let wires = masked(graph, alloc, high.as_slice(), inverted(clear))?;
    Ok(wires)
}

/// One of three wires is true: two gates.
#[tactic(auto, using(gate_graph::proofs::GateLemmas::extends_more), unfolding(crate::specs::Graphs::any_three_made))]
pub fn any_of_three(graph: &mut Graph, a: Wire, b: Wire, c: Wire) -> Result<Wire, AllocError>
    requires a_of { IsOf a graph.old }
    requires b_of { IsOf b graph.old }
    requires c_of { IsOf c graph.old }
    requires room { length graph.old + 2 < 2 ^ 31 }
    ensures nodes { Extends graph.old graph.new 2 }
    ensures wire { IfOk result (λ w. Means graph.new w (λ v. wire_value v a || (wire_value v b || wire_value v c))) }
    ensures exact { IfOk result (λ w. any_three_made graph.old a b c ≡ (w, graph.new)) }
{
    let two = or_wire(graph, b, c)?;
    let wire = or_wire(graph, a, two)?;
    Ok(wire)
}

/// One of four wires is true: three gates.
#[tactic(auto, using(gate_graph::proofs::GateLemmas::extends_more), unfolding(crate::specs::Graphs::any_four_made))]
pub fn any_of_four(
    graph: &mut Graph,
    a: Wire,
    b: Wire,
    c: Wire,
    d: Wire,
) -> Result<Wire, AllocError>
    requires a_of { IsOf a graph.old }
    requires b_of { IsOf b graph.old }
    requires c_of { IsOf c graph.old }
    requires d_of { IsOf d graph.old }
    requires room { length graph.old + 3 < 2 ^ 31 }
    ensures nodes { Extends graph.old graph.new 3 }
    ensures wire { IfOk result (λ w. Means graph.new w (λ v. wire_value v a || (wire_value v b || (wire_value v c || wire_value v d)))) }
    ensures exact { IfOk result (λ w. any_four_made graph.old a b c d ≡ (w, graph.new)) }
{
    let three = any_of_three(graph, b, c, d)?;
    let wire = or_wire(graph, a, three)?;
    Ok(wire)
}
