//! Gates of one place.

ghost use Rattle.std.specs.Prelude.{◌≡◌, ℕ, Bool, not, ◌&&◌, ◌||◌, if◌then◌else◌, ◌+◌, ◌/◌, ◌^◌, ◌<◌, length, IfOk};
ghost use Rattle.gate_graph.specs.Gates.{wire_value, IsOf, Extends, Means};
ghost use Rattle.bit_base.specs.Operators.{differ};
ghost use Rattle.word_gates.specs.Places.{place_of, gates_of};
ghost use Rattle.word_gates.specs.Graphs.{inverse, or_made, xor_made, pick_made, sum_made, carry_made, place_made};

use gate_graph::{Graph, Wire};
use std::alloc::AllocError;

/// `&`: one gate.
pub const AND: u8 = 0;

/// `|`: one gate.
pub const OR: u8 = 1;

/// `^`: three gates.
pub const XOR: u8 = 2;

/// `~^`: three gates.
pub const XNOR: u8 = 3;

/// The wire that is true exactly where this one is false: no gate.
pub fn inverted(wire: Wire) -> Wire
    ensures node { result.0 / 2 ≡ wire.0 / 2 }
    ensures value { (v : ℕ → Bool) → wire_value v result ≡ not (wire_value v wire) }
    ensures exact { result ≡ inverse wire }
{
    wire.inverted()
}

/// The operator of this number at one place.
#[tactic(auto, unfolding(crate::specs::Graphs::place_made))]
pub fn place<const OPERATOR: u8>(graph: &mut Graph, a: Wire, b: Wire) -> Result<Wire, AllocError>
    requires a_of { IsOf a graph.old }
    requires b_of { IsOf b graph.old }
    requires room { length graph.old + gates_of OPERATOR < 2 ^ 31 }
    ensures extends { Extends graph.old graph.new (gates_of OPERATOR) }
    ensures wire { IfOk result (λ w. Means graph.new w (λ v. place_of OPERATOR (wire_value v a) (wire_value v b))) }
    ensures exact { IfOk result (λ w. place_made OPERATOR graph.old a b ≡ (w, graph.new)) }
{
    let wire = match OPERATOR {
        AND => graph.and(a, b)?,
        OR => or_wire(graph, a, b)?,
        XOR => xor_wire(graph, a, b)?,
        _ => inverted(xor_wire(graph, a, b)?),
    };
    Ok(wire)
}

/// True where either is.
#[tactic(auto, using(gate_graph::proofs::GateLemmas::extends_more, gate_graph::proofs::GateLemmas::respects_old, crate::proofs::BitLemmas::or_by_and), unfolding(crate::specs::Graphs::or_made))]
pub fn or_wire(graph: &mut Graph, a: Wire, b: Wire) -> Result<Wire, AllocError>
    requires a_of { IsOf a graph.old }
    requires b_of { IsOf b graph.old }
    requires room { length graph.old + 1 < 2 ^ 31 }
    ensures extends { Extends graph.old graph.new 1 }
    ensures wire { IfOk result (λ w. Means graph.new w (λ v. wire_value v a || wire_value v b)) }
    ensures exact { IfOk result (λ w. or_made graph.old a b ≡ (w, graph.new)) }
{
    let neither = graph.and(inverted(a), inverted(b))?;
    Ok(inverted(neither))
}

/// True where the two differ.
#[tactic(auto, using(gate_graph::proofs::GateLemmas::extends_more, gate_graph::proofs::GateLemmas::respects_old), unfolding(crate::specs::Graphs::xor_made))]
pub fn xor_wire(graph: &mut Graph, a: Wire, b: Wire) -> Result<Wire, AllocError>
    requires a_of { IsOf a graph.old }
    requires b_of { IsOf b graph.old }
    requires room { length graph.old + 3 < 2 ^ 31 }
    ensures extends { Extends graph.old graph.new 3 }
    ensures wire { IfOk result (λ w. Means graph.new w (λ v. differ (wire_value v a) (wire_value v b))) }
    ensures exact { IfOk result (λ w. xor_made graph.old a b ≡ (w, graph.new)) }
{
    let left = graph.and(a, inverted(b))?;
    let right = graph.and(inverted(a), b)?;
    let either = or_wire(graph, left, right)?;
    Ok(either)
}

/// The first where the third is true, else the second.
#[tactic(auto, using(gate_graph::proofs::GateLemmas::extends_more, gate_graph::proofs::GateLemmas::respects_old), unfolding(crate::specs::Graphs::pick_made))]
pub fn pick_wire(graph: &mut Graph, a: Wire, b: Wire, c: Wire) -> Result<Wire, AllocError>
    requires a_of { IsOf a graph.old }
    requires b_of { IsOf b graph.old }
    requires c_of { IsOf c graph.old }
    requires room { length graph.old + 3 < 2 ^ 31 }
    ensures extends { Extends graph.old graph.new 3 }
    ensures wire { IfOk result (λ w. Means graph.new w (λ v. if wire_value v c then wire_value v a else wire_value v b)) }
    ensures exact { IfOk result (λ w. pick_made graph.old a b c ≡ (w, graph.new)) }
{
    let left = graph.and(c, a)?;
    let right = graph.and(inverted(c), b)?;
    let either = or_wire(graph, left, right)?;
    Ok(either)
}

/// The sum of three bits, without its carry.
#[tactic(auto, using(gate_graph::proofs::GateLemmas::extends_more, gate_graph::proofs::GateLemmas::respects_old), unfolding(crate::specs::Graphs::sum_made))]
pub fn sum_wire(graph: &mut Graph, a: Wire, b: Wire, c: Wire) -> Result<Wire, AllocError>
    requires a_of { IsOf a graph.old }
    requires b_of { IsOf b graph.old }
    requires c_of { IsOf c graph.old }
    requires room { length graph.old + 6 < 2 ^ 31 }
    ensures extends { Extends graph.old graph.new 6 }
    ensures wire { IfOk result (λ w. Means graph.new w (λ v. differ (differ (wire_value v a) (wire_value v b)) (wire_value v c))) }
    ensures exact { IfOk result (λ w. sum_made graph.old a b c ≡ (w, graph.new)) }
{
    let half = xor_wire(graph, a, b)?;
    let whole = xor_wire(graph, half, c)?;
    Ok(whole)
}

/// The carry of three bits: at least two of them are true.
#[tactic(auto, unfolding(crate::specs::Graphs::carry_made))]
pub fn carry_wire(graph: &mut Graph, a: Wire, b: Wire, c: Wire) -> Result<Wire, AllocError>
    requires a_of { IsOf a graph.old }
    requires b_of { IsOf b graph.old }
    requires c_of { IsOf c graph.old }
    requires room { length graph.old + 4 < 2 ^ 31 }
    ensures extends { Extends graph.old graph.new 4 }
    ensures wire { IfOk result (λ w. Means graph.new w (λ v. wire_value v a && wire_value v b || wire_value v c && (wire_value v a || wire_value v b))) }
    ensures exact { IfOk result (λ w. carry_made graph.old a b c ≡ (w, graph.new)) }
{
    let both = graph.and(a, b)?;
    let any = or_wire(graph, a, b)?;
    let through = graph.and(c, any)?;
    let carried = or_wire(graph, both, through)?;
    Ok(carried)
}
