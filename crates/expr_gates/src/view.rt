//! A field as others see it: its value and its reductions, which are built once.

ghost use Rattle.std.specs.Prelude.{◌≡◌, ℕ, Bool, ◌+◌, ◌*◌, ◌^◌, ◌<◌, length, IfOk};
ghost use Rattle.bit_base.specs.Operators.{are_all, is_any, is_odd};
ghost use Rattle.gate_graph.specs.Gates.{AreOf, Extends, Means};
ghost use Rattle.word_gates.specs.Graphs.{all_made, parity_made};
ghost use Rattle.word_gates.specs.Words.{values};
ghost use Rattle.expr_gates.specs.Graphs.{viewed_made};

use gate_graph::{Graph, Wire};
use std::alloc::{AllocError, Global};
use std::vec::Vec;
use word_gates::{all, any_wire, parity};

/// A field's value, least place first, and its reductions (SystemRDL 2.0, clause 9, `anded`, `ored`,
/// `xored`).
#[derive(Debug, Drop)]
pub struct FieldView {
    pub value: Vec<Wire>,
    pub anded: Wire,
    pub ored: Wire,
    pub xored: Wire,
}

/// Every place is true: one gate a place.
fn all_wire(graph: &mut Graph, alloc: Global, a: &[Wire]) -> Result<Wire, AllocError>
    requires a_of { AreOf a.now graph.old }
    requires room { length graph.old + length a.now < 2 ^ 31 }
    ensures nodes { Extends graph.old graph.new (length a.now) }
    ensures wire { IfOk result (λ w. Means graph.new w (λ v. are_all (values v a.now))) }
    ensures exact { IfOk result (λ w. all_made graph.old a.now ≡ (w, graph.new)) }
{
    let wires = all(graph, alloc, a)?;
    let places = wires.as_slice();
    Ok(places[0])
}

/// An odd number of places are true: three gates a place.
fn parity_wire(graph: &mut Graph, alloc: Global, a: &[Wire]) -> Result<Wire, AllocError>
    requires a_of { AreOf a.now graph.old }
    requires room { length graph.old + 3 * length a.now < 2 ^ 31 }
    ensures nodes { Extends graph.old graph.new (3 * length a.now) }
    ensures wire { IfOk result (λ w. Means graph.new w (λ v. is_odd (values v a.now))) }
    ensures exact { IfOk result (λ w. parity_made graph.old a.now ≡ (w, graph.new)) }
{
    let wires = parity(graph, alloc, a)?;
    let places = wires.as_slice();
    Ok(places[0])
}

/// The field of this value: five gates a place, however often its reductions are read.
#[tactic(auto, using(gate_graph::proofs::GateLemmas::are_of_later, gate_graph::proofs::GateLemmas::extends_more), unfolding(crate::specs::Graphs::viewed_made))]
pub fn view_gates(graph: &mut Graph, alloc: Global, value: &[Wire]) -> Result<FieldView, AllocError>
    requires value_of { AreOf value.now graph.old }
    requires room { length graph.old + 5 * length value.now < 2 ^ 31 }
    ensures nodes { Extends graph.old graph.new (5 * length value.now) }
    ensures value { IfOk result (λ g. g.value.items ≡ value.now) }
    ensures anded { IfOk result (λ g. Means graph.new g.anded (λ v. are_all (values v value.now))) }
    ensures ored { IfOk result (λ g. Means graph.new g.ored (λ v. is_any (values v value.now))) }
    ensures xored { IfOk result (λ g. Means graph.new g.xored (λ v. is_odd (values v value.now))) }
    ensures exact { IfOk result (λ g. viewed_made graph.old value.now ≡ ((g.anded, (g.ored, g.xored)), graph.new)) }
{
    let anded = all_wire(graph, alloc, value)?;
    let ored = any_wire(graph, value)?;
    let xored = parity_wire(graph, alloc, value)?;
    let value = value.to_vec(alloc)?;
    Ok(FieldView {
        value,
        anded,
        ored,
        xored,
    })
}
