//! One output of a field.

ghost use Rattle.std.specs.Prelude.{◌≡◌, ℕ, Bool, ◌&&◌, ◌||◌, ◌+◌, ◌^◌, ◌<◌, [], ◌∷◌, Some, length, slice_get, IfOk};
ghost use Rattle.bit_base.specs.Operators.{is_any};
ghost use Rattle.gate_graph.specs.Gates.{AreOf, Extends, IsOf, Means, wire_value};
ghost use Rattle.reg_machine.specs.Steps.{Edge};
ghost use Rattle.word_gates.specs.Words.{Shows, values};
ghost use Rattle.field_edges.specs.Edges.{AreEdges};
ghost use Rattle.field_edges.specs.Given.{AreGiven};
ghost use Rattle.field_edges.specs.Made.{edge_wires, views_of, words_of};
ghost use Rattle.output_gates.specs.Outputs.{SeesOutputs, accessed_made, signal_bits, signal_gates, view_at, word_made};

use expr_gates::view::FieldView;
use field_edges::EdgeGates;
use field_policies::field::Field;
use field_policies::map::RegMap;
use field_policies::signal::OutSignal;
use gate_graph::{Graph, Wire};
use raise_gates::intr_wire;
use std::alloc::{AllocError, Global};
use std::vec::Vec;
use word_gates::{any_wire, only_if, or_wire};

/// The word of this wire alone.
fn word_of(alloc: Global, wire: Wire) -> Result<Vec<Wire>, AllocError>
    ensures { IfOk result (λ wires. wires.items ≡ wire ∷ []) }
{
    let mut wires = Vec::new(alloc);
    wires.push(wire)?;
    Ok(wires)
}

/// The same wires.
fn copied(alloc: Global, a: &[Wire]) -> Result<Vec<Wire>, AllocError>
    ensures { IfOk result (λ wires. wires.items ≡ a.now) }
{
    a.to_vec(alloc)
}

/// Software is at the field: it reads a readable one, or writes at least one bit of a writable one,
/// where `reads` is its word's and `enabled` says which bits are written. At most one gate a place and
/// one more.
#[tactic(auto, using(gate_graph::proofs::GateLemmas::extends_more), unfolding(crate::specs::Outputs::accessed_made))]
fn accessed_wire(
    graph: &mut Graph,
    field: &Field,
    reads: Wire,
    enabled: &[Wire],
) -> Result<Wire, AllocError>
    requires reads_of { IsOf reads graph.old }
    requires enabled_of { AreOf enabled.now graph.old }
    requires room { length graph.old + length enabled.now + 1 < 2 ^ 31 }
    ensures nodes { Extends graph.old graph.new (length enabled.now + 1) }
    ensures wire { IfOk result (λ w. Means graph.new w (λ v. (field.now.readable && wire_value v reads) || (field.now.writable && is_any (values v enabled.now)))) }
    ensures exact { IfOk result (λ w. accessed_made field.now graph.old reads enabled.now ≡ (w, graph.new)) }
{
    let touched = any_wire(graph, enabled)?;
    let read = only_if(graph, field.readable, reads);
    let written = only_if(graph, field.writable, touched);
    let wire = or_wire(graph, read, written)?;
    Ok(wire)
}

/// What the field of this number gives at one output, least place first; `reads` is its word's, and
/// `edge` the field at the edge. `swacc` takes at most one gate a place and one more, `intr` those of the
/// register's interrupt fields, another output none.
pub fn output_word(
    graph: &mut Graph,
    alloc: Global,
    map: &RegMap,
    number: usize,
    field: &Field,
    reads: Wire,
    edge: &EdgeGates,
    views: &[FieldView],
    hw: &[Vec<Wire>],
    signal: OutSignal,
) -> Result<Vec<Wire>, AllocError>
    requires field { slice_get map.now.fields.items number ≡ Some field.now }
    requires reads_of { IsOf reads graph.old }
    requires edge { AreEdges graph.old field.now.width edge.now }
    requires given { AreGiven graph.old map.now.fields.items map.now.inputs.items views.now hw.now }
    requires room { length graph.old + signal_gates map.now.fields.items field.now signal < 2 ^ 31 }
    ensures nodes { Extends graph.old graph.new (signal_gates map.now.fields.items field.now signal) }
    ensures value { IfOk result (λ wires. (e : (ℕ → Bool) → Edge) (u : (ℕ → Bool) → Bool) → SeesOutputs graph.old map.now number field.now reads edge.now views.now hw.now e u
        → Shows graph.new wires.items (λ v. signal_bits (e v) number field.now (u v) signal)) }
    ensures exact { IfOk result (λ wires. word_made map.now.fields.items field.now reads (edge_wires edge.now) (view_at (views_of views.now) number) (views_of views.now) (words_of hw.now) graph.old signal ≡ (wires.items, graph.new)) }
{
    let view = &views[number];
    match signal {
        OutSignal::Value => copied(alloc, &view.value),
        OutSignal::SwMod => word_of(alloc, edge.step.software),
        OutSignal::SwAcc => {
            let wire = accessed_wire(graph, field, reads, &edge.enabled)?;
            word_of(alloc, wire)
        }
        OutSignal::Anded => word_of(alloc, view.anded),
        OutSignal::Ored => word_of(alloc, view.ored),
        OutSignal::Xored => word_of(alloc, view.xored),
        OutSignal::Overflow => word_of(alloc, edge.over),
        OutSignal::Underflow => word_of(alloc, edge.under),
        OutSignal::Intr => {
            let wire = intr_wire(graph, alloc, map, field, views, hw)?;
            word_of(alloc, wire)
        }
    }
}
