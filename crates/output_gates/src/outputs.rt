//! All outputs that a field shows.

ghost use Rattle.std.specs.Prelude.{◌≡◌, ℕ, Bool, ◌+◌, ◌^◌, ◌<◌, Some, length, slice_get, IfOk};
ghost use Rattle.gate_graph.specs.Gates.{Extends, IsOf};
ghost use Rattle.reg_machine.specs.Steps.{Edge};
ghost use Rattle.field_edges.specs.Edges.{AreEdges};
ghost use Rattle.field_edges.specs.Given.{AreGiven};
ghost use Rattle.field_edges.specs.Made.{edge_wires, views_of, words_of};
ghost use Rattle.output_gates.specs.Outputs.{SeesOutputs, ShowsAll, output_gates_of, outputs_made, shown_bits, view_at};

use crate::word::output_word;
use expr_gates::view::FieldView;
use field_edges::EdgeGates;
use field_policies::field::Field;
use field_policies::map::RegMap;
use field_policies::signal::OutSignal;
use gate_graph::{Graph, Wire};
use std::alloc::{AllocError, Global};
use std::vec::Vec;

/// The outputs that a field may show, in order.
pub const SIGNALS: [OutSignal; 9] = [
    OutSignal::Value,
    OutSignal::SwMod,
    OutSignal::SwAcc,
    OutSignal::Anded,
    OutSignal::Ored,
    OutSignal::Xored,
    OutSignal::Overflow,
    OutSignal::Underflow,
    OutSignal::Intr,
];

/// One list of wires for each output that the field of this number shows, in order; `reads` is its
/// word's, and `edge` the field at the edge. At most one gate a place, one more, and those of the
/// register's interrupt fields at the first of them.
pub fn field_outputs(
    graph: &mut Graph,
    alloc: Global,
    map: &RegMap,
    number: usize,
    field: &Field,
    reads: Wire,
    edge: &EdgeGates,
    views: &[FieldView],
    hw: &[Vec<Wire>],
) -> Result<Vec<Vec<Wire>>, AllocError>
    requires field { slice_get map.now.fields.items number ≡ Some field.now }
    requires reads_of { IsOf reads graph.old }
    requires edge { AreEdges graph.old field.now.width edge.now }
    requires given { AreGiven graph.old map.now.fields.items map.now.inputs.items views.now hw.now }
    requires room { length graph.old + output_gates_of map.now.fields.items field.now < 2 ^ 31 }
    ensures nodes { Extends graph.old graph.new (output_gates_of map.now.fields.items field.now) }
    ensures value { IfOk result (λ words. (e : (ℕ → Bool) → Edge) (u : (ℕ → Bool) → Bool) → SeesOutputs graph.old map.now number field.now reads edge.now views.now hw.now e u
        → ShowsAll graph.new words.items (λ v. shown_bits (e v) number field.now (u v))) }
    ensures exact { IfOk result (λ words. outputs_made map.now.fields.items field.now reads (edge_wires edge.now) (view_at (views_of views.now) number) (views_of views.now) (words_of hw.now) graph.old ≡ (words_of words.items, graph.new)) }
{
    let mut words = Vec::new(alloc);
    for signal in SIGNALS {
        if field.shown.has(signal) {
            let word = output_word(
                graph, alloc, map, number, field, reads, edge, views, hw, signal,
            )?;
            words.push(word)?;
        }
    }
    Ok(words)
}
