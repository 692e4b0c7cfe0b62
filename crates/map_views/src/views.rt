//! The value of each field and its reductions.

ghost use Rattle.std.specs.Prelude.{◌≡◌, ℕ, Some, ◌+◌, ◌*◌, ◌^◌, ◌<◌, length, IfOk};
ghost use Rattle.std.specs.List.{sum_by};
ghost use Rattle.gate_graph.specs.Gates.{Extends};
ghost use Rattle.field_edges.specs.Given.{AreGiven};
ghost use Rattle.field_edges.specs.Made.{words_of, views_of};
ghost use Rattle.map_views.specs.Views.{AreInputs, AllStates, AreShown, stores_of, value_by, views_made};

use expr_gates::view::FieldView;
use expr_gates::view_gates;
use field_policies::field::Field;
use field_policies::map::RegMap;
use gate_graph::{Graph, Wire};
use latch_order::StateGates;
use std::alloc::{AllocError, Global};
use std::vec::Vec;

/// The wires of a field's value: what it stores, or of a wire its data input.
fn value_word(
    alloc: Global,
    field: &Field,
    state: &StateGates,
    hw: &[Vec<Wire>],
) -> Result<Vec<Wire>, AllocError>
    requires { (k : ℕ) → field.now.data_in ≡ Some k → k < length hw.now }
    ensures { IfOk result (λ wires. wires.items ≡ value_by (words_of hw.now) field.now.wire field.now.data_in state.now.value.items) }
{
    match (field.wire, field.data_in) {
        (true, Some(k)) => hw[k as usize].to_vec(alloc),
        _ => state.value.to_vec(alloc),
    }
}

/// Each field's value and reductions: five gates a bit, however often the reductions are read.
pub fn map_views(
    graph: &mut Graph,
    alloc: Global,
    map: &RegMap,
    states: &[StateGates],
    hw: &[Vec<Wire>],
) -> Result<Vec<FieldView>, AllocError>
    requires states { AllStates graph.old map.now.fields.items states.now }
    requires inputs { AreInputs graph.old map.now.inputs.items hw.now }
    requires room { length graph.old + 5 * sum_by (λ f. f.width) map.now.fields.items < 2 ^ 31 }
    ensures nodes { Extends graph.old graph.new (5 * sum_by (λ f. f.width) map.now.fields.items) }
    ensures given { IfOk result (λ views. AreGiven graph.new map.now.fields.items map.now.inputs.items views.items hw.now) }
    ensures shown { IfOk result (λ views. AreShown graph.new map.now.fields.items states.now hw.now views.items) }
    ensures exact { IfOk result (λ views. views_made graph.old map.now.fields.items (stores_of states.now) (words_of hw.now) ≡ (views_of views.items, graph.new)) }
{
    let size = graph.size();
    let mut views = Vec::new(alloc);
    for n in 0..map.fields.len() {
        let value = value_word(alloc, &map.fields[n], &states[n], hw)?;
        let view = view_gates(graph, alloc, value.as_slice())?;
        views.push(view)?;
    }
    Ok(views)
}
