//! The data of the answer.

ghost use Rattle.std.specs.Prelude.{◌≡◌, ℕ, Bool, Some, ◌+◌, ◌^◌, ◌<◌, length, slice_get, IfOk};
ghost use Rattle.std.specs.List.{sum_by};
ghost use Rattle.gate_graph.specs.Gates.{Extends};
ghost use Rattle.word_gates.specs.Words.{Shows};
ghost use Rattle.reg_machine.specs.Conditions.{IsFieldOf};
ghost use Rattle.reg_machine.specs.Steps.{Edge};
ghost use Rattle.answer_gates.specs.Laws.{shown_below};
ghost use Rattle.event_gates.specs.declared.hits.EventGates.{EventGates};
ghost use Rattle.gate_graph.specs.declared.wires.Wire.{Wire};
ghost use Rattle.std.specs.Prelude.{List};
ghost use Rattle.field_edges.specs.Given.{AreGiven};
ghost use Rattle.map_views.specs.Views.{AllStates};
ghost use Rattle.map_edges.specs.Edges.{AreOfGraph, SeesMap};
ghost use Rattle.map_answers.specs.Answers.{data_gates_of, known_at};

use answer_gates::shown_word;
use event_gates::HitGates;
use expr_gates::view::FieldView;
use field_policies::field::Field;
use field_policies::map::RegMap;
use gate_graph::{Graph, Wire};
use latch_order::StateGates;
use std::alloc::{AllocError, Global};
use std::vec::Vec;
use word_gates::repeated;

/// The field of this number.
pub fn field_at(map: &RegMap, number: usize) -> &Field
    requires there { number < length map.now.fields.items }
    ensures here { slice_get map.now.fields.items number ≡ Some result.now }
    ensures field { IsFieldOf map.now result.now }
{
    &map.fields[number]
}

/// The data of the answer: each readable field that is known shows its value where its word is read.
/// At most one gate a bit and 33 more, a field.
pub fn data_word(
    graph: &mut Graph,
    alloc: Global,
    map: &RegMap,
    states: &[StateGates],
    hits: &[HitGates],
    views: &[FieldView],
    hw: &[Vec<Wire>],
) -> Result<Vec<Wire>, AllocError>
    requires states { AllStates graph.old map.now.fields.items states.now }
    requires hits { AreOfGraph graph.old hits.now }
    requires hits_length { length hits.now ≡ length map.now.words.items }
    requires given { AreGiven graph.old map.now.fields.items map.now.inputs.items views.now hw.now }
    requires room { length graph.old + sum_by data_gates_of map.now.fields.items < 2 ^ 31 }
    ensures nodes { Extends graph.old graph.new (sum_by data_gates_of map.now.fields.items) }
    ensures length { IfOk result (λ wires. length wires.items ≡ map.now.bus_width) }
    ensures shown { IfOk result (λ wires. (e : (ℕ → Bool) → Edge) (event : EventGates) (payload : List Wire) → SeesMap graph.old map.now event payload hits.now views.now hw.now e
        → Shows graph.new wires.items (λ v. shown_below (e v) (known_at v states.now) map.now.bus_width (length map.now.fields.items))) }
{
    let size = graph.size();
    let mut word = repeated(alloc, graph.zero(), map.bus_width as usize)?;
    for n in 0..map.fields.len() {
        let field = field_at(map, n);
        let hit = hits[field.word as usize];
        word = shown_word(
            graph,
            alloc,
            field,
            hit.reads,
            states[n].known,
            &views[n].value,
            word.as_slice(),
        )?;
    }
    Ok(word)
}
