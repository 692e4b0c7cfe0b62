//! The bits of the answer that count.

ghost use Rattle.std.specs.Prelude.{◌≡◌, ℕ, Bool, List, ◌+◌, ◌*◌, ◌^◌, ◌<◌, length, IfOk};
ghost use Rattle.std.specs.declared.vec.Vec.{Vec};
ghost use Rattle.std.specs.declared.alloc.Global.{Global};
ghost use Rattle.gate_graph.specs.Gates.{Extends};
ghost use Rattle.word_gates.specs.Words.{Shows};
ghost use Rattle.reg_machine.specs.Steps.{Edge};
ghost use Rattle.answer_gates.specs.Laws.{hidden_below};
ghost use Rattle.event_gates.specs.declared.hits.EventGates.{EventGates};
ghost use Rattle.expr_gates.specs.declared.view.FieldView.{FieldView};
ghost use Rattle.gate_graph.specs.declared.wires.Wire.{Wire};
ghost use Rattle.map_views.specs.Views.{AllStates};
ghost use Rattle.map_edges.specs.Edges.{AreOfGraph, SeesMap};
ghost use Rattle.map_answers.specs.Answers.{known_at, counts_row};

use crate::data::field_at;
use answer_gates::hidden_word;
use event_gates::HitGates;
use field_policies::map::RegMap;
use gate_graph::{Graph, Wire};
use latch_order::StateGates;
use std::alloc::{AllocError, Global};
use std::vec::Vec;
use word_gates::{inverted_word, repeated};

/// The bits of the bus word that fields hide: those of a readable field that isn't known, where its
/// word is read. At most 33 gates a field.
fn hidden_all(
    graph: &mut Graph,
    alloc: Global,
    map: &RegMap,
    states: &[StateGates],
    hits: &[HitGates],
) -> Result<Vec<Wire>, AllocError>
    requires states { AllStates graph.old map.now.fields.items states.now }
    requires hits { AreOfGraph graph.old hits.now }
    requires hits_length { length hits.now ≡ length map.now.words.items }
    requires room { length graph.old + length map.now.fields.items * 33 < 2 ^ 31 }
    ensures nodes { Extends graph.old graph.new (length map.now.fields.items * 33) }
    ensures length { IfOk result (λ wires. length wires.items ≡ map.now.bus_width) }
    ensures hidden { IfOk result (λ wires. (e : (ℕ → Bool) → Edge) (event : EventGates) (payload : List Wire) (views : List FieldView) (hw : List (Vec Wire Global)) → SeesMap graph.old map.now event payload hits.now views hw e
        → Shows graph.new wires.items (λ v. hidden_below (e v) (known_at v states.now) map.now.bus_width (length map.now.fields.items))) }
{
    let size = graph.size();
    let mut word = repeated(alloc, graph.zero(), map.bus_width as usize)?;
    for n in 0..map.fields.len() {
        let field = field_at(map, n);
        let hit = hits[field.word as usize];
        word = hidden_word(
            graph,
            alloc,
            field,
            hit.reads,
            states[n].known,
            word.as_slice(),
        )?;
    }
    Ok(word)
}

/// The bits of the bus word that count: all but those that a field hides. At most 33 gates a field.
pub fn counts_word(
    graph: &mut Graph,
    alloc: Global,
    map: &RegMap,
    states: &[StateGates],
    hits: &[HitGates],
) -> Result<Vec<Wire>, AllocError>
    requires states { AllStates graph.old map.now.fields.items states.now }
    requires hits { AreOfGraph graph.old hits.now }
    requires hits_length { length hits.now ≡ length map.now.words.items }
    requires room { length graph.old + length map.now.fields.items * 33 < 2 ^ 31 }
    ensures nodes { Extends graph.old graph.new (length map.now.fields.items * 33) }
    ensures length { IfOk result (λ wires. length wires.items ≡ map.now.bus_width) }
    ensures counts { IfOk result (λ wires. (e : (ℕ → Bool) → Edge) (event : EventGates) (payload : List Wire) (views : List FieldView) (hw : List (Vec Wire Global)) → SeesMap graph.old map.now event payload hits.now views hw e
        → Shows graph.new wires.items (λ v. counts_row (e v) (known_at v states.now) map.now.bus_width)) }
{
    let hidden = hidden_all(graph, alloc, map, states, hits)?;
    let wires = inverted_word(alloc, hidden.as_slice())?;
    Ok(wires)
}
