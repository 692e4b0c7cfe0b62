//! The bus word with one field more.

ghost use Rattle.std.specs.Prelude.{◌≡◌, ℕ, Bool, false, not, ◌&&◌, ◌||◌, ◌+◌, ◌*◌, ◌^◌, ◌<◌, ◌≤◌, map, length, replicate, IfOk};
ghost use Rattle.gate_graph.specs.Gates.{wire_value, IsOf, AreOf, Extends};
ghost use Rattle.word_gates.specs.Graphs.{off};
ghost use Rattle.word_gates.specs.Words.{values, Shows};
ghost use Rattle.answer_gates.specs.Answers.{placed, joined, joined_made, shown_made, hidden_made};

use field_policies::field::Field;
use gate_graph::{Graph, Wire};
use std::alloc::{AllocError, Global};
use std::vec::Vec;
use word_gates::{inverted, masked, only_if, or, repeated};

/// The wires at the places of the bus word from `low` on, false at its others: no gates.
fn placed_word(
    graph: &Graph,
    alloc: Global,
    low: usize,
    bus: usize,
    wires: &[Wire],
) -> Result<Vec<Wire>, AllocError>
    requires { low + length wires.now ≤ bus }
    ensures { IfOk result (λ word. word.items ≡ placed off low bus wires.now) }
{
    let above = bus - low - wires.len();
    let zeros = repeated(alloc, graph.zero(), above)?;
    let mut word = repeated(alloc, graph.zero(), low)?;
    word.extend_from_slice(wires)?;
    word.extend_from_slice(zeros.as_slice())?;
    Ok(word)
}

/// The bus word, true also where a wire is that stands from `low` on: one gate a place of the bus.
#[tactic(auto, unfolding(crate::specs::Answers::joined_made))]
fn joined_word(
    graph: &mut Graph,
    alloc: Global,
    low: usize,
    word: &[Wire],
    wires: &[Wire],
) -> Result<Vec<Wire>, AllocError>
    requires word_of { AreOf word.now graph.old }
    requires wires_of { AreOf wires.now graph.old }
    requires inside { low + length wires.now ≤ length word.now }
    requires room { length graph.old + length word.now < 2 ^ 31 }
    ensures nodes { Extends graph.old graph.new (length word.now) }
    ensures length { IfOk result (λ w. length w.items ≡ length word.now) }
    ensures value { IfOk result (λ w. Shows graph.new w.items (λ v. joined low (values v word.now) (values v wires.now))) }
    ensures exact { IfOk result (λ w. joined_made low graph.old word.now wires.now ≡ (w.items, graph.new)) }
{
    let size = graph.size();
    let other = placed_word(graph, alloc, low, word.len(), wires)?;
    let wires = or(graph, alloc, word, other.as_slice())?;
    Ok(wires)
}

/// The bus word with a field of this value, where it is readable and known and its word is read: one
/// gate a place of the field and of the bus, and one more.
#[tactic(auto, using(gate_graph::proofs::GateLemmas::extends_more, gate_graph::proofs::GateLemmas::are_of_later), unfolding(crate::specs::Answers::shown_made))]
pub fn shown_word(
    graph: &mut Graph,
    alloc: Global,
    field: &Field,
    reads: Wire,
    known: Wire,
    value: &[Wire],
    word: &[Wire],
) -> Result<Vec<Wire>, AllocError>
    requires reads_of { IsOf reads graph.old }
    requires known_of { IsOf known graph.old }
    requires value_of { AreOf value.now graph.old }
    requires word_of { AreOf word.now graph.old }
    requires inside { field.now.lsb + length value.now ≤ length word.now }
    requires room { length graph.old + length value.now + length word.now + 1 < 2 ^ 31 }
    ensures nodes { Extends graph.old graph.new (length value.now + length word.now + 1) }
    ensures length { IfOk result (λ w. length w.items ≡ length word.now) }
    ensures value { IfOk result (λ w. Shows graph.new w.items
        (λ v. joined field.now.lsb (values v word.now) (map (λ x. x && ((field.now.readable && wire_value v reads) && wire_value v known)) (values v value.now)))) }
    ensures exact { IfOk result (λ w. shown_made field.now graph.old reads known value.now word.now ≡ (w.items, graph.new)) }
{
    let open = only_if(graph, field.readable, reads);
    let shown = graph.and(open, known)?;
    let bits = masked(graph, alloc, value, shown)?;
    let wires = joined_word(graph, alloc, field.lsb as usize, word, bits.as_slice())?;
    Ok(wires)
}

/// The bus word, true also at the places of a field that is readable and not known where its word is
/// read: one gate a place of the bus, and one more.
#[tactic(auto, using(gate_graph::proofs::GateLemmas::extends_more, gate_graph::proofs::GateLemmas::are_of_later), unfolding(crate::specs::Answers::hidden_made))]
pub fn hidden_word(
    graph: &mut Graph,
    alloc: Global,
    field: &Field,
    reads: Wire,
    known: Wire,
    word: &[Wire],
) -> Result<Vec<Wire>, AllocError>
    requires reads_of { IsOf reads graph.old }
    requires known_of { IsOf known graph.old }
    requires word_of { AreOf word.now graph.old }
    requires inside { field.now.lsb + field.now.width ≤ length word.now }
    requires room { length graph.old + length word.now + 1 < 2 ^ 31 }
    ensures nodes { Extends graph.old graph.new (length word.now + 1) }
    ensures length { IfOk result (λ w. length w.items ≡ length word.now) }
    ensures value { IfOk result (λ w. Shows graph.new w.items
        (λ v. joined field.now.lsb (values v word.now) (replicate field.now.width ((field.now.readable && wire_value v reads) && not (wire_value v known))))) }
    ensures exact { IfOk result (λ w. hidden_made field.now graph.old reads known word.now ≡ (w.items, graph.new)) }
{
    let open = only_if(graph, field.readable, reads);
    let hides = graph.and(open, inverted(known))?;
    let bits = repeated(alloc, hides, field.width as usize)?;
    let wires = joined_word(graph, alloc, field.lsb as usize, word, bits.as_slice())?;
    Ok(wires)
}
