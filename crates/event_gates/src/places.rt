//! A field's places in a bus event.

ghost use Rattle.std.specs.Prelude.{◌≡◌, ℕ, Bool, false, ◌&&◌, ◌+◌, ◌*◌, ◌/◌, ◌^◌, ◌<◌, ◌≤◌, map, length, get_or, take, drop, IfOk};
ghost use Rattle.std.specs.List.{range_with_len};
ghost use Rattle.gate_graph.specs.Gates.{wire_value, IsOf, AreOf, Extends};
ghost use Rattle.word_gates.specs.Words.{values, Shows};
ghost use Rattle.event_gates.specs.Places.{strobes_of, payload_of_field, enabled_made};

use field_policies::field::Field;
use gate_graph::{Graph, Wire};
use std::alloc::{AllocError, Global};
use std::vec::Vec;
use word_gates::masked;

/// The strobe of each place of the field, that of its byte in the bus word: no gates.
fn strobe_word(alloc: Global, field: &Field, strobe: &[Wire]) -> Result<Vec<Wire>, AllocError>
    requires { field.now.lsb + field.now.width ≤ 8 * length strobe.now }
    ensures length { IfOk result (λ wires. length wires.items ≡ field.now.width) }
    ensures exact { IfOk result (λ wires. wires.items ≡ strobes_of field.now strobe.now) }
{
    let low = field.lsb as usize;
    let mut wires = Vec::new(alloc);
    for i in 0..field.width as usize {
        wires.push(strobe[(low + i) / 8])?;
    }
    Ok(wires)
}

/// Whether each place of the field is written, least first: the event writes its word, and the strobe
/// of the place's byte is 1. One gate a place.
#[tactic(auto, unfolding(crate::specs::Places::enabled_made))]
pub fn enabled_word(
    graph: &mut Graph,
    alloc: Global,
    field: &Field,
    writes: Wire,
    strobe: &[Wire],
) -> Result<Vec<Wire>, AllocError>
    requires writes_of { IsOf writes graph.old }
    requires strobe_of { AreOf strobe.now graph.old }
    requires inside { field.now.lsb + field.now.width ≤ 8 * length strobe.now }
    requires room { length graph.old + field.now.width < 2 ^ 31 }
    ensures nodes { Extends graph.old graph.new field.now.width }
    ensures length { IfOk result (λ wires. length wires.items ≡ field.now.width) }
    ensures value { IfOk result (λ wires. Shows graph.new wires.items (λ v. map (λ i. get_or (values v strobe.now) ((field.now.lsb + i) / 8) false && wire_value v writes) (range_with_len 0 field.now.width))) }
    ensures exact { IfOk result (λ wires. enabled_made field.now graph.old writes strobe.now ≡ (wires.items, graph.new)) }
{
    let strobes = strobe_word(alloc, field, strobe)?;
    let wires = masked(graph, alloc, strobes.as_slice(), writes)?;
    Ok(wires)
}

/// The written bit of each place of the field, least first, where `payload` is the bus word: no gates.
pub fn payload_word(alloc: Global, field: &Field, payload: &[Wire]) -> Result<Vec<Wire>, AllocError>
    requires { field.now.lsb + field.now.width ≤ length payload.now }
    ensures length { IfOk result (λ wires. length wires.items ≡ field.now.width) }
    ensures exact { IfOk result (λ wires. wires.items ≡ payload_of_field field.now payload.now) }
{
    let low = field.lsb as usize;
    let high = low + field.width as usize;
    payload[low..high].to_vec(alloc)
}
