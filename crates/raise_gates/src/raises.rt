//! Whether a register raises its interrupt.

ghost use Rattle.std.specs.Prelude.{◌≡◌, ℕ, Bool, Some, ◌+◌, ◌*◌, ◌^◌, ◌<◌, length, slice_get, IfOk};
ghost use Rattle.std.specs.List.{list_any, sum_by};
ghost use Rattle.gate_graph.specs.Gates.{Extends, IsOf, Means};
ghost use Rattle.field_policies.specs.Expressions.{width_at};
ghost use Rattle.field_policies.specs.Fields.{filter_of, is_in_range, members_of};
ghost use Rattle.field_policies.specs.declared.signal.Gate.{Gate};
ghost use Rattle.std.specs.Prelude.{IsTrue};
ghost use Rattle.reg_machine.specs.Conditions.{IsFieldOf};
ghost use Rattle.reg_machine.specs.Steps.{View};
ghost use Rattle.reg_machine.specs.Machines.{raises};
ghost use Rattle.field_edges.specs.Given.{AreGiven};
ghost use Rattle.field_edges.specs.Made.{views_of, words_of};
ghost use Rattle.raise_gates.specs.Raises.{SeesFields, filter_wires, intr_gates_of, intr_made, member_gates, member_made, raise_made};

use expr_gates::expr_word;
use expr_gates::view::FieldView;
use extra_gates::raised_wire;
use field_policies::extra::Extra;
use field_policies::field::Field;
use field_policies::map::RegMap;
use field_policies::signal::Gate;
use gate_graph::{Graph, Wire};
use std::alloc::{AllocError, Global};
use std::vec::Vec;
use word_gates::or_wire;

/// What cuts the bits of an interrupt field: `enable` or `mask`, if there is one.
fn filter_gate(extra: &Extra) -> Option<Gate>
    ensures { result ≡ filter_of extra.now }
{
    match extra {
        Extra::Intr(intr) => intr.filter,
        _ => None,
    }
}

/// The wires of an `enable` or `mask`; where there is none, those of the value.
fn filter_word(
    alloc: Global,
    views: &[FieldView],
    hw: &[Vec<Wire>],
    value: &[Wire],
    filter: Option<Gate>,
) -> Result<Vec<Wire>, AllocError>
    requires { (g : Gate) → filter ≡ Some g → IsTrue (is_in_range (length views.now) (length hw.now) g.expr) }
    ensures { IfOk result (λ wires. wires.items ≡ filter_wires views.now hw.now value.now filter) }
{
    match filter {
        Some(gate) => expr_word(alloc, views, hw, gate.expr),
        None => value.to_vec(alloc),
    }
}

/// Whether the interrupt field of this number raises the interrupt of its register: some bit of it is
/// 1 that `enable` or `mask` lets through. At most two gates a place.
pub fn member_wire(
    graph: &mut Graph,
    alloc: Global,
    map: &RegMap,
    number: usize,
    views: &[FieldView],
    hw: &[Vec<Wire>],
) -> Result<Wire, AllocError>
    requires there { number < length map.now.fields.items }
    requires given { AreGiven graph.old map.now.fields.items map.now.inputs.items views.now hw.now }
    requires room { length graph.old + 2 * width_at map.now.fields.items number < 2 ^ 31 }
    ensures nodes { Extends graph.old graph.new (2 * width_at map.now.fields.items number) }
    ensures of { IfOk result (λ w. IsOf w graph.new) }
    ensures wire { IfOk result (λ w. (e : (ℕ → Bool) → View) → SeesFields graph.old map.now views.now hw.now e → Means graph.new w (λ v. raises (e v) number)) }
    ensures exact { IfOk result (λ w. member_made map.now.fields.items (views_of views.now) (words_of hw.now) graph.old number ≡ (w, graph.new)) }
{
    let field = &map.fields[number];
    let value = &views[number].value;
    let filter = filter_gate(&field.extra);
    let bits = filter_word(alloc, views, hw, value, filter)?;
    let wire = raised_wire(graph, alloc, filter, value, bits.as_slice())?;
    Ok(wire)
}

/// Whether one of the interrupt fields of these numbers raises the interrupt of its register. At most
/// two gates a place and one more, a field.
pub fn raise_wire(
    graph: &mut Graph,
    alloc: Global,
    map: &RegMap,
    members: &[u32],
    views: &[FieldView],
    hw: &[Vec<Wire>],
) -> Result<Wire, AllocError>
    requires members { (i k : ℕ) → slice_get members.now i ≡ Some k → k < length map.now.fields.items }
    requires given { AreGiven graph.old map.now.fields.items map.now.inputs.items views.now hw.now }
    requires room { length graph.old + sum_by (member_gates map.now.fields.items) members.now < 2 ^ 31 }
    ensures nodes { Extends graph.old graph.new (sum_by (member_gates map.now.fields.items) members.now) }
    ensures of { IfOk result (λ w. IsOf w graph.new) }
    ensures wire { IfOk result (λ w. (e : (ℕ → Bool) → View) → SeesFields graph.old map.now views.now hw.now e → Means graph.new w (λ v. list_any (raises (e v)) members.now)) }
    ensures exact { IfOk result (λ w. raise_made map.now.fields.items (views_of views.now) (words_of hw.now) graph.old members.now ≡ (w, graph.new)) }
{
    let size = graph.size();
    let mut raised = graph.zero();
    for n in 0..members.len() {
        let one = member_wire(graph, alloc, map, members[n] as usize, views, hw)?;
        raised = or_wire(graph, raised, one)?;
    }
    Ok(raised)
}

/// Whether the register of a field raises its interrupt, where the field is the first of the
/// register's interrupt fields; false of another. At most two gates a place of them and one more, a
/// field.
pub fn intr_wire(
    graph: &mut Graph,
    alloc: Global,
    map: &RegMap,
    field: &Field,
    views: &[FieldView],
    hw: &[Vec<Wire>],
) -> Result<Wire, AllocError>
    requires field { IsFieldOf map.now field.now }
    requires given { AreGiven graph.old map.now.fields.items map.now.inputs.items views.now hw.now }
    requires room { length graph.old + intr_gates_of map.now.fields.items field.now < 2 ^ 31 }
    ensures nodes { Extends graph.old graph.new (intr_gates_of map.now.fields.items field.now) }
    ensures of { IfOk result (λ w. IsOf w graph.new) }
    ensures wire { IfOk result (λ w. (e : (ℕ → Bool) → View) → SeesFields graph.old map.now views.now hw.now e → Means graph.new w (λ v. list_any (raises (e v)) (members_of field.now.extra))) }
    ensures exact { IfOk result (λ w. intr_made map.now.fields.items (views_of views.now) (words_of hw.now) graph.old field.now ≡ (w, graph.new)) }
{
    match &field.extra {
        Extra::Intr(intr) => raise_wire(graph, alloc, map, intr.members.as_slice(), views, hw),
        _ => Ok(graph.zero()),
    }
}
