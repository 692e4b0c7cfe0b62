//! What hardware gives to a field.

ghost use Rattle.std.specs.Prelude.{◌≡◌, ℕ, Some, if◌then◌else◌, ◌<◌, length, IfOk};
ghost use Rattle.field_policies.specs.Fields.{EachExpr, is_in_range, incr_of, decr_of};
ghost use Rattle.word_gates.specs.Graphs.{off};
ghost use Rattle.side_gates.specs.Graphs.{IsSource, data_made};

use expr_gates::view::FieldView;
use expr_gates::{given_wire, open_wire};
use field_policies::extra::Extra;
use field_policies::field::Field;
use field_policies::signal::HwExpr;
use gate_graph::{Graph, Wire};
use std::alloc::{AllocError, Global};
use std::vec::Vec;
use word_gates::repeated;

/// What hardware gives to a field at an edge. The data has one wire for each place of the field, least
/// first.
#[derive(Debug, Drop)]
pub struct SourceGates {
    /// The data is taken: there is a data input, and `we` or `wel` lets it in.
    pub taken: Wire,
    /// `hwset`.
    pub set: Wire,
    /// `hwclr`.
    pub clear: Wire,
    /// A counter counts up.
    pub incr: Wire,
    /// A counter counts down.
    pub decr: Wire,
    /// The data; false where there is no data input.
    pub given: Vec<Wire>,
}

/// What counts a counter up; none where the field is no counter.
fn incr_of(extra: &Extra) -> Option<HwExpr>
    ensures { result ≡ incr_of extra.now }
{
    match extra {
        Extra::Counter(counter) => counter.incr,
        _ => None,
    }
}

/// What counts a counter down; none where the field is no counter.
fn decr_of(extra: &Extra) -> Option<HwExpr>
    ensures { result ≡ decr_of extra.now }
{
    match extra {
        Extra::Counter(counter) => counter.decr,
        _ => None,
    }
}

/// The wire where the condition holds, else false.
fn where_there(graph: &Graph, there: bool, wire: Wire) -> Wire
    ensures { result ≡ (if there then wire else off) }
{
    if there { wire } else { graph.zero() }
}

/// The wires of a field's data input, false where it has none.
fn data_word(
    graph: &Graph,
    alloc: Global,
    field: &Field,
    hw: &[Vec<Wire>],
) -> Result<Vec<Wire>, AllocError>
    requires { (k : ℕ) → field.now.data_in ≡ Some k → k < length hw.now }
    ensures { IfOk result (λ wires. wires.items ≡ data_made hw.now field.now.width field.now.data_in) }
{
    match field.data_in {
        Some(k) => hw[k as usize].to_vec(alloc),
        None => repeated(alloc, graph.zero(), field.width as usize),
    }
}

/// What hardware gives to a field, where `views` has each field and `hw` each hardware input: no gates.
pub fn source_gates(
    graph: &Graph,
    alloc: Global,
    field: &Field,
    views: &[FieldView],
    hw: &[Vec<Wire>],
) -> Result<SourceGates, AllocError>
    requires in_range { EachExpr (is_in_range (length views.now) (length hw.now)) (is_in_range (length views.now) (length hw.now)) field.now }
    requires input { (k : ℕ) → field.now.data_in ≡ Some k → k < length hw.now }
    ensures { IfOk result (λ s. IsSource field.now views.now hw.now s) }
{
    let opened = open_wire(graph, alloc, views, hw, field.data_gate)?;
    let taken = where_there(graph, field.data_in.is_some(), opened);
    let set = given_wire(graph, alloc, views, hw, field.set)?;
    let clear = given_wire(graph, alloc, views, hw, field.clear)?;
    let incr = given_wire(graph, alloc, views, hw, incr_of(&field.extra))?;
    let decr = given_wire(graph, alloc, views, hw, decr_of(&field.extra))?;
    let given = data_word(graph, alloc, field, hw)?;
    Ok(SourceGates {
        taken,
        set,
        clear,
        incr,
        decr,
        given,
    })
}
