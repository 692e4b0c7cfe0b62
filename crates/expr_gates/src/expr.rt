//! Expressions as wires: no gates.

ghost use Rattle.std.specs.Prelude.{◌≡◌, IsTrue, Some, [], ◌∷◌, length, get_or, IfOk};
ghost use Rattle.field_policies.specs.declared.signal.HwExpr.{HwExpr};
ghost use Rattle.field_policies.specs.Fields.{is_in_range};
ghost use Rattle.word_gates.specs.Graphs.{off};
ghost use Rattle.expr_gates.specs.Graphs.{expr_wires, given_made};

use crate::view::FieldView;
use field_policies::signal::HwExpr;
use gate_graph::{Graph, Wire};
use std::alloc::{AllocError, Global};
use std::vec::Vec;

/// The word of this wire alone.
fn word_of(alloc: Global, wire: Wire) -> Result<Vec<Wire>, AllocError>
    ensures { IfOk result (λ wires. wires.items ≡ wire ∷ []) }
{
    let mut wires = Vec::new(alloc);
    wires.push(wire)?;
    Ok(wires)
}

/// The wires of an expression, least place first, where `views` has each field and `hw` each hardware
/// input.
pub fn expr_word(
    alloc: Global,
    views: &[FieldView],
    hw: &[Vec<Wire>],
    expr: HwExpr,
) -> Result<Vec<Wire>, AllocError>
    requires { IsTrue (is_in_range (length views.now) (length hw.now) expr) }
    ensures { IfOk result (λ wires. wires.items ≡ expr_wires views.now hw.now expr) }
{
    match expr {
        HwExpr::Input(k) => hw[k as usize].to_vec(alloc),
        HwExpr::Value(n) => views[n as usize].value.to_vec(alloc),
        HwExpr::Anded(n) => word_of(alloc, views[n as usize].anded),
        HwExpr::Ored(n) => word_of(alloc, views[n as usize].ored),
        HwExpr::Xored(n) => word_of(alloc, views[n as usize].xored),
    }
}

/// The first wire of a word, false of an empty one.
pub fn first_wire(graph: &Graph, wires: &[Wire]) -> Wire
    ensures { result ≡ get_or wires.now 0 off }
{
    if wires.is_empty() {
        graph.zero()
    } else {
        wires[0]
    }
}

/// The wire of an expression of one bit that may be missing: false where it isn't there.
pub fn given_wire(
    graph: &Graph,
    alloc: Global,
    views: &[FieldView],
    hw: &[Vec<Wire>],
    expr: Option<HwExpr>,
) -> Result<Wire, AllocError>
    requires { (e : HwExpr) → expr ≡ Some e → IsTrue (is_in_range (length views.now) (length hw.now) e) }
    ensures { IfOk result (λ w. w ≡ given_made views.now hw.now expr) }
{
    match expr {
        None => Ok(graph.zero()),
        Some(e) => {
            let wires = expr_word(alloc, views, hw, e)?;
            Ok(first_wire(graph, wires.as_slice()))
        }
    }
}
