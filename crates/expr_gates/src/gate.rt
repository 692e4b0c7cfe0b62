//! Enables and masks as wires: no gates.

ghost use Rattle.std.specs.Prelude.{◌≡◌, IsTrue, Some, length, IfOk};
ghost use Rattle.field_policies.specs.declared.signal.Gate.{Gate};
ghost use Rattle.field_policies.specs.Fields.{is_in_range};
ghost use Rattle.expr_gates.specs.Graphs.{open_made, opened_made};

use crate::expr::{expr_word, first_wire};
use crate::view::FieldView;
use field_policies::signal::Gate;
use gate_graph::{Graph, Wire};
use std::alloc::{AllocError, Global};
use std::vec::Vec;
use word_gates::{inverted, inverted_word, repeated, same_as};

/// Whether a gate of one bit is open: one that isn't there is.
pub fn open_wire(
    graph: &Graph,
    alloc: Global,
    views: &[FieldView],
    hw: &[Vec<Wire>],
    gate: Option<Gate>,
) -> Result<Wire, AllocError>
    requires { (g : Gate) → gate ≡ Some g → IsTrue (is_in_range (length views.now) (length hw.now) g.expr) }
    ensures { IfOk result (λ w. w ≡ open_made views.now hw.now gate) }
{
    match gate {
        None => Ok(inverted(graph.zero())),
        Some(g) => {
            let wires = expr_word(alloc, views, hw, g.expr)?;
            let wire = first_wire(graph, wires.as_slice());
            Ok(same_as(wire, g.high))
        }
    }
}

/// Where a gate of so many bits is open, least place first: everywhere where it isn't there.
pub fn open_word(
    graph: &Graph,
    alloc: Global,
    views: &[FieldView],
    hw: &[Vec<Wire>],
    gate: Option<Gate>,
    width: usize,
) -> Result<Vec<Wire>, AllocError>
    requires { (g : Gate) → gate ≡ Some g → IsTrue (is_in_range (length views.now) (length hw.now) g.expr) }
    ensures { IfOk result (λ wires. wires.items ≡ opened_made width views.now hw.now gate) }
{
    match gate {
        None => repeated(alloc, inverted(graph.zero()), width),
        Some(g) => {
            let wires = expr_word(alloc, views, hw, g.expr)?;
            if g.high {
                Ok(wires)
            } else {
                inverted_word(alloc, wires.as_slice())
            }
        }
    }
}
