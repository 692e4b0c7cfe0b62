//! The latches of all fields after an edge, in order.

ghost use Rattle.std.specs.Prelude.{◌≡◌, length, IfOk};
ghost use Rattle.latch_order.specs.Latches.{all_latches};
ghost use Rattle.next_latches.specs.Next.{all_next_stored};

use field_edges::EdgeGates;
use field_policies::field::Field;
use gate_graph::Wire;
use latch_order::push_latches;
use std::alloc::{AllocError, Global};
use std::vec::Vec;

/// The latches of all fields after the edge, field by field: no gates.
pub fn next_latches(
    alloc: Global,
    fields: &[Field],
    edges: &[EdgeGates],
) -> Result<Vec<Wire>, AllocError>
    requires { length edges.now ≡ length fields.now }
    ensures { IfOk result (λ wires. wires.items ≡ all_latches fields.now (all_next_stored edges.now)) }
{
    let mut latches = Vec::new(alloc);
    for n in 0..fields.len() {
        let step = &edges[n].step;
        push_latches(&mut latches, &fields[n], &step.value, step.used, step.known)?;
    }
    Ok(latches)
}
