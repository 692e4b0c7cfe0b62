//! The state after an edge.

ghost use Rattle.std.specs.Prelude.{◌≡◌, ◌*◌, ◌<◌, length, map, IfOk, All};
ghost use Rattle.gate_graph.specs.Gates.{wire_value};
ghost use Rattle.gate_graph.specs.Values.{at};
ghost use Rattle.gate_graph.specs.Runs.{next_state};

use crate::circuits::Circuit;
use crate::parts::Latch;
use crate::values::value_at;
use std::alloc::{AllocError, Global};
use std::vec::Vec;

/// The values of the latches' next wires, where the table has the value of each node.
fn next_values(alloc: Global, latches: &[Latch], table: &[bool]) -> Result<Vec<bool>, AllocError>
    requires of { All (λ l. l.next.0 < 2 * length table.now) latches.now }
    ensures { IfOk result (λ v. v.items ≡ map (λ l. wire_value (at table.now) l.next) latches.now) }
{
    let mut next = Vec::new(alloc);
    for latch in latches {
        next.push(value_at(latch.next, table))?;
    }
    Ok(next)
}

/// The state after an edge; the table has room for each node's value.
fn next_in(
    alloc: Global,
    circuit: &Circuit,
    state: &[bool],
    inputs: &[bool],
    table: &mut [bool],
) -> Result<Vec<bool>, AllocError>
    requires state { length state.now ≡ length circuit.now.latches.items }
    requires inputs { length inputs.now ≡ circuit.now.inputs }
    requires table { length table.old ≡ length circuit.now.graph }
    ensures { IfOk result (λ v. v.items ≡ next_state circuit.now state.now inputs.now) }
{
    circuit.graph.eval(state, inputs, table);
    let next = next_values(alloc, circuit.latches.as_slice(), table)?;
    Ok(next)
}

impl Circuit {
    /// The state after an edge in this state with these inputs: one value for each latch.
    pub fn next_state(
        &self,
        alloc: Global,
        state: &[bool],
        inputs: &[bool],
    ) -> Result<Vec<bool>, AllocError>
        requires state { length state.now ≡ length self.now.latches.items }
        requires inputs { length inputs.now ≡ self.now.inputs }
        ensures { IfOk result (λ v. v.items ≡ next_state self.now state.now inputs.now) }
    {
        let mut table = Vec::new(alloc);
        table.resize(self.graph.size() as usize, false)?;
        let next = next_in(alloc, self, state, inputs, table.as_mut_slice())?;
        Ok(next)
    }
}
