//! The nodes on which a query depends, as one mark for each node.

ghost use Rattle.std.specs.Prelude.{◌≡◌, ℕ, ◌+◌, ◌*◌, ◌/◌, ◌<◌, ◌≤◌, Bool, false, ◌&&◌, ◌||◌, eqb, List, [], ◌∷◌, length, map, slice_get, slice_index_or, IfOk, OnOk, true, take};
ghost use Rattle.std.specs.List.{list_any};
ghost use Rattle.gate_graph.specs.Gates.{IsOf, IsLow};
ghost use Rattle.gate_graph.specs.Values.{at};
ghost use Rattle.unroll_cnf.specs.Latches.{weakened, IsOfLatches, AreOfLatches};
ghost use Rattle.unroll_cnf.specs.Cones.{with_wires, cone, is_next, feeds, is_bad_node, bad_cone, is_clause_next, is_set_next, set_cone, AreCones};

use crate::edges::latch_of;
use crate::latch_clause::LatchClause;
use crate::latch_literal::LatchLiteral;
use crate::sets::weaken;
use gate_graph::{Circuit, Node, Wire};
use std::alloc::{AllocError, Global};
use std::vec::Vec;

/// Whether the node is marked.
pub(crate) fn is_marked(marks: &[bool], node: u32) -> bool
    ensures { result ≡ at marks.now node }
{
    marks.get(node as usize).copied().unwrap_or(false)
}

/// Marks the node of the wire.
fn mark(marks: &mut [bool], wire: Wire)
    requires of { wire.0 < 2 * length marks.old }
    ensures { (j : ℕ) → at marks.new j ≡ (at marks.old j || eqb j (wire.0 / 2)) }
{
    marks[(wire.0 / 2) as usize] = true;
}

/// Marks the nodes of the wires of node `i`, if that is a gate with a mark.
fn mark_wires(marks: &mut [bool], i: u32, node: Node)
    requires low { IsLow i node }
    requires place { i < length marks.old }
    ensures { (j : ℕ) → at marks.new j ≡ with_wires i node (at marks.old) j }
{
    if let Node::And(a, b) = node {
        if is_marked(marks, i) {
            mark(marks, a);
            mark(marks, b);
        }
    }
}

/// Marks all on which the marked nodes depend within an edge.
fn spread(circuit: &Circuit, marks: &mut [bool])
    requires sized { length marks.old ≡ length circuit.now.graph }
    ensures { (j : ℕ) → at marks.new j ≡ cone circuit.now (at marks.old) j }
{
    for i in (0..circuit.graph.size()).rev() {
        mark_wires(marks, i, circuit.graph.node(i));
    }
}

/// Marks the node of the latch's next wire.
fn mark_next(circuit: &Circuit, marks: &mut [bool], latch: u32)
    requires sized { length marks.old ≡ length circuit.now.graph }
    ensures { (j : ℕ) → at marks.new j ≡ (at marks.old j || is_next (slice_get circuit.now.latches.items latch) j) }
{
    if let Some(latch) = latch_of(circuit, latch) {
        mark(marks, latch.next);
    }
}

/// Marks the node of the next wire of node `i`, if that is a latch of the set.
fn mark_fed(circuit: &Circuit, set: &[bool], marks: &mut [bool], i: u32, node: Node)
    requires sized { length marks.old ≡ length circuit.now.graph }
    ensures { (j : ℕ) → at marks.new j ≡ (at marks.old j || feeds circuit.now.latches.items i (node ∷ []) (at set.now) j) }
{
    if let Node::Latch(number) = node {
        if is_marked(set, i) {
            mark_next(circuit, marks, number);
        }
    }
}

/// Marks the nodes of the next wires of the set's latches.
fn feed(circuit: &Circuit, set: &[bool], marks: &mut [bool])
    requires sized { length marks.old ≡ length circuit.now.graph }
    ensures { (j : ℕ) → at marks.new j ≡ (at marks.old j || feeds circuit.now.latches.items 0 circuit.now.graph (at set.now) j) }
{
    for i in 0..circuit.graph.size() {
        mark_fed(circuit, set, marks, i, circuit.graph.node(i));
    }
}

/// No node marked.
fn no_marks(alloc: Global, circuit: &Circuit) -> Result<Vec<bool>, AllocError>
    ensures sized { IfOk result (λ marks. length marks.items ≡ length circuit.now.graph) }
    ensures none { IfOk result (λ marks. (j : ℕ) → at marks.items j ≡ false) }
{
    let mut marks = Vec::new(alloc);
    marks.resize(circuit.graph.size() as usize, false)?;
    Ok(marks)
}

/// Marks the nodes on which a bad edge depends at that edge.
fn mark_last(circuit: &Circuit, marks: &mut [bool])
    requires sized { length marks.old ≡ length circuit.now.graph }
    requires none { (j : ℕ) → at marks.old j ≡ false }
    ensures { (j : ℕ) → at marks.new j ≡ cone circuit.now (is_bad_node circuit.now) j }
{
    mark(marks, circuit.bad);
    spread(circuit, marks);
}

/// The nodes on which a bad edge depends at that edge.
fn last_cone(alloc: Global, circuit: &Circuit) -> Result<Vec<bool>, AllocError>
    ensures { IfOk result (λ marks. (j : ℕ) → at marks.items j ≡ cone circuit.now (is_bad_node circuit.now) j) }
{
    let mut marks = no_marks(alloc, circuit)?;
    mark_last(circuit, marks.as_mut_slice());
    Ok(marks)
}

/// Marks the node of the bad wire where `every`.
fn mark_bad(circuit: &Circuit, every: bool, marks: &mut [bool])
    requires sized { length marks.old ≡ length circuit.now.graph }
    ensures { (j : ℕ) → at marks.new j ≡ (at marks.old j || (every && is_bad_node circuit.now j)) }
{
    if every {
        mark(marks, circuit.bad);
    }
}

/// Marks the nodes on which the next state of the marked latches depends, and the bad wire where
/// `every`.
fn mark_earlier(circuit: &Circuit, every: bool, later: &[bool], marks: &mut [bool])
    requires sized { length marks.old ≡ length circuit.now.graph }
    requires none { (j : ℕ) → at marks.old j ≡ false }
    ensures { (j : ℕ) → at marks.new j ≡ cone circuit.now (λ i. (every && is_bad_node circuit.now i) || feeds circuit.now.latches.items 0 circuit.now.graph (at later.now) i) j }
{
    mark_bad(circuit, every, marks);
    feed(circuit, later, marks);
    spread(circuit, marks);
}

/// The nodes on which a bad edge depends one edge before those marked.
fn earlier_cone(
    alloc: Global,
    circuit: &Circuit,
    every: bool,
    later: &[bool],
) -> Result<Vec<bool>, AllocError>
    ensures { IfOk result (λ marks. (j : ℕ) → at marks.items j ≡ cone circuit.now (λ i. (every && is_bad_node circuit.now i) || feeds circuit.now.latches.items 0 circuit.now.graph (at later.now) i) j) }
{
    let mut marks = no_marks(alloc, circuit)?;
    mark_earlier(circuit, every, later, marks.as_mut_slice());
    Ok(marks)
}

/// The cones of a bad edge, at that edge and at `edges` edges before it, the nearest first.
pub(crate) fn bad_cones(
    alloc: Global,
    circuit: &Circuit,
    every: bool,
    edges: u32,
) -> Result<Vec<Vec<bool>>, AllocError>
    ensures { IfOk result (λ cones. AreCones circuit.now every (edges + 1) (map (λ m. m.items) cones.items)) }
{
    let mut cones = Vec::new(alloc);
    let last = last_cone(alloc, circuit)?;
    cones.push(last)?;
    for d in 0..edges {
        let marks = earlier_cone(alloc, circuit, every, cones[d as usize].as_slice())?;
        cones.push(marks)?;
    }
    Ok(cones)
}

/// Marks the nodes of the next wires of these latches.
fn mark_clause(circuit: &Circuit, clause: &[LatchLiteral], marks: &mut [bool])
    requires sized { length marks.old ≡ length circuit.now.graph }
    ensures { (j : ℕ) → at marks.new j ≡ (at marks.old j || list_any (λ l. is_next (slice_get circuit.now.latches.items l.latch) j) clause.now) }
{
    for literal in clause {
        mark_next(circuit, marks, literal.latch);
    }
}

/// Marks the nodes on which the state after an edge depends, as far as the set tells of it.
fn mark_set(
    circuit: &Circuit,
    set: &[LatchClause],
    latches: &mut Vec<LatchLiteral>,
    marks: &mut [bool],
) -> Result<(), AllocError>
    requires sized { length marks.old ≡ length circuit.now.graph }
    requires none { (j : ℕ) → at marks.old j ≡ false }
    ensures { OnOk result ((j : ℕ) → at marks.new j ≡ set_cone circuit.now set.now j) }
{
    for i in 0..set.len() {
        weaken(set[i].as_slice(), latches)?;
        mark_clause(circuit, latches.as_slice(), marks);
    }
    spread(circuit, marks);
    Ok(())
}

/// The nodes on which the state after an edge depends, as far as the set tells of it.
pub(crate) fn set_cone(
    alloc: Global,
    circuit: &Circuit,
    set: &[LatchClause],
    latches: &mut Vec<LatchLiteral>,
) -> Result<Vec<bool>, AllocError>
    ensures { IfOk result (λ marks. (j : ℕ) → at marks.items j ≡ set_cone circuit.now set.now j) }
{
    let mut marks = no_marks(alloc, circuit)?;
    mark_set(circuit, set, latches, marks.as_mut_slice())?;
    Ok(marks)
}
