//! Visits of a search, one row of a graph after the other.

ghost use Rattle.std.specs.Prelude.{◌≡◌, ◌<◌, ◌++◌, ◌∷◌, [], ℕ, List, Bool, true, false, length, slice_set, OnOk, IfOk};
ghost use Rattle.flat_flows.specs.Tables.{in_table};
ghost use Rattle.flat_loops.specs.Graphs.{leads};
ghost use Rattle.flat_cycles.specs.Visits.{AreVisits, IsDone, IsSource, HasGrown};

use flat_loops::graph::Graph;
use flat_sets::NumberSet;
use std::alloc::AllocError;
use std::vec::Vec;

/// A visit of a node, and the number of the visit that it came from; none where it came from the first node.
#[derive(Clone, Copy, Debug, PartialEq, Eq, Drop)]
pub struct Visit {
    pub node: usize,
    pub from: Option<usize>,
}

/// Visits a node, if it wasn't visited before.
fn note_visit(
    node: usize,
    from: Option<usize>,
    seen: &mut NumberSet,
    visits: &mut Vec<Visit>,
) -> Result<(), AllocError>
    requires { node < length seen.old }
    ensures was { OnOk result (in_table seen.old node ≡ true → (seen.new ≡ seen.old) × (visits.new.items ≡ visits.old.items)) }
    ensures new { OnOk result (in_table seen.old node ≡ false → (seen.new ≡ slice_set seen.old node true) × (visits.new.items ≡ visits.old.items ++ record { node = node; from = from } ∷ [])) }
{
    if seen.has(node) {
        return Ok(());
    }
    seen.add(node)?;
    visits.push(Visit { node, from })?;
    Ok(())
}

/// Visits the nodes from the first on to which a node leads. Whether the first is among them: the rest is then left out.
pub fn visit_row(
    graph: &Graph,
    first: usize,
    node: usize,
    from: Option<usize>,
    seen: &mut NumberSet,
    visits: &mut Vec<Visit>,
) -> Result<bool, AllocError>
    requires bounded { (k j : ℕ) → leads graph.now k j ≡ true → j < length seen.old }
    requires visits { AreVisits graph.now first seen.old visits.old.items }
    requires source { IsSource first visits.old.items node from }
    ensures back { IfOk result (λ back. back ≡ true → leads graph.now node first ≡ true) }
    ensures visits { OnOk result (AreVisits graph.now first seen.new visits.new.items) }
    ensures grown { OnOk result (HasGrown seen.old visits.old.items seen.new visits.new.items) }
    ensures done { IfOk result (λ back. back ≡ false → IsDone graph.now first seen.new node) }
{
    for next in graph.row(node) {
        if *next == first {
            return Ok(true);
        }
        if *next > first {
            note_visit(*next, from, seen, visits)?;
        }
    }
    Ok(false)
}
