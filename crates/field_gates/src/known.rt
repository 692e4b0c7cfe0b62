//! Whether the value of a field is known.

ghost use Rattle.std.specs.Prelude.{◌≡◌, ℕ, Bool, not, ◌&&◌, ◌||◌, is_some, ◌+◌, ◌*◌, ◌^◌, ◌<◌, length, IfOk};
ghost use Rattle.bit_base.specs.Operators.{are_all};
ghost use Rattle.reg_machine.specs.Steps.{is_whole};
ghost use Rattle.gate_graph.specs.Gates.{wire_value, IsOf, AreOf, Extends, Means};
ghost use Rattle.word_gates.specs.Words.{values};
ghost use Rattle.field_gates.specs.SeenGates.{AreSeen, AreSides, known_at, seen_wires};
ghost use Rattle.field_gates.specs.StepGraphs.{covered_made, by_write_made, either_made, known_made};

use crate::step::{SeenGates, SideGates};
use field_policies::field::Field;
use field_policies::policy::WriteEffect;
use gate_graph::{Graph, Wire};
use std::alloc::{AllocError, Global};
use word_gates::{any_wire, inverted, inverted_word, only_if, or_wire};

/// Whether the effect gives every bit that it writes, whatever its value was.
fn is_whole(write: WriteEffect) -> bool
    ensures { result ≡ is_whole write }
{
    match write {
        WriteEffect::AsIs => true,
        WriteEffect::Clear => true,
        WriteEffect::Set => true,
        _ => false,
    }
}

/// Every place is true: one gate a place.
#[tactic(auto, unfolding(crate::specs::StepGraphs::covered_made))]
fn covered_wire(graph: &mut Graph, alloc: Global, a: &[Wire]) -> Result<Wire, AllocError>
    requires a_of { AreOf a.now graph.old }
    requires room { length graph.old + length a.now < 2 ^ 31 }
    ensures nodes { Extends graph.old graph.new (length a.now) }
    ensures wire { IfOk result (λ w. Means graph.new w (λ v. are_all (values v a.now))) }
    ensures exact { IfOk result (λ w. covered_made graph.old a.now ≡ (w, graph.new)) }
{
    let absent = inverted_word(alloc, a)?;
    let some = any_wire(graph, absent.as_slice())?;
    Ok(inverted(some))
}

/// Software gives every bit: by a read, or by a write of every place whose effect gives every bit. Two
/// gates at most.
#[tactic(auto, using(gate_graph::proofs::GateLemmas::extends_more), unfolding(crate::specs::StepGraphs::by_write_made))]
fn by_write_wire(
    graph: &mut Graph,
    field: &Field,
    sides: SideGates,
    covered: Wire,
) -> Result<Wire, AllocError>
    requires written_of { IsOf sides.written graph.old }
    requires by_software_of { IsOf sides.by_software graph.old }
    requires covered_of { IsOf covered graph.old }
    requires room { length graph.old + 2 < 2 ^ 31 }
    ensures nodes { Extends graph.old graph.new 2 }
    ensures wire { IfOk result (λ w. Means graph.new w (λ v. wire_value v sides.by_software && (not (wire_value v sides.written) || (is_whole field.now.write && wire_value v covered)))) }
    ensures exact { IfOk result (λ w. by_write_made field.now graph.old sides covered ≡ (w, graph.new)) }
{
    let every = only_if(graph, is_whole(field.write), covered);
    let gives = or_wire(graph, inverted(sides.written), every)?;
    let wire = graph.and(sides.by_software, gives)?;
    Ok(wire)
}

/// One of four wires is true: three gates.
#[tactic(auto, using(gate_graph::proofs::GateLemmas::extends_more), unfolding(crate::specs::StepGraphs::either_made))]
fn either_wire(graph: &mut Graph, a: Wire, b: Wire, c: Wire, d: Wire) -> Result<Wire, AllocError>
    requires a_of { IsOf a graph.old }
    requires b_of { IsOf b graph.old }
    requires c_of { IsOf c graph.old }
    requires d_of { IsOf d graph.old }
    requires room { length graph.old + 3 < 2 ^ 31 }
    ensures nodes { Extends graph.old graph.new 3 }
    ensures wire { IfOk result (λ w. Means graph.new w (λ v. wire_value v a || ((wire_value v b || wire_value v c) || wire_value v d))) }
    ensures exact { IfOk result (λ w. either_made graph.old a b c d ≡ (w, graph.new)) }
{
    let two = or_wire(graph, b, c)?;
    let three = or_wire(graph, two, d)?;
    let wire = or_wire(graph, a, three)?;
    Ok(wire)
}

/// The field's value is known after the edge: it was, a side gave every bit, or a single pulse fell.
/// One gate a place and seven more at most.
#[tactic(auto, using(gate_graph::proofs::GateLemmas::extends_more, gate_graph::proofs::GateLemmas::are_of_later), unfolding(crate::specs::StepGraphs::known_made))]
pub fn known_wire(
    graph: &mut Graph,
    alloc: Global,
    field: &Field,
    seen: &SeenGates,
    sides: SideGates,
) -> Result<Wire, AllocError>
    requires seen { AreSeen graph.old field.now.width seen.now }
    requires sides { AreSides graph.old sides }
    requires room { length graph.old + field.now.width + 7 < 2 ^ 31 }
    ensures nodes { Extends graph.old graph.new (field.now.width + 7) }
    ensures wire { IfOk result (λ w. Means graph.new w (λ v. known_at v field.now seen.now sides)) }
    ensures exact { IfOk result (λ w. known_made field.now graph.old (seen_wires seen.now) sides ≡ (w, graph.new)) }
{
    let covered = covered_wire(graph, alloc, &seen.enabled)?;
    let soft = by_write_wire(graph, field, sides, covered)?;
    let every = only_if(graph, !field.bit_gate.is_some(), seen.whole);
    let hard = graph.and(sides.by_hardware, every)?;
    let quiet = graph.and(inverted(sides.software), inverted(seen.active))?;
    let falls = only_if(graph, field.pulse, quiet);
    let wire = either_wire(graph, seen.known, soft, hard, falls)?;
    Ok(wire)
}
