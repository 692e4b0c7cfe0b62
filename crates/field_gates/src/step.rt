//! The whole step of a field.

ghost use Rattle.std.specs.Prelude.{◌≡◌, ℕ, Bool, ◌+◌, ◌*◌, ◌^◌, ◌<◌, length, IfOk};
ghost use Rattle.gate_graph.specs.Gates.{Extends, Means};
ghost use Rattle.word_gates.specs.Words.{Shows};
ghost use Rattle.field_gates.specs.FieldStep.{is_written, is_software, by_software, by_hardware, next_word, next_used, next_known};
ghost use Rattle.field_gates.specs.SeenGates.{AreSeen, seen_at, seen_wires};
ghost use Rattle.field_gates.specs.StepGraphs.{sides_made, step_made};

use crate::known::known_wire;
use crate::next::next_word;
use crate::sides::{
    by_hardware_wire, by_software_wire, next_used_wire, software_wire, written_wire,
};
use crate::software::software_word;
use field_policies::field::Field;
use gate_graph::{Graph, Wire};
use std::alloc::{AllocError, Global};
use std::vec::Vec;

/// What the step of a field looks at. The words have one wire for each place of the field, least
/// first.
#[derive(Debug, Drop)]
pub struct SeenGates {
    /// The bus event reads the field's word.
    pub reads: Wire,
    /// `swwe` or `swwel` lets software write.
    pub allowed: Wire,
    /// The first write is used up.
    pub used: Wire,
    /// The value is known.
    pub known: Wire,
    /// Hardware is active.
    pub active: Wire,
    /// Hardware gives every bit, by its data, `hwset` or `hwclr`.
    pub whole: Wire,
    /// Whether the bit is written.
    pub enabled: Vec<Wire>,
    /// The written bit.
    pub payload: Vec<Wire>,
    /// The bit itself; false of a wire.
    pub value: Vec<Wire>,
    /// What hardware makes of the bit.
    pub side: Vec<Wire>,
    /// Whether `hwenable` or `hwmask` lets hardware change it.
    pub opened: Vec<Wire>,
}

/// The two sides of a field at an edge.
#[derive(Clone, Copy, Debug, Drop)]
pub struct SideGates {
    /// Software is active by a write.
    pub written: Wire,
    /// Software is active, by a write or by a read.
    pub software: Wire,
    /// Software gives the field.
    pub by_software: Wire,
    /// Hardware gives the field.
    pub by_hardware: Wire,
}

/// A field after an edge.
#[derive(Debug, Drop)]
pub struct StepGates {
    /// Software is active at the edge, as `swmod` shows it.
    pub software: Wire,
    /// Its bits, least first.
    pub value: Vec<Wire>,
    /// Its first write is used up.
    pub used: Wire,
    /// Its value is known.
    pub known: Wire,
}

/// The sides: one gate a place and five more at most.
#[tactic(auto, using(gate_graph::proofs::GateLemmas::extends_more, gate_graph::proofs::GateLemmas::are_of_later), unfolding(crate::specs::StepGraphs::sides_made))]
fn sides(graph: &mut Graph, field: &Field, seen: &SeenGates) -> Result<SideGates, AllocError>
    requires seen { AreSeen graph.old field.now.width seen.now }
    requires room { length graph.old + field.now.width + 5 < 2 ^ 31 }
    ensures nodes { Extends graph.old graph.new (field.now.width + 5) }
    ensures written { IfOk result (λ s. Means graph.new s.written (λ v. is_written field.now (seen_at v seen.now))) }
    ensures software { IfOk result (λ s. Means graph.new s.software (λ v. is_software field.now (seen_at v seen.now))) }
    ensures by_software { IfOk result (λ s. Means graph.new s.by_software (λ v. by_software field.now (seen_at v seen.now))) }
    ensures by_hardware { IfOk result (λ s. Means graph.new s.by_hardware (λ v. by_hardware field.now (seen_at v seen.now))) }
    ensures exact { IfOk result (λ s. sides_made field.now graph.old (seen_wires seen.now) ≡ (s, graph.new)) }
{
    let written = written_wire(graph, field, &seen.enabled, seen.allowed, seen.used)?;
    let software = software_wire(graph, field, written, seen.reads)?;
    let by_software = by_software_wire(graph, field, software, seen.active)?;
    let by_hardware = by_hardware_wire(graph, field, software, seen.active)?;
    Ok(SideGates {
        written,
        software,
        by_software,
        by_hardware,
    })
}

/// The field after the edge: twenty gates a place and thirteen more at most.
#[tactic(auto, using(gate_graph::proofs::GateLemmas::extends_more, gate_graph::proofs::GateLemmas::are_of_later), unfolding(crate::specs::StepGraphs::step_made))]
pub fn field_step(
    graph: &mut Graph,
    alloc: Global,
    field: &Field,
    seen: &SeenGates,
) -> Result<StepGates, AllocError>
    requires seen { AreSeen graph.old field.now.width seen.now }
    requires room { length graph.old + 20 * field.now.width + 13 < 2 ^ 31 }
    ensures nodes { Extends graph.old graph.new (20 * field.now.width + 13) }
    ensures length { IfOk result (λ s. length s.value.items ≡ field.now.width) }
    ensures software { IfOk result (λ s. Means graph.new s.software (λ v. is_software field.now (seen_at v seen.now))) }
    ensures value { IfOk result (λ s. Shows graph.new s.value.items (λ v. next_word field.now (seen_at v seen.now))) }
    ensures used { IfOk result (λ s. Means graph.new s.used (λ v. next_used field.now (seen_at v seen.now))) }
    ensures known { IfOk result (λ s. Means graph.new s.known (λ v. next_known field.now (seen_at v seen.now))) }
    ensures exact { IfOk result (λ s. step_made field.now graph.old (seen_wires seen.now) ≡ ((s.software, (s.value.items, (s.used, s.known))), graph.new)) }
{
    let sides = sides(graph, field, seen)?;
    let soft = software_word(
        graph,
        alloc,
        field.write,
        field.read,
        sides.written,
        &seen.enabled,
        &seen.value,
        &seen.payload,
    )?;
    let value = next_word(
        graph,
        alloc,
        field.pulse,
        sides.by_software,
        sides.by_hardware,
        soft.as_slice(),
        &seen.side,
        &seen.opened,
        &seen.value,
    )?;
    let used = next_used_wire(graph, field, sides.written, seen.used)?;
    let known = known_wire(graph, alloc, field, seen, sides)?;
    Ok(StepGates {
        software: sides.software,
        value,
        used,
        known,
    })
}
