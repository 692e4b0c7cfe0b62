//! Which side gives a field, and its once flag.

ghost use Rattle.std.specs.Prelude.{◌≡◌, ℕ, Bool, not, ◌&&◌, ◌||◌, ◌+◌, ◌^◌, ◌<◌, length, IfOk};
ghost use Rattle.bit_base.specs.Operators.{is_any};
ghost use Rattle.reg_machine.specs.Steps.{has_effect};
ghost use Rattle.gate_graph.specs.Gates.{wire_value, IsOf, AreOf, Extends, Means};
ghost use Rattle.word_gates.specs.Words.{values};
ghost use Rattle.field_gates.specs.Graphs.{written_made, software_side_made, by_software_made, by_hardware_made, next_used_made};

use field_policies::field::Field;
use field_policies::policy::ReadEffect;
use gate_graph::{Graph, Wire};
use std::alloc::AllocError;
use word_gates::{any_wire, inverted, only_if, or_wire};

/// Whether a read does something.
fn has_effect(read: ReadEffect) -> bool
    ensures { result ≡ has_effect read }
{
    match read {
        ReadEffect::Keep => false,
        _ => true,
    }
}

/// Software is active by a write: some place is written, and it may write the field. `allowed` is what
/// `swwe` or `swwel` says, `used` the once flag. One gate a place and two more at most.
#[tactic(auto, using(gate_graph::proofs::GateLemmas::extends_more, gate_graph::proofs::GateLemmas::respects_old), unfolding(crate::specs::Graphs::written_made))]
pub fn written_wire(
    graph: &mut Graph,
    field: &Field,
    enabled: &[Wire],
    allowed: Wire,
    used: Wire,
) -> Result<Wire, AllocError>
    requires enabled_of { AreOf enabled.now graph.old }
    requires allowed_of { IsOf allowed graph.old }
    requires used_of { IsOf used graph.old }
    requires room { length graph.old + length enabled.now + 2 < 2 ^ 31 }
    ensures nodes { Extends graph.old graph.new (length enabled.now + 2) }
    ensures wire { IfOk result (λ w. Means graph.new w
        (λ v. is_any (values v enabled.now) && field.now.writable && wire_value v allowed && not (field.now.once && wire_value v used))) }
    ensures exact { IfOk result (λ w. written_made field.now graph.old enabled.now allowed used ≡ (w, graph.new)) }
{
    let touched = any_wire(graph, enabled)?;
    let spent = only_if(graph, field.once, used);
    let may = graph.and(allowed, inverted(spent))?;
    let both = graph.and(touched, may)?;
    let wire = only_if(graph, field.writable, both);
    Ok(wire)
}

/// Software is active: by a write, or by a read that does something. One gate at most.
#[tactic(auto, using(gate_graph::proofs::GateLemmas::extends_more, gate_graph::proofs::GateLemmas::respects_old), unfolding(crate::specs::Graphs::software_side_made))]
pub fn software_wire(
    graph: &mut Graph,
    field: &Field,
    written: Wire,
    reads: Wire,
) -> Result<Wire, AllocError>
    requires written_of { IsOf written graph.old }
    requires reads_of { IsOf reads graph.old }
    requires room { length graph.old + 1 < 2 ^ 31 }
    ensures nodes { Extends graph.old graph.new 1 }
    ensures wire { IfOk result (λ w. Means graph.new w (λ v. wire_value v written || (wire_value v reads && field.now.readable && has_effect field.now.read))) }
    ensures exact { IfOk result (λ w. software_side_made field.now graph.old written reads ≡ (w, graph.new)) }
{
    let does = field.readable && has_effect(field.read);
    let read = only_if(graph, does, reads);
    let wire = or_wire(graph, written, read)?;
    Ok(wire)
}

/// Software gives the field: it is active, and hardware doesn't come first. One gate at most.
#[tactic(auto, using(gate_graph::proofs::GateLemmas::extends_more, gate_graph::proofs::GateLemmas::respects_old), unfolding(crate::specs::Graphs::by_software_made))]
pub fn by_software_wire(
    graph: &mut Graph,
    field: &Field,
    software: Wire,
    active: Wire,
) -> Result<Wire, AllocError>
    requires software_of { IsOf software graph.old }
    requires active_of { IsOf active graph.old }
    requires room { length graph.old + 1 < 2 ^ 31 }
    ensures nodes { Extends graph.old graph.new 1 }
    ensures wire { IfOk result (λ w. Means graph.new w (λ v. wire_value v software && not (field.now.hw_first && wire_value v active))) }
    ensures exact { IfOk result (λ w. by_software_made field.now graph.old software active ≡ (w, graph.new)) }
{
    let first = only_if(graph, field.hw_first, active);
    let wire = graph.and(software, inverted(first))?;
    Ok(wire)
}

/// Hardware gives the field: it is active, and comes first or software isn't. One gate at most.
#[tactic(auto, using(gate_graph::proofs::GateLemmas::extends_more, gate_graph::proofs::GateLemmas::respects_old), unfolding(crate::specs::Graphs::by_hardware_made))]
pub fn by_hardware_wire(
    graph: &mut Graph,
    field: &Field,
    software: Wire,
    active: Wire,
) -> Result<Wire, AllocError>
    requires software_of { IsOf software graph.old }
    requires active_of { IsOf active graph.old }
    requires room { length graph.old + 1 < 2 ^ 31 }
    ensures nodes { Extends graph.old graph.new 1 }
    ensures wire { IfOk result (λ w. Means graph.new w (λ v. wire_value v active && (field.now.hw_first || not (wire_value v software)))) }
    ensures exact { IfOk result (λ w. by_hardware_made field.now graph.old software active ≡ (w, graph.new)) }
{
    let held = only_if(graph, !field.hw_first, software);
    let wire = graph.and(active, inverted(held))?;
    Ok(wire)
}

/// The once flag after the edge: a once field is used up by its first write. One gate at most.
#[tactic(auto, using(gate_graph::proofs::GateLemmas::extends_more, gate_graph::proofs::GateLemmas::respects_old), unfolding(crate::specs::Graphs::next_used_made))]
pub fn next_used_wire(
    graph: &mut Graph,
    field: &Field,
    written: Wire,
    used: Wire,
) -> Result<Wire, AllocError>
    requires written_of { IsOf written graph.old }
    requires used_of { IsOf used graph.old }
    requires room { length graph.old + 1 < 2 ^ 31 }
    ensures nodes { Extends graph.old graph.new 1 }
    ensures wire { IfOk result (λ w. Means graph.new w (λ v. wire_value v used || (field.now.once && wire_value v written))) }
    ensures exact { IfOk result (λ w. next_used_made field.now graph.old written used ≡ (w, graph.new)) }
{
    let spent = only_if(graph, field.once, written);
    let wire = or_wire(graph, used, spent)?;
    Ok(wire)
}
