//! The step of a counter, as gates.

ghost use Rattle.std.specs.Prelude.{◌≡◌, ℕ, Bool, not, ◌&&◌, if◌then◌else◌, ◌+◌, ◌-◌, ◌*◌, ◌^◌, ◌<◌, length, IfOk};
ghost use Rattle.bit_base.specs.Numbers.{low_bits, number_of};
ghost use Rattle.field_extras.specs.Counters.{counted};
ghost use Rattle.gate_graph.specs.Gates.{wire_value, IsOf, AreOf, Extends, Means};
ghost use Rattle.word_gates.specs.Words.{values, Shows};
ghost use Rattle.extra_gates.specs.Bitwise.{held_bits};
ghost use Rattle.extra_gates.specs.Graphs.{difference_made, held_made, counted_made};

use crate::numbers::{number_word, widened};
use field_policies::extra::Counter;
use gate_graph::{Graph, Wire};
use std::alloc::{AllocError, Global};
use std::vec::Vec;
use word_gates::{add, inverted, masked, only_if, or, repeated, sub};

/// What one edge makes of a counter: its next bits, least first, whether the count passed the
/// greatest value, and whether it fell below 0.
#[derive(Debug, Drop)]
pub struct CountGates {
    pub value: Vec<Wire>,
    pub over: Wire,
    pub under: Wire,
}

/// The value with what it counts up and down, in two places more and modulo 2 to them: twenty gates a
/// place.
#[tactic(auto, using(gate_graph::proofs::GateLemmas::are_of_later, gate_graph::proofs::GateLemmas::extends_more), unfolding(crate::specs::Graphs::difference_made))]
fn difference(
    graph: &mut Graph,
    alloc: Global,
    counter: &Counter,
    value: &[Wire],
    incr: Wire,
    decr: Wire,
) -> Result<Vec<Wire>, AllocError>
    requires value_of { AreOf value.now graph.old }
    requires incr_of { IsOf incr graph.old }
    requires decr_of { IsOf decr graph.old }
    requires room { length graph.old + 20 * (length value.now + 2) < 2 ^ 31 }
    ensures nodes { Extends graph.old graph.new (20 * (length value.now + 2)) }
    ensures length { IfOk result (λ wires. length wires.items ≡ length value.now + 2) }
    ensures value { counter.now.up < 2 ^ length value.now → counter.now.down < 2 ^ length value.now → IfOk result (λ wires. Shows graph.new wires.items
        (λ v. low_bits (length value.now + 2) (number_of (values v value.now) + (if wire_value v incr then counter.now.up else 0) + 2 ^ (length value.now + 2) - (if wire_value v decr then counter.now.down else 0)))) }
    ensures exact { IfOk result (λ wires. difference_made counter.now graph.old value.now incr decr ≡ (wires.items, graph.new)) }
{
    let width = value.len() + 2;
    let wide = widened(graph, alloc, value)?;
    let up = number_word(graph, alloc, width, counter.up, incr)?;
    let down = number_word(graph, alloc, width, counter.down, decr)?;
    let sum = add(graph, alloc, wide.as_slice(), up.as_slice())?;
    let wires = sub(graph, alloc, sum.as_slice(), down.as_slice())?;
    Ok(wires)
}

/// The bits, all true where the count stops above, and all false where it stops below: two gates a
/// place.
#[tactic(auto, using(gate_graph::proofs::GateLemmas::are_of_later, gate_graph::proofs::GateLemmas::extends_more), unfolding(crate::specs::Graphs::held_made))]
fn held(
    graph: &mut Graph,
    alloc: Global,
    value: &[Wire],
    above: Wire,
    below: Wire,
) -> Result<Vec<Wire>, AllocError>
    requires value_of { AreOf value.now graph.old }
    requires above_of { IsOf above graph.old }
    requires below_of { IsOf below graph.old }
    requires room { length graph.old + 2 * length value.now < 2 ^ 31 }
    ensures nodes { Extends graph.old graph.new (2 * length value.now) }
    ensures length { IfOk result (λ wires. length wires.items ≡ length value.now) }
    ensures value { IfOk result (λ wires. Shows graph.new wires.items (λ v. held_bits (wire_value v above) (wire_value v below) (values v value.now))) }
    ensures exact { IfOk result (λ wires. held_made graph.old value.now above below ≡ (wires.items, graph.new)) }
{
    let ends = repeated(alloc, above, value.len())?;
    let high = or(graph, alloc, value, ends.as_slice())?;
    let wires = masked(graph, alloc, high.as_slice(), inverted(below))?;
    Ok(wires)
}

/// The step of a counter of these bits, 1 to 32, where `incr` says that it counts up and `decr` that it
/// counts down. At most 22 gates a place and 41 more.
#[tactic(auto, using(gate_graph::proofs::GateLemmas::are_of_later, gate_graph::proofs::GateLemmas::extends_more), unfolding(crate::specs::Graphs::counted_made))]
pub fn count_gates(
    graph: &mut Graph,
    alloc: Global,
    counter: &Counter,
    value: &[Wire],
    incr: Wire,
    decr: Wire,
) -> Result<CountGates, AllocError>
    requires value_of { AreOf value.now graph.old }
    requires incr_of { IsOf incr graph.old }
    requires decr_of { IsOf decr graph.old }
    requires up { counter.now.up < 2 ^ length value.now }
    requires down { counter.now.down < 2 ^ length value.now }
    requires room { length graph.old + 22 * length value.now + 41 < 2 ^ 31 }
    ensures nodes { Extends graph.old graph.new (22 * length value.now + 41) }
    ensures length { IfOk result (λ g. length g.value.items ≡ length value.now) }
    ensures value { IfOk result (λ g. Shows graph.new g.value.items (λ v. low_bits (length value.now) (counted counter.now (length value.now) (number_of (values v value.now)) (wire_value v incr) (wire_value v decr)).value)) }
    ensures over { IfOk result (λ g. Means graph.new g.over (λ v. (counted counter.now (length value.now) (number_of (values v value.now)) (wire_value v incr) (wire_value v decr)).over)) }
    ensures under { IfOk result (λ g. Means graph.new g.under (λ v. (counted counter.now (length value.now) (number_of (values v value.now)) (wire_value v incr) (wire_value v decr)).under)) }
    ensures exact { IfOk result (λ g. counted_made counter.now graph.old value.now incr decr ≡ ((g.value.items, (g.over, g.under)), graph.new)) }
{
    let width = value.len();
    let sum = difference(graph, alloc, counter, value, incr, decr)?;
    let wires = sum.as_slice();
    let under = wires[width + 1];
    let over = graph.and(wires[width], inverted(under))?;
    let above = only_if(graph, counter.up_stops, over);
    let below = only_if(graph, counter.down_stops, under);
    let value = held(graph, alloc, &wires[..width], above, below)?;
    Ok(CountGates { value, over, under })
}
