//! A word beside a constant.

ghost use Rattle.std.specs.Prelude.{◌≡◌, ℕ, Bool, true, not, ◌&&◌, ◌==◌, if◌then◌else◌, ◌+◌, ◌*◌, ◌/◌, ◌^◌, ◌<◌, length, IfOk};
ghost use Rattle.gate_graph.specs.Gates.{wire_value, AreOf, IsOf, Extends, Means};
ghost use Rattle.bit_base.specs.Numbers.{number_of};
ghost use Rattle.word_gates.specs.Graphs.{off, as_bit, number_made};
ghost use Rattle.word_gates.specs.Words.{values};

use crate::places::inverted;
use gate_graph::{Graph, Wire};
use std::alloc::AllocError;

/// The wire, or its inverse where the bit is false: no gate.
pub fn same_as(wire: Wire, bit: bool) -> Wire
    ensures node { result.0 / 2 ≡ wire.0 / 2 }
    ensures value { (v : ℕ → Bool) → wire_value v result ≡ (if bit then wire_value v wire else not (wire_value v wire)) }
    ensures exact { result ≡ as_bit wire bit }
{
    if bit { wire } else { inverted(wire) }
}

/// The wire where the condition holds, else false: no gate.
pub fn only_if(graph: &Graph, condition: bool, wire: Wire) -> Wire
    requires { IsOf wire graph.now }
    ensures wire { Means graph.now result (λ v. condition && wire_value v wire) }
    ensures exact { result ≡ (if condition then wire else off) }
{
    if condition { wire } else { graph.zero() }
}

/// True where the word has this number, least place first: one gate a place.
pub fn is_number(graph: &mut Graph, a: &[Wire], number: u32) -> Result<Wire, AllocError>
    requires a_of { AreOf a.now graph.old }
    requires room { length graph.old + length a.now * 1 < 2 ^ 31 }
    ensures nodes { Extends graph.old graph.new (length a.now * 1) }
    ensures wire { IfOk result (λ w. Means graph.new w (λ v. number_of (values v a.now) == number)) }
    ensures exact { IfOk result (λ w. number_made graph.old a.now number ≡ (w, graph.new)) }
{
    let mut found = inverted(graph.zero());
    let mut left = number;
    for i in 0..a.len() {
        let bit = same_as(a[i], left % 2 == 1);
        found = graph.and(found, bit)?;
        left /= 2;
    }
    let wire = only_if(graph, left == 0, found);
    Ok(wire)
}
