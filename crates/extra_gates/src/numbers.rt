//! Numbers that a wire lets in.

ghost use Rattle.std.specs.Prelude.{◌≡◌, ℕ, Bool, if◌then◌else◌, ◌+◌, ◌++◌, [], ◌∷◌, length, IfOk};
ghost use Rattle.bit_base.specs.Numbers.{low_bits, number_of};
ghost use Rattle.gate_graph.specs.Gates.{wire_value, IsOf, AreOf};
ghost use Rattle.word_gates.specs.Graphs.{off};
ghost use Rattle.word_gates.specs.Words.{values, Shows};
ghost use Rattle.extra_gates.specs.Graphs.{placed};

use gate_graph::{Graph, Wire};
use std::alloc::{AllocError, Global};
use std::vec::Vec;

/// The first wire for a 1, the second for a 0.
fn place_of(bit: bool, one: Wire, none: Wire) -> Wire
    ensures { result ≡ (if bit then one else none) }
{
    if bit { one } else { none }
}

/// The places of a number, least first: a wire for each 1, and another for each 0.
fn places_of(
    alloc: Global,
    width: usize,
    number: u32,
    one: Wire,
    none: Wire,
) -> Result<Vec<Wire>, AllocError>
    ensures { IfOk result (λ wires. wires.items ≡ placed width number one none) }
{
    let mut wires = Vec::new(alloc);
    let mut left = number;
    for _place in 0..width {
        wires.push(place_of(left % 2 == 1, one, none))?;
        left /= 2;
    }
    Ok(wires)
}

/// The number where the wire is true, else 0, in so many places: no gates.
pub fn number_word(
    graph: &Graph,
    alloc: Global,
    width: usize,
    number: u32,
    wire: Wire,
) -> Result<Vec<Wire>, AllocError>
    requires { IsOf wire graph.now }
    ensures length { IfOk result (λ wires. length wires.items ≡ width) }
    ensures value { IfOk result (λ wires. Shows graph.now wires.items (λ v. low_bits width (if wire_value v wire then number else 0))) }
    ensures exact { IfOk result (λ wires. wires.items ≡ placed width number wire off) }
{
    let none = graph.zero();
    let wires = places_of(alloc, width, number, wire, none)?;
    Ok(wires)
}

/// The word with two more places, which are false: no gates.
pub fn widened(graph: &Graph, alloc: Global, a: &[Wire]) -> Result<Vec<Wire>, AllocError>
    requires { AreOf a.now graph.now }
    ensures length { IfOk result (λ wires. length wires.items ≡ length a.now + 2) }
    ensures of { IfOk result (λ wires. AreOf wires.items graph.now) }
    ensures value { IfOk result (λ wires. Shows graph.now wires.items (λ v. low_bits (length a.now + 2) (number_of (values v a.now)))) }
    ensures exact { IfOk result (λ wires. wires.items ≡ a.now ++ (off ∷ (off ∷ []))) }
{
    let none = graph.zero();
    let mut wires = Vec::new(alloc);
    wires.extend_from_slice(a)?;
    wires.push(none)?;
    wires.push(none)?;
    Ok(wires)
}
