//! Words moved by places.

ghost use Rattle.std.specs.Prelude.{◌≡◌, ◌==◌, ℕ, Bool, if◌then◌else◌, ◌+◌, ◌-◌, ◌*◌, ◌^◌, ◌<◌, ◌≤◌, ◌++◌, min, take, drop, replicate, length, IfOk};
ghost use Rattle.gate_graph.specs.Gates.{wire_value, AreOf, IsOf, Extends};
ghost use Rattle.bit_base.specs.Numbers.{number_of};
ghost use Rattle.word_gates.specs.Moving.{moved_by};
ghost use Rattle.word_gates.specs.Words.{values, Shows};
ghost use Rattle.word_gates.specs.Graphs.{between_made, barrel_made};

use crate::choices::between;
use crate::sums::repeated;
use gate_graph::{Graph, Wire};
use std::alloc::{AllocError, Global};

/// Toward the last place of a word.
pub const UP: u8 = 0;

/// Toward the first place of a word.
pub const DOWN: u8 = 1;

/// The word moved by so many places, `UP` or `DOWN`; the fill comes in. No gates.
pub fn moved<const DIRECTION: u8>(
    alloc: Global,
    a: &[Wire],
    places: usize,
    fill: Wire,
) -> Result<Vec<Wire>, AllocError>
    ensures { IfOk result (λ wires. wires.items ≡ moved_by (DIRECTION == UP) places fill a.now) }
{
    let wires = match DIRECTION {
        UP => moved_left(alloc, a, places, fill)?,
        _ => moved_right(alloc, a, places, fill)?,
    };
    Ok(wires)
}

fn moved_left(alloc: Global, a: &[Wire], places: usize, fill: Wire) -> Result<Vec<Wire>, AllocError>
    ensures { IfOk result (λ wires. wires.items ≡ replicate (min places (length a.now)) fill ++ take (length a.now - places) a.now) }
{
    let gone = places.min(a.len());
    let mut wires = repeated(alloc, fill, gone)?;
    wires.extend_from_slice(&a[..a.len() - gone])?;
    Ok(wires)
}

fn moved_right(
    alloc: Global,
    a: &[Wire],
    places: usize,
    fill: Wire,
) -> Result<Vec<Wire>, AllocError>
    ensures { IfOk result (λ wires. wires.items ≡ drop places a.now ++ replicate (min places (length a.now)) fill) }
{
    let gone = places.min(a.len());
    let fills = repeated(alloc, fill, gone)?;
    let mut wires = Vec::new(alloc);
    wires.extend_from_slice(&a[gone..])?;
    wires.extend_from_slice(fills.as_slice())?;
    Ok(wires)
}

/// The word moved by so many places where the bit is true, else as it is: three gates a place.
pub fn stage<const DIRECTION: u8>(
    graph: &mut Graph,
    alloc: Global,
    a: &[Wire],
    places: usize,
    fill: Wire,
    bit: Wire,
) -> Result<Vec<Wire>, AllocError>
    requires a_of { AreOf a.now graph.old }
    requires fill_of { IsOf fill graph.old }
    requires bit_of { IsOf bit graph.old }
    requires room { length graph.old + length a.now * 3 < 2 ^ 31 }
    ensures nodes { Extends graph.old graph.new (length a.now * 3) }
    ensures length { IfOk result (λ wires. length wires.items ≡ length a.now) }
    ensures value { IfOk result (λ wires. Shows graph.new wires.items
        (λ v. if wire_value v bit then moved_by (DIRECTION == UP) places (wire_value v fill) (values v a.now) else values v a.now)) }
    ensures exact { IfOk result (λ wires. between_made graph.old (moved_by (DIRECTION == UP) places fill a.now) a.now bit ≡ (wires.items, graph.new)) }
{
    let far = moved::<DIRECTION>(alloc, a, places, fill)?;
    let wires = between(graph, alloc, far.as_slice(), a, bit)?;
    Ok(wires)
}

/// The word moved by the number of the amount, stage by stage: three gates a place and stage.
pub fn barrel<const DIRECTION: u8>(
    graph: &mut Graph,
    alloc: Global,
    a: &[Wire],
    amount: &[Wire],
    fill: Wire,
) -> Result<Vec<Wire>, AllocError>
    requires a_of { AreOf a.now graph.old }
    requires amount_of { AreOf amount.now graph.old }
    requires fill_of { IsOf fill graph.old }
    requires stages { length amount.now ≤ 11 }
    requires room { length graph.old + length amount.now * (3 * length a.now) < 2 ^ 31 }
    ensures nodes { Extends graph.old graph.new (length amount.now * (3 * length a.now)) }
    ensures length { IfOk result (λ wires. length wires.items ≡ length a.now) }
    ensures value { IfOk result (λ wires. Shows graph.new wires.items (λ v. moved_by (DIRECTION == UP) (number_of (values v amount.now)) (wire_value v fill) (values v a.now))) }
    ensures exact { IfOk result (λ wires. barrel_made (DIRECTION == UP) graph.old a.now amount.now fill ≡ (wires.items, graph.new)) }
{
    let mut word = Vec::new(alloc);
    word.extend_from_slice(a)?;
    let mut places = 1;
    for k in 0..amount.len() {
        word = stage::<DIRECTION>(graph, alloc, word.as_slice(), places, fill, amount[k])?;
        places *= 2;
    }
    Ok(word)
}
