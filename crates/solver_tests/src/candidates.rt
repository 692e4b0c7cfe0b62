//! The candidate lists of small circuits, worked out by hand.

ghost use Rattle.std.specs.Prelude.{◌≡◌, ◌/◌};
ghost use Rattle.gate_graph.specs.declared.parts.Start.TheVariants.{Zero};

use gate_graph::{Circuit, Graph, Latch, Start, Wire};
use invariant_miner::candidates::candidates;
use std::alloc::{AllocError, Global};
use std::test::Fail;
use std::vec::Vec;
use unroll_cnf::{LatchClause, LatchLiteral};

/// A latch that is 0 in the first state.
fn from_zero(next: Wire) -> Latch
    ensures { result ≡ record { start = Zero; next = next } }
{
    Latch {
        start: Start::Zero,
        next,
    }
}

/// A wire of the same node, inverted or not.
fn signed(wire: Wire, inverted: bool) -> Wire
    ensures { result.0 / 2 ≡ wire.0 / 2 }
{
    if inverted { wire.inverted() } else { wire }
}

/// Latch 1 takes the input, latch 2 the same or its opposite, and latch 3 is 1 after the first edge.
fn echoes(alloc: Global, opposite: bool) -> Result<Circuit, AllocError> {
    let mut graph = Graph::new(alloc)?;
    let _live = graph.latch()?;
    let first = graph.latch()?;
    let _second = graph.latch()?;
    let _third = graph.latch()?;
    let input = graph.input()?;
    let last = Latch {
        start: Start::Free,
        next: Wire(1),
    };
    let mut latches = Vec::new(alloc);
    latches.extend_from_slice(&[
        from_zero(Wire(1)),
        from_zero(input),
        from_zero(signed(input, opposite)),
        last,
    ])?;
    let mut control = Vec::new(alloc);
    control.extend_from_slice(&[1, 2])?;
    let _size = graph.size();
    Ok(Circuit {
        graph,
        latches,
        inputs: 1,
        bad: first,
        address_first: 0,
        address_bits: 0,
        addresses: Vec::new(alloc),
        control,
    })
}

/// Latch 1 takes the conjunction of the two inputs, and latch 2 that of the first with the opposite
/// of the second; the inputs are an address. Latch 0 stays 0 unless `live`.
fn exclusive(alloc: Global, live: bool) -> Result<Circuit, AllocError> {
    let mut graph = Graph::new(alloc)?;
    let _live = graph.latch()?;
    let first = graph.latch()?;
    let _second = graph.latch()?;
    let x = graph.input()?;
    let y = graph.input()?;
    let both = graph.and(x, y)?;
    let one = graph.and(x, y.inverted())?;
    let mut latches = Vec::new(alloc);
    latches.extend_from_slice(&[
        from_zero(signed(Wire(0), live)),
        from_zero(both),
        from_zero(one),
    ])?;
    let mut addresses = Vec::new(alloc);
    addresses.extend_from_slice(&[1, 3, 2])?;
    let mut control = Vec::new(alloc);
    control.extend_from_slice(&[1, 2])?;
    let _size = graph.size();
    Ok(Circuit {
        graph,
        latches,
        inputs: 2,
        bad: first,
        address_first: 0,
        address_bits: 2,
        addresses,
        control,
    })
}

/// A latch by its number plus 1, negated where the number is negative.
fn is_literal(literal: LatchLiteral, signed: i32) -> bool {
    u64::from(literal.latch) + 1 == u64::from(signed.unsigned_abs())
        && literal.negated == (signed < 0)
}

/// Whether the clause has just these literals, in this order.
fn is_clause(clause: &LatchClause, expected: &[i32]) -> bool {
    let literals = clause.as_slice();
    literals.len() == expected.len()
        && literals
            .iter()
            .zip(expected)
            .all(|(literal, signed)| is_literal(*literal, *signed))
}

/// Whether the list has just these clauses, in this order.
fn is_list(list: &[LatchClause], expected: &[&[i32]]) -> bool {
    list.len() == expected.len()
        && list
            .iter()
            .zip(expected)
            .all(|(clause, literals)| is_clause(clause, literals))
}

#[test]
fn candidates_are_these(rt: HostRuntime) -> Result<(), Fail> {
    let alloc = rt.alloc();
    let equal: [&[i32]; 3] = [&[2, -3], &[-2, 3], &[4]];
    let opposite: [&[i32]; 3] = [&[2, 3], &[-2, -3], &[4]];
    for seed in [0, 1, 0xFFFF_FFFF_FFFF_FFFF] {
        let list = candidates(alloc, &echoes(alloc, false)?, seed)?;
        assert!(rt;
            is_list(list.as_slice(), &equal),
            "equal latches, seed {seed}"
        );
        let list = candidates(alloc, &echoes(alloc, true)?, seed)?;
        assert!(rt;
            is_list(list.as_slice(), &opposite),
            "opposite latches, seed {seed}"
        );
    }
    let exclusion: [&[i32]; 1] = [&[-2, -3]];
    let list = candidates(alloc, &exclusive(alloc, true)?, 0)?;
    assert!(rt;
        is_list(list.as_slice(), &exclusion),
        "two latches that exclude each other"
    );
    let list = candidates(alloc, &exclusive(alloc, false)?, 0)?;
    assert!(rt; list.is_empty(), "no sample state");
    Ok(())
}
