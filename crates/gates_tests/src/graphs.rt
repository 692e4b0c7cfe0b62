//! A graph and a circuit, built and evaluated.

use gate_graph::{Circuit, CircuitParts, Graph, Latch, Node, Start, Wire};
use std::alloc::{AllocError, Global};
use std::test::Fail;

/// One latch, one input, and a gate over each pair of wires; expected values worked out by hand.
#[test]
fn gates_have_the_values_of_conjunctions(rt: HostRuntime) -> Result<(), Fail> {
    let mut graph = Graph::new(rt.alloc())?;
    let latch = graph.latch()?;
    let input = graph.input()?;
    assert_eq!(rt; latch.0, 2);
    assert_eq!(rt; input.0, 4);
    let both = graph.and(latch, input.inverted())?;
    assert_eq!(rt; both.0, 6);
    assert_eq!(rt; graph.node(3), Node::And(latch, input.inverted()));
    assert_eq!(rt; graph.and(input, input)?, input);
    assert_eq!(rt; graph.and(input, input.inverted())?, graph.zero());
    assert_eq!(rt; graph.and(graph.zero(), input)?, graph.zero());
    assert_eq!(rt; graph.and(graph.zero().inverted(), input)?, input);
    assert_eq!(rt; graph.and(input, graph.zero().inverted())?, input);
    assert_eq!(rt; graph.and(input.inverted(), latch)?, both);
    assert_eq!(rt; graph.size(), 4);
    let rows = [
        (false, false, false),
        (false, true, false),
        (true, false, true),
        (true, true, false),
    ];
    for (l, x, expected) in rows {
        let mut table = [false; 4];
        graph.eval(&[l], &[x], &mut table);
        assert_eq!(rt; table, [false, l, x, expected]);
    }
    Ok(())
}

/// A latch that stays 1 once an input was, with what may be wrong about it.
#[derive(Clone, Copy, Drop)]
struct Row {
    start: Start,
    next: Wire,
    bad: Wire,
    latches: usize,
    inputs: u32,
    address_bits: u32,
    control: &'static [u32],
    fits: bool,
}

const GOOD: Row = Row {
    start: Start::Zero,
    next: Wire(9),
    bad: Wire(2),
    latches: 2,
    inputs: 1,
    address_bits: 1,
    control: &[1],
    fits: true,
};

/// The parts of a row: two latches, an input and one gate.
fn parts_of(alloc: Global, row: Row) -> Result<CircuitParts, AllocError> {
    let mut graph = Graph::new(alloc)?;
    let live = graph.latch()?;
    graph.latch()?;
    let input = graph.input()?;
    graph.and(live.inverted(), input.inverted())?;
    let mut latches = Vec::new(alloc);
    for _ in 0..row.latches {
        latches.push(Latch {
            start: row.start,
            next: row.next,
        })?;
    }
    Ok(CircuitParts {
        graph,
        latches,
        inputs: row.inputs,
        bad: row.bad,
        address_first: 0,
        address_bits: row.address_bits,
        addresses: Vec::new(alloc),
        control: row.control.to_vec(alloc)?,
    })
}

/// The parts make a circuit, and each change of them makes none.
#[test]
fn a_circuit_is_made_of_parts_that_fit(rt: HostRuntime) -> Result<(), Fail> {
    let rows = [
        GOOD,
        Row {
            start: Start::Free,
            fits: false,
            ..GOOD
        },
        Row {
            next: Wire(10),
            fits: false,
            ..GOOD
        },
        Row {
            bad: Wire(10),
            fits: false,
            ..GOOD
        },
        Row {
            latches: 1,
            fits: false,
            ..GOOD
        },
        Row {
            inputs: 2,
            fits: false,
            ..GOOD
        },
        Row {
            address_bits: 2,
            fits: false,
            ..GOOD
        },
        Row {
            control: &[0],
            fits: false,
            ..GOOD
        },
        Row {
            control: &[2],
            fits: false,
            ..GOOD
        },
        Row {
            control: &[1, 1],
            fits: false,
            ..GOOD
        },
    ];
    for (i, row) in rows.iter().enumerate() {
        let parts = parts_of(rt.alloc(), *row)?;
        assert_eq!(rt; Circuit::check(parts).is_ok(), row.fits, "row {i}");
    }
    Ok(())
}

/// The latch's next value is 1 where it or the input is.
#[test]
fn an_edge_takes_the_next_wires(rt: HostRuntime) -> Result<(), Fail> {
    let parts = parts_of(rt.alloc(), GOOD)?;
    let circuit = Circuit::check(parts).ok().ok_or("no circuit")?;
    assert_eq!(rt; circuit.latches.len(), 2);
    assert_eq!(rt; circuit.inputs, 1);
    for (state, input, next) in [
        (false, false, false),
        (false, true, true),
        (true, false, true),
    ] {
        let after = circuit.next_state(rt.alloc(), &[state, false], &[input])?;
        assert_eq!(rt; after.as_slice(), [next, next].as_slice());
    }
    Ok(())
}
