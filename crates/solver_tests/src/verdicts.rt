//! Small circuits, each verdict worked out by hand.

ghost use Rattle.std.specs.Prelude.{◌≡◌, ◌+◌, ◌*◌, ◌^◌, ◌<◌, ◌≤◌, [], ◌∷◌, length, slice_get, All, IfOk, IfSome, IsTrue};
ghost use Rattle.invariant_miner.specs.Thinned.{IsAskable};

use gate_graph::{Circuit, CircuitParts, Graph, Latch, Start, Wire};
use invariant_miner::candidates::candidates;
use invariant_miner::thin::thin;
use invariant_miner::{InductiveSet, Thinned};
use k_induction::decide::decide;
use k_induction::query::Query;
use k_induction::verdict::Verdict;
use std::alloc::{AllocError, Global};
use std::test::Fail;
use std::vec::Vec;
use unroll_cnf::{LatchClause, LatchLiteral};

/// A circuit: start and next wire of each latch, how many inputs, the wires of each gate, and the
/// bad wire. Node 0 is constant, then come the latches, the inputs and the gates. Wires are twice a
/// node's number, plus 1 where they are inverted.
#[derive(Clone, Copy, Drop)]
struct Parts {
    latches: &'static [(Start, u32)],
    inputs: u32,
    gates: &'static [(u32, u32)],
    bad: u32,
}

/// The wire of this number, where these are the wires of the nodes; gates that are alike are one node.
fn wire_of(nodes: &[Wire], number: u32) -> Wire {
    match nodes.get((number / 2) as usize) {
        Some(wire) if number % 2 == 1 => wire.inverted(),
        Some(wire) => *wire,
        None => Wire(u32::MAX),
    }
}

/// The graph of the parts, as far as their wires are of it, and the wires of its nodes.
fn graph_of(alloc: Global, parts: Parts) -> Result<(Graph, Vec<Wire>), AllocError> {
    let mut graph = Graph::new(alloc)?;
    let mut nodes = Vec::new(alloc);
    nodes.push(graph.zero())?;
    for _ in 0..parts.latches.len() {
        if graph.size() < 1000 {
            nodes.push(graph.latch()?)?;
        }
    }
    for _ in 0..parts.inputs {
        if graph.size() < 1000 {
            nodes.push(graph.input()?)?;
        }
    }
    for (a, b) in parts.gates {
        let size = graph.size();
        let left = wire_of(nodes.as_slice(), *a);
        let right = wire_of(nodes.as_slice(), *b);
        if size < 1000 && left.0 < 2 * size && right.0 < 2 * size {
            nodes.push(graph.and(left, right)?)?;
        }
    }
    Ok((graph, nodes))
}

/// The latches of the parts.
fn latches_of(alloc: Global, parts: Parts, nodes: &[Wire]) -> Result<Vec<Latch>, AllocError> {
    let mut latches = Vec::new(alloc);
    for (start, next) in parts.latches {
        latches.push(Latch {
            start: *start,
            next: wire_of(nodes, *next),
        })?;
    }
    Ok(latches)
}

/// The circuit of the parts, if they fit.
fn circuit_of(alloc: Global, parts: Parts) -> Result<Option<Circuit>, AllocError> {
    let (graph, nodes) = graph_of(alloc, parts)?;
    let latches = latches_of(alloc, parts, nodes.as_slice())?;
    let inputs = graph.input_count();
    let parts = CircuitParts {
        graph,
        latches,
        inputs,
        bad: wire_of(nodes.as_slice(), parts.bad),
        address_first: 0,
        address_bits: 0,
        addresses: Vec::new(alloc),
        control: Vec::new(alloc),
    };
    Ok(Circuit::check(parts).ok())
}

/// The circuit with latches 1 and 2 as control latches, if it has more than these.
fn with_control(alloc: Global, circuit: Circuit) -> Result<Circuit, AllocError> {
    if circuit.latches.len() <= 2 {
        return Ok(circuit);
    }
    let mut control = Vec::new(alloc);
    control.extend_from_slice(&[1, 2])?;
    Ok(Circuit {
        graph: circuit.graph,
        latches: circuit.latches,
        inputs: circuit.inputs,
        bad: circuit.bad,
        address_first: circuit.address_first,
        address_bits: circuit.address_bits,
        addresses: circuit.addresses,
        control,
    })
}

/// What a verdict should be: safe with this k, a bad or loose run of so many edges, or a budget
/// spent on this query of so many edges.
#[derive(Clone, Copy, PartialEq, Eq, Debug, Drop)]
enum Expected {
    Safe(u32),
    Bad(usize),
    Loose(usize),
    Spent(Query, u32),
}

/// What the verdict is.
fn outcome(verdict: &Verdict) -> Expected {
    match verdict {
        Verdict::Safe(safe) => Expected::Safe(safe.k),
        Verdict::Bad(bad) => Expected::Bad(bad.run.inputs.len()),
        Verdict::Loose(loose) => Expected::Loose(loose.run.inputs.len()),
        Verdict::BudgetSpent { query, k, .. } => Expected::Spent(*query, *k),
    }
}

/// A circuit, a bound, a budget, and the verdict with no set.
#[derive(Clone, Copy, Drop)]
struct Case {
    parts: Parts,
    bound: u32,
    budget: u32,
    expected: Expected,
}

const fn row(parts: Parts, bound: u32, budget: u32, expected: Expected) -> Case {
    Case {
        parts,
        bound,
        budget,
        expected,
    }
}

/// The verdict on the case with no set, if its parts fit.
fn verdict_of(alloc: Global, case: Case) -> Result<Option<Verdict>, AllocError> {
    let Some(circuit) = circuit_of(alloc, case.parts)? else {
        return Ok(None);
    };
    let Case { bound, budget, .. } = case;
    if bound == 0 || bound > 32 || budget == 0 || budget > 200_000 {
        return Ok(None);
    }
    let set = InductiveSet::empty(alloc);
    let verdict = decide(alloc, circuit, set, bound, budget)?;
    Ok(Some(verdict))
}

/// Nothing is ever bad.
static NEVER: Parts = Parts {
    latches: &[(Start::Zero, 1)],
    inputs: 0,
    gates: &[],
    bad: 0,
};

/// Latch 1 takes the input at an edge with latch 0, and is bad.
static REMEMBERS: Parts = Parts {
    latches: &[(Start::Zero, 1), (Start::Zero, 8)],
    inputs: 1,
    gates: &[(2, 6)],
    bad: 4,
};

/// Zeros are shifted through three latches, the last of which is bad.
static SHIFTS: Parts = Parts {
    latches: &[
        (Start::Zero, 1),
        (Start::Zero, 0),
        (Start::Zero, 4),
        (Start::Zero, 6),
    ],
    inputs: 0,
    gates: &[],
    bad: 8,
};

/// A latch that starts with either value, and is bad.
static EITHER: Parts = Parts {
    latches: &[(Start::Zero, 1), (Start::Free, 4)],
    inputs: 0,
    gates: &[],
    bad: 4,
};

/// A latch that starts at 1 and stays; it is bad where it is 0.
static STAYS: Parts = Parts {
    latches: &[(Start::Zero, 1), (Start::One, 4)],
    inputs: 0,
    gates: &[],
    bad: 5,
};

/// A latch that turns at each edge, and is bad where it is 1.
static TURNS: Parts = Parts {
    latches: &[(Start::Zero, 1), (Start::Zero, 5)],
    inputs: 0,
    gates: &[],
    bad: 4,
};

/// Two latches count from 0, and are bad at 3.
static COUNTS: Parts = Parts {
    latches: &[(Start::Zero, 1), (Start::Zero, 5), (Start::Zero, 13)],
    inputs: 0,
    gates: &[(4, 7), (5, 6), (9, 11), (4, 6)],
    bad: 14,
};

/// Two latches take one input where another is 1; a third input asks whether they differ, which is
/// bad.
static EQUAL: Parts = Parts {
    latches: &[(Start::Zero, 1), (Start::Zero, 19), (Start::Zero, 23)],
    inputs: 3,
    gates: &[
        (10, 8),
        (11, 4),
        (15, 17),
        (11, 6),
        (15, 21),
        (4, 7),
        (5, 6),
        (25, 27),
        (29, 12),
    ],
    bad: 30,
};

/// A latch that stays 0; an input asks whether it is 1, which is bad.
static STUCK: Parts = Parts {
    latches: &[(Start::Zero, 1), (Start::Zero, 4)],
    inputs: 1,
    gates: &[(4, 6)],
    bad: 8,
};

/// The parity of three inputs, counted from either end; it is bad where the two differ.
static PARITY: Parts = Parts {
    latches: &[(Start::Zero, 1)],
    inputs: 3,
    gates: &[
        (4, 7),
        (5, 6),
        (11, 13),
        (15, 9),
        (14, 8),
        (17, 19),
        (6, 9),
        (7, 8),
        (23, 25),
        (4, 26),
        (5, 27),
        (29, 31),
        (21, 32),
        (20, 33),
        (35, 37),
    ],
    bad: 39,
};

/// Two registers, latches 1 and 2, take one input where another is 1, else they keep their values; a
/// third input asks whether they differ, which is bad. Before latch 0 is 1 they take 0.
static REGISTERS: Parts = Parts {
    latches: &[(Start::Zero, 1), (Start::Zero, 20), (Start::Zero, 28)],
    inputs: 3,
    gates: &[
        (8, 10),
        (9, 4),
        (15, 17),
        (2, 19),
        (8, 10),
        (9, 6),
        (23, 25),
        (2, 27),
        (4, 7),
        (5, 6),
        (31, 33),
        (12, 35),
    ],
    bad: 36,
};

/// The same, but latch 2 holds the opposite of the bit, and is asked whether it is the same.
static OPPOSITES: Parts = Parts {
    latches: &[(Start::Zero, 1), (Start::Zero, 20), (Start::One, 29)],
    inputs: 3,
    gates: &[
        (8, 10),
        (9, 4),
        (15, 17),
        (2, 19),
        (8, 10),
        (9, 7),
        (23, 25),
        (2, 27),
        (4, 7),
        (5, 6),
        (31, 33),
        (12, 34),
    ],
    bad: 36,
};

/// A latch that is 0 and stays so; an input asks whether it is 1, which is bad.
static CONSTANT: Parts = Parts {
    latches: &[(Start::Zero, 1), (Start::Zero, 8)],
    inputs: 1,
    gates: &[(2, 4), (4, 6)],
    bad: 10,
};

/// Latch 1 requests until an input grants it, latch 2 then acknowledges for one edge; another input
/// holds both. The last input asks whether both are 1, which is bad.
static HANDSHAKE: Parts = Parts {
    latches: &[(Start::Zero, 1), (Start::Zero, 32), (Start::Zero, 40)],
    inputs: 4,
    gates: &[
        (4, 11),
        (5, 8),
        (17, 19),
        (21, 7),
        (4, 10),
        (12, 4),
        (13, 22),
        (27, 29),
        (2, 31),
        (12, 6),
        (13, 24),
        (35, 37),
        (2, 39),
        (4, 6),
        (14, 42),
    ],
    bad: 44,
};

/// A bit goes through latches 1 to 3, and as two bits whose parity it is through 4 to 6 and 7 to 9.
/// Latch 10 is 1, which is bad, once bit and parity have differed at the end.
static SPLIT: Parts = Parts {
    latches: &[
        (Start::Zero, 1),
        (Start::Zero, 24),
        (Start::Zero, 4),
        (Start::Zero, 6),
        (Start::Zero, 26),
        (Start::Zero, 10),
        (Start::Zero, 12),
        (Start::Zero, 33),
        (Start::Zero, 16),
        (Start::Zero, 18),
        (Start::Zero, 47),
    ],
    inputs: 2,
    gates: &[
        (24, 27),
        (25, 26),
        (29, 31),
        (14, 21),
        (15, 20),
        (35, 37),
        (8, 38),
        (9, 39),
        (41, 43),
        (23, 44),
    ],
    bad: 22,
};

#[test]
fn verdicts_without_a_set(rt: HostRuntime) -> Result<(), Fail> {
    let cases = [
        row(NEVER, 1, 100, Expected::Safe(1)),
        row(REMEMBERS, 3, 100, Expected::Bad(3)),
        row(REMEMBERS, 32, 100, Expected::Bad(3)),
        row(REMEMBERS, 2, 100, Expected::Loose(3)),
        row(SHIFTS, 5, 100, Expected::Safe(3)),
        row(SHIFTS, 2, 100, Expected::Loose(3)),
        row(EITHER, 4, 100, Expected::Bad(1)),
        row(STAYS, 1, 100, Expected::Safe(1)),
        row(TURNS, 4, 100, Expected::Bad(2)),
        row(COUNTS, 8, 100, Expected::Bad(4)),
        row(COUNTS, 3, 100, Expected::Loose(4)),
        row(EQUAL, 4, 1000, Expected::Loose(5)),
        row(STUCK, 2, 100, Expected::Loose(3)),
        row(PARITY, 1, 1000, Expected::Safe(1)),
        row(PARITY, 2, 1, Expected::Spent(Query::Base, 1)),
        row(REGISTERS, 4, 1000, Expected::Loose(5)),
        row(SPLIT, 3, 1000, Expected::Loose(4)),
        row(SPLIT, 4, 1000, Expected::Safe(4)),
    ];
    for case in cases {
        let verdict = verdict_of(rt.alloc(), case)?;
        let found = verdict.as_ref().map(outcome);
        assert_eq!(rt; found, Some(case.expected));
    }
    Ok(())
}

/// A latch by its number plus 1, negated where the number is negative.
fn is_literal(literal: LatchLiteral, signed: i32) -> bool {
    u64::from(literal.latch) + 1 == u64::from(signed.unsigned_abs())
        && literal.negated == (signed < 0)
}

/// Whether the clause has just these literals, in this order.
fn is_clause(clause: &LatchClause, expected: &[i32]) -> bool {
    let literals = clause.as_slice();
    literals.len() == expected.len()
        && literals
            .iter()
            .zip(expected)
            .all(|(literal, signed)| is_literal(*literal, *signed))
}

/// Whether the list has just these clauses, in this order.
fn is_list(list: &[LatchClause], expected: &[&[i32]]) -> bool {
    list.len() == expected.len()
        && list
            .iter()
            .zip(expected)
            .all(|(clause, literals)| is_clause(clause, literals))
}

/// A circuit, its candidates, those of them that are kept, a bound, and the verdict with them.
#[derive(Clone, Copy, Drop)]
struct Mined {
    parts: Parts,
    candidates: &'static [&'static [i32]],
    kept: &'static [&'static [i32]],
    bound: u32,
    expected: Expected,
}

/// The verdict on the case, if its parts fit, its candidates are these, and so are those that are kept.
fn mined_verdict(alloc: Global, case: Mined) -> Result<Option<Verdict>, AllocError> {
    let Some(plain) = circuit_of(alloc, case.parts)? else {
        return Ok(None);
    };
    let circuit = with_control(alloc, plain)?;
    let bound = case.bound;
    if bound == 0 || bound > 32 {
        return Ok(None);
    }
    let list = candidates(alloc, &circuit, 1)?;
    if !is_list(list.as_slice(), case.candidates) {
        return Ok(None);
    }
    let Thinned::Kept(set) = thin(alloc, &circuit, list, 1000)? else {
        return Ok(None);
    };
    if !is_list(set.clauses.as_slice(), case.kept) {
        return Ok(None);
    }
    let verdict = decide(alloc, circuit, set, bound, 1000)?;
    Ok(Some(verdict))
}

const fn mining(
    parts: Parts,
    candidates: &'static [&'static [i32]],
    kept: &'static [&'static [i32]],
    bound: u32,
    expected: Expected,
) -> Mined {
    Mined {
        parts,
        candidates,
        kept,
        bound,
        expected,
    }
}

/// From candidates over the set that is kept to the verdict. The candidate of the last circuit isn't
/// kept, since no clause of two literals says that bit and parity agree on the way.
#[test]
fn verdicts_with_the_mined_set(rt: HostRuntime) -> Result<(), Fail> {
    const EQUAL_CLAUSES: &[&[i32]] = &[&[2, -3], &[-2, 3]];
    const OPPOSITE_CLAUSES: &[&[i32]] = &[&[2, 3], &[-2, -3]];
    const EXCLUSION: &[&[i32]] = &[&[-2, -3]];
    const ZERO: &[&[i32]] = &[&[-2]];
    const NO_ALARM: &[&[i32]] = &[&[-11]];
    let cases = [
        mining(
            REGISTERS,
            EQUAL_CLAUSES,
            EQUAL_CLAUSES,
            4,
            Expected::Safe(1),
        ),
        mining(
            OPPOSITES,
            OPPOSITE_CLAUSES,
            OPPOSITE_CLAUSES,
            4,
            Expected::Safe(1),
        ),
        mining(CONSTANT, ZERO, ZERO, 1, Expected::Safe(1)),
        mining(HANDSHAKE, EXCLUSION, EXCLUSION, 2, Expected::Safe(1)),
        mining(SPLIT, NO_ALARM, &[], 3, Expected::Loose(4)),
        mining(SPLIT, NO_ALARM, &[], 4, Expected::Safe(4)),
    ];
    for case in cases {
        let verdict = mined_verdict(rt.alloc(), case)?;
        let found = verdict.as_ref().map(outcome);
        assert_eq!(rt; found, Some(case.expected));
    }
    Ok(())
}
