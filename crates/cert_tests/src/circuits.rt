//! Circuits, and the proofs that they are safe.

ghost use Rattle.std.specs.Prelude.{◌≡◌, ◌+◌, ◌*◌, ◌^◌, ◌<◌, ◌≤◌, [], ◌∷◌, length, slice_get, All, IfOk, IfSome, IsTrue};

use gate_graph::{Circuit, CircuitParts, Graph, Latch, Start, Wire};
use invariant_miner::candidates::candidates;
use invariant_miner::thin::thin;
use invariant_miner::{InductiveSet, Thinned};
use k_induction::decide::decide;
use k_induction::verdict::{SafeCircuit, Verdict};
use std::alloc::{AllocError, Global};
use std::vec::Vec;

/// A circuit: start and next wire of each latch, how many inputs, the wires of each gate, and the
/// bad wire. Node 0 is constant, then come the latches, the inputs and the gates. Wires are twice a
/// node's number, plus 1 where they are inverted.
#[derive(Clone, Copy, Drop)]
pub(crate) struct Parts {
    latches: &'static [(Start, u32)],
    inputs: u32,
    gates: &'static [(u32, u32)],
    bad: u32,
}

/// The wire of this number, where these are the wires of the nodes; gates that are alike are one node.
fn wire_of(nodes: &[Wire], number: u32) -> Wire {
    match nodes.get((number / 2) as usize) {
        Some(wire) if number % 2 == 1 => wire.inverted(),
        Some(wire) => *wire,
        None => Wire(u32::MAX),
    }
}

/// The graph of the parts, as far as their wires are of it, and the wires of its nodes.
fn graph_of(alloc: Global, parts: Parts) -> Result<(Graph, Vec<Wire>), AllocError> {
    let mut graph = Graph::new(alloc)?;
    let mut nodes = Vec::new(alloc);
    nodes.push(graph.zero())?;
    for _ in 0..parts.latches.len() {
        if graph.size() < 1000 {
            nodes.push(graph.latch()?)?;
        }
    }
    for _ in 0..parts.inputs {
        if graph.size() < 1000 {
            nodes.push(graph.input()?)?;
        }
    }
    for (a, b) in parts.gates {
        let size = graph.size();
        let left = wire_of(nodes.as_slice(), *a);
        let right = wire_of(nodes.as_slice(), *b);
        if size < 1000 && left.0 < 2 * size && right.0 < 2 * size {
            nodes.push(graph.and(left, right)?)?;
        }
    }
    Ok((graph, nodes))
}

/// The latches of the parts.
fn latches_of(alloc: Global, parts: Parts, nodes: &[Wire]) -> Result<Vec<Latch>, AllocError> {
    let mut latches = Vec::new(alloc);
    for (start, next) in parts.latches {
        latches.push(Latch {
            start: *start,
            next: wire_of(nodes, *next),
        })?;
    }
    Ok(latches)
}

/// The circuit of the parts, if they fit.
pub(crate) fn circuit_of(alloc: Global, parts: Parts) -> Result<Option<Circuit>, AllocError> {
    let (graph, nodes) = graph_of(alloc, parts)?;
    let latches = latches_of(alloc, parts, nodes.as_slice())?;
    let inputs = graph.input_count();
    let parts = CircuitParts {
        graph,
        latches,
        inputs,
        bad: wire_of(nodes.as_slice(), parts.bad),
        address_first: 0,
        address_bits: 0,
        addresses: Vec::new(alloc),
        control: Vec::new(alloc),
    };
    Ok(Circuit::check(parts).ok())
}

/// The circuit with latches 1 and 2 as control latches, if it has more than these.
pub(crate) fn with_control(alloc: Global, circuit: Circuit) -> Result<Circuit, AllocError> {
    if circuit.latches.len() <= 2 {
        return Ok(circuit);
    }
    let mut control = Vec::new(alloc);
    control.extend_from_slice(&[1, 2])?;
    Ok(Circuit {
        graph: circuit.graph,
        latches: circuit.latches,
        inputs: circuit.inputs,
        bad: circuit.bad,
        address_first: circuit.address_first,
        address_bits: circuit.address_bits,
        addresses: circuit.addresses,
        control,
    })
}

/// A circuit that is safe by induction over at most `bound` edges, from its mined set or from none.
#[derive(Clone, Copy, Drop)]
pub(crate) struct Safe {
    pub parts: Parts,
    pub mined: bool,
    pub bound: u32,
}

/// The proof that a verdict is, if it is one.
fn safe_of(verdict: Verdict) -> Option<SafeCircuit> {
    match verdict {
        Verdict::Safe(safe) => Some(safe),
        _ => None,
    }
}

/// The proof that the circuit is safe, if there is one.
pub(crate) fn proof_of(alloc: Global, case: Safe) -> Result<Option<SafeCircuit>, AllocError> {
    let Some(plain) = circuit_of(alloc, case.parts)? else {
        return Ok(None);
    };
    let circuit = with_control(alloc, plain)?;
    let bound = case.bound;
    if bound == 0 || bound > 32 {
        return Ok(None);
    }
    if !case.mined {
        let set = InductiveSet::empty(alloc);
        return Ok(safe_of(decide(alloc, circuit, set, bound, 1000)?));
    }
    let list = candidates(alloc, &circuit, 1)?;
    let Thinned::Kept(set) = thin(alloc, &circuit, list, 1000)? else {
        return Ok(None);
    };
    Ok(safe_of(decide(alloc, circuit, set, bound, 1000)?))
}

/// Zeros are shifted through three latches, the last of which is bad.
pub(crate) static SHIFTS: Parts = Parts {
    latches: &[
        (Start::Zero, 1),
        (Start::Zero, 0),
        (Start::Zero, 4),
        (Start::Zero, 6),
    ],
    inputs: 0,
    gates: &[],
    bad: 8,
};

/// A latch that starts at 1 and stays; it is bad where it is 0.
pub(crate) static STAYS: Parts = Parts {
    latches: &[(Start::Zero, 1), (Start::One, 4)],
    inputs: 0,
    gates: &[],
    bad: 5,
};

/// The parity of three inputs, counted from either end; it is bad where the two differ.
pub(crate) static PARITY: Parts = Parts {
    latches: &[(Start::Zero, 1)],
    inputs: 3,
    gates: &[
        (4, 7),
        (5, 6),
        (11, 13),
        (15, 9),
        (14, 8),
        (17, 19),
        (6, 9),
        (7, 8),
        (23, 25),
        (4, 26),
        (5, 27),
        (29, 31),
        (21, 32),
        (20, 33),
        (35, 37),
    ],
    bad: 39,
};

/// Two registers, latches 1 and 2, take one input where another is 1, else they keep their values; a
/// third input asks whether they differ, which is bad. Before latch 0 is 1 they take 0.
pub(crate) static REGISTERS: Parts = Parts {
    latches: &[(Start::Zero, 1), (Start::Zero, 20), (Start::Zero, 28)],
    inputs: 3,
    gates: &[
        (8, 10),
        (9, 4),
        (15, 17),
        (2, 19),
        (8, 10),
        (9, 6),
        (23, 25),
        (2, 27),
        (4, 7),
        (5, 6),
        (31, 33),
        (12, 35),
    ],
    bad: 36,
};

/// The same, but latch 2 holds the opposite of the bit, and is asked whether it is the same.
pub(crate) static OPPOSITES: Parts = Parts {
    latches: &[(Start::Zero, 1), (Start::Zero, 20), (Start::One, 29)],
    inputs: 3,
    gates: &[
        (8, 10),
        (9, 4),
        (15, 17),
        (2, 19),
        (8, 10),
        (9, 7),
        (23, 25),
        (2, 27),
        (4, 7),
        (5, 6),
        (31, 33),
        (12, 34),
    ],
    bad: 36,
};

/// A latch that is 0 and stays so; an input asks whether it is 1, which is bad.
pub(crate) static CONSTANT: Parts = Parts {
    latches: &[(Start::Zero, 1), (Start::Zero, 8)],
    inputs: 1,
    gates: &[(2, 4), (4, 6)],
    bad: 10,
};

/// Latch 1 requests until an input grants it, latch 2 then acknowledges for one edge; another input
/// holds both. The last input asks whether both are 1, which is bad.
pub(crate) static HANDSHAKE: Parts = Parts {
    latches: &[(Start::Zero, 1), (Start::Zero, 32), (Start::Zero, 40)],
    inputs: 4,
    gates: &[
        (4, 11),
        (5, 8),
        (17, 19),
        (21, 7),
        (4, 10),
        (12, 4),
        (13, 22),
        (27, 29),
        (2, 31),
        (12, 6),
        (13, 24),
        (35, 37),
        (2, 39),
        (4, 6),
        (14, 42),
    ],
    bad: 44,
};

/// A bit goes through latches 1 to 3, and as two bits whose parity it is through 4 to 6 and 7 to 9.
/// Latch 10 is 1, which is bad, once bit and parity have differed at the end.
pub(crate) static SPLIT: Parts = Parts {
    latches: &[
        (Start::Zero, 1),
        (Start::Zero, 24),
        (Start::Zero, 4),
        (Start::Zero, 6),
        (Start::Zero, 26),
        (Start::Zero, 10),
        (Start::Zero, 12),
        (Start::Zero, 33),
        (Start::Zero, 16),
        (Start::Zero, 18),
        (Start::Zero, 47),
    ],
    inputs: 2,
    gates: &[
        (24, 27),
        (25, 26),
        (29, 31),
        (14, 21),
        (15, 20),
        (35, 37),
        (8, 38),
        (9, 39),
        (41, 43),
        (23, 44),
    ],
    bad: 22,
};
