//! Reads circuits as numbers from standard input, mines and decides each, and prints its verdict and how
//! many clauses were listed and kept. With an argument it adds the milliseconds of each part.
//!
//! A circuit is a line of its nodes, latches, inputs, bad wire, first address input and address bits; a
//! line of how many addresses there are, and these; one of how many control latches, and these; a line
//! for each latch, its start (0, 1, or 2 where it is free) and its next wire; and a line for each node
//! from node 1 on: `0` the next latch, `1` the next input, `2 A B` a gate of two wires. A wire is twice
//! its node, plus 1 where it is inverted. An empty line ends a circuit.
#![tactic(auto)]

use gate_graph::{Circuit, CircuitParts, Graph, Latch, Start, Wire};
use invariant_miner::Thinned;
use invariant_miner::candidates::candidates;
use invariant_miner::thin::thin;
use k_induction::Verdict;
use k_induction::decide::decide;
use std::alloc::{AllocError, Global};
use std::env;
use std::time::Instant;
use std::vec::Vec;

const BUDGET: u32 = 20_000;

const BOUND: u32 = 16;

const SEED: u64 = 1;

/// The numbers of a line.
fn numbers_of(alloc: Global, line: &str) -> Result<Vec<u32>, AllocError> {
    let mut numbers = Vec::new(alloc);
    for word in line.split_whitespace() {
        numbers.push(word.parse::<u32>().unwrap_or(0))?;
    }
    Ok(numbers)
}

/// The number at a place, 0 past the end.
fn number_at(numbers: &[u32], place: usize) -> u32 {
    numbers.get(place).copied().unwrap_or(0)
}

/// The wire of the graph that stands for a wire of the text.
fn wire_of(wires: &[Wire], number: u32) -> Wire {
    let wire = wires.get((number / 2) as usize).copied().unwrap_or(Wire(0));
    if number % 2 == 1 {
        Wire(wire.0 ^ 1)
    } else {
        wire
    }
}

/// A gate of these two wires, the constant where they are not of the graph.
fn gate(graph: &mut Graph, a: Wire, b: Wire) -> Result<Wire, AllocError> {
    let size = graph.size();
    if size < 1_000_000 && a.0 < 2 * size && b.0 < 2 * size {
        return graph.and(a, b);
    }
    Ok(Wire(0))
}

/// Adds the node of a line.
fn add_node(graph: &mut Graph, wires: &mut Vec<Wire>, numbers: &[u32]) -> Result<(), AllocError> {
    let wire = match number_at(numbers, 0) {
        0 if graph.size() < 1_000_000 => graph.latch()?,
        1 if graph.size() < 1_000_000 => graph.input()?,
        _ => {
            let a = wire_of(wires.as_slice(), number_at(numbers, 1));
            let b = wire_of(wires.as_slice(), number_at(numbers, 2));
            gate(graph, a, b)?
        }
    };
    wires.push(wire)?;
    Ok(())
}

/// The start and next wire of each latch, by the text's numbers.
fn latches_of(
    alloc: Global,
    pairs: &[(u32, u32)],
    wires: &[Wire],
) -> Result<Vec<Latch>, AllocError> {
    let mut latches = Vec::new(alloc);
    for (start, next) in pairs {
        let start = match *start {
            0 => Start::Zero,
            1 => Start::One,
            _ => Start::Free,
        };
        latches.push(Latch {
            start,
            next: wire_of(wires, *next),
        })?;
    }
    Ok(latches)
}

/// What the verdict is.
fn name_of(verdict: &Verdict) -> &'static str {
    match verdict {
        Verdict::Safe(_) => "safe",
        Verdict::Bad(_) => "bad",
        Verdict::Loose(_) => "loose",
        Verdict::BudgetSpent { .. } => "spent",
    }
}

/// Its number of edges.
fn edges_of(verdict: &Verdict) -> u32 {
    match verdict {
        Verdict::Safe(safe) => safe.k,
        Verdict::Bad(bad) => u32::try_from(bad.run.inputs.len()).unwrap_or(0),
        Verdict::Loose(loose) => u32::try_from(loose.run.inputs.len()).unwrap_or(0),
        Verdict::BudgetSpent { k, .. } => *k,
    }
}

/// What is read of a circuit so far.
#[derive(Drop)]
struct Sketch {
    heads: Vec<Vec<u32>>,
    pairs: Vec<(u32, u32)>,
    graph: Graph,
    wires: Vec<Wire>,
}

impl Sketch {
    /// Nothing is read yet.
    fn new(alloc: Global) -> Result<Sketch, AllocError> {
        let mut wires = Vec::new(alloc);
        wires.push(Wire(0))?;
        Ok(Sketch {
            heads: Vec::new(alloc),
            pairs: Vec::new(alloc),
            graph: Graph::new(alloc)?,
            wires,
        })
    }

    /// A number of one of the first three lines, 0 where it isn't there.
    fn number(&self, line: usize, place: usize) -> u32 {
        match self.heads.get(line) {
            Some(numbers) => number_at(numbers.as_slice(), place),
            None => 0,
        }
    }

    /// Reads a line more.
    fn read(&mut self, numbers: Vec<u32>) -> Result<(), AllocError> {
        if self.heads.len() < 3 {
            self.heads.push(numbers)?;
        } else if self.pairs.len() < self.number(0, 1) as usize {
            let pair = (
                number_at(numbers.as_slice(), 0),
                number_at(numbers.as_slice(), 1),
            );
            self.pairs.push(pair)?;
        } else {
            add_node(&mut self.graph, &mut self.wires, numbers.as_slice())?;
        }
        Ok(())
    }

    /// The numbers of one of the first three lines behind the first.
    fn listed(&self, alloc: Global, line: usize) -> Result<Vec<u32>, AllocError> {
        let mut listed = Vec::new(alloc);
        if let Some(numbers) = self.heads.get(line) {
            for number in numbers.iter().skip(1) {
                listed.push(*number)?;
            }
        }
        Ok(listed)
    }

    /// The circuit, if it is one.
    fn circuit(self, alloc: Global) -> Result<Option<Circuit>, AllocError> {
        let wires = self.wires.as_slice();
        let parts = CircuitParts {
            latches: latches_of(alloc, self.pairs.as_slice(), wires)?,
            inputs: self.number(0, 2),
            bad: wire_of(wires, self.number(0, 3)),
            address_first: self.number(0, 4),
            address_bits: self.number(0, 5),
            addresses: self.listed(alloc, 1)?,
            control: self.listed(alloc, 2)?,
            graph: self.graph,
        };
        Ok(Circuit::check(parts).ok())
    }
}

/// Mines and decides the circuit, and prints what it finds.
fn mine_and_decide(rt: HostRuntime, circuit: Circuit, timed: bool) -> anyhow::Result<()> {
    let alloc = rt.alloc();
    let begin = Instant::now(&rt)?;
    let list = candidates(alloc, &circuit, SEED)?;
    let listing = begin.elapsed(&rt)?.as_millis();
    let listed = list.len();
    let Thinned::Kept(set) = thin(alloc, &circuit, list, BUDGET)? else {
        println!(rt; "mining_spent listed={listed}")?;
        return Ok(());
    };
    let thinning = begin.elapsed(&rt)?.as_millis();
    let kept = set.clauses.len();
    let verdict = decide(alloc, circuit, set, BOUND, BUDGET)?;
    let deciding = begin.elapsed(&rt)?.as_millis();
    let name = name_of(&verdict);
    let k = edges_of(&verdict);
    print!(rt; "{name} k={k} listed={listed} kept={kept}")?;
    if timed {
        print!(rt; " listed_after={listing} kept_after={thinning} decided_after={deciding}")?;
    }
    println!(rt; "")?;
    Ok(())
}

/// Decides the circuit that was read.
fn finish(rt: HostRuntime, sketch: Sketch, timed: bool) -> anyhow::Result<()> {
    let alloc = rt.alloc();
    match sketch.circuit(alloc)? {
        Some(circuit) => mine_and_decide(rt, circuit, timed),
        None => {
            println!(rt; "no circuit")?;
            Ok(())
        }
    }
}

fn main(rt: HostRuntime) -> anyhow::Result<()> {
    let alloc = rt.alloc();
    let timed = env::args(&rt)?.count() > 1;
    let mut sketch = Sketch::new(alloc)?;
    for line in rt.lines(alloc) {
        let line = line?;
        let numbers = numbers_of(alloc, line.as_str())?;
        if numbers.is_empty() {
            finish(rt, sketch, timed)?;
            sketch = Sketch::new(alloc)?;
        } else {
            sketch.read(numbers)?;
        }
    }
    Ok(())
}
