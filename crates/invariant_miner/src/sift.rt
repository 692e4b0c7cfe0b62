//! Dropping clauses of a list by simulation: edges of 64 runs at once, from states that meet the list.

ghost use Rattle.std.specs.Prelude.{◌≡◌, ℕ, ◌<◌, ◌^◌, true, length, OnOk, IfOk};
ghost use Rattle.std.specs.List.{filter};
ghost use Rattle.gate_graph.specs.Runs.{next_state};
ghost use Rattle.unroll_cnf.specs.Latches.{meets, MeetsAll};
ghost use Rattle.invariant_miner.specs.Lanes.{bit, lane};
ghost use Rattle.invariant_miner.specs.Sifted.{meets_in};
ghost use Rattle.invariant_miner.specs.Kept.{IsAbove};

use crate::draws::{draw, seeded};
use crate::rows::{literal_word, word_of};
use crate::samples::step;
use gate_graph::Circuit;
use rand_xoshiro::Xoshiro256PlusPlus;
use std::alloc::{AllocError, Global};
use std::vec::Vec;
use unroll_cnf::LatchClause;

/// The most edges that a call looks at.
const MOST_EDGES: u32 = 512;

/// After so many edges in a row that drop no clause, a call ends.
const QUIET_EDGES: u32 = 48;

/// The runs that go on from the state after an edge; the others stay near the state before it.
const MOVING: u64 = 0xffff_ffff_ffff_0000;

/// The runs whose state meets the clause.
fn clause_word(row: &[u64], clause: &LatchClause) -> u64
    ensures bits { (r : ℕ) → r < 64 → bit r result ≡ meets (lane r row.now) clause.now }
    ensures small { result < 2 ^ 64 }
{
    let mut word = !word_of(row, 0);
    let literals = clause.as_slice();
    for literal in literals {
        word |= literal_word(row, *literal);
    }
    word
}

/// Runs whose state meets each clause.
fn meeting(row: &[u64], clauses: &[LatchClause]) -> u64
    ensures { (r : ℕ) → r < 64 → bit r result ≡ true → MeetsAll (lane r row.now) clauses.now }
{
    let mut word = u64::MAX;
    for clause in clauses {
        word &= clause_word(row, clause);
    }
    word
}

/// Whether each of the runs is in a state that meets the clause.
fn is_met_in(runs: u64, row: &[u64], clause: &LatchClause) -> bool
    ensures { result ≡ meets_in runs row.now clause.now }
{
    runs & !clause_word(row, clause) == 0
}

/// Drops the clauses that one of the runs doesn't meet.
fn keep_met_in(clauses: &mut Vec<LatchClause>, runs: u64, row: &[u64])
    ensures { clauses.new.items ≡ filter (meets_in runs row.now) clauses.old.items }
{
    clauses.retain(|clause| is_met_in(runs, row, clause));
}

/// One edge of the runs under drawn inputs: drops what it breaks, and gives the states after it.
fn sift_edge(
    alloc: Global,
    circuit: &Circuit,
    rng: &mut Xoshiro256PlusPlus,
    clauses: &mut Vec<LatchClause>,
    row: &[u64],
    inputs: &mut [u64],
    runs: &mut [u64],
    table: &mut [u64],
) -> Result<Vec<u64>, AllocError>
    requires row { length row.now ≡ length circuit.now.latches.items }
    requires inputs { length inputs.old ≡ circuit.now.inputs }
    requires runs { length runs.old ≡ 64 }
    requires table { length table.old ≡ length circuit.now.graph }
    ensures above { OnOk result (IsAbove circuit.now clauses.old.items clauses.new.items) }
    ensures length { IfOk result (λ next. length next.items ≡ length circuit.now.latches.items) }
{
    let good = meeting(row, clauses.as_slice());
    let next = step(alloc, circuit, rng, row, inputs, runs, table)?;
    keep_met_in(clauses, good, next.as_slice());
    Ok(next)
}

/// Takes these runs from the other row.
fn take_runs(row: &mut [u64], other: &[u64], runs: u64) {
    for i in 0..row.len() {
        if let Some(word) = other.get(i) {
            row[i] = row[i] & !runs | *word & runs;
        }
    }
}

/// Changes one latch in each run.
fn nudge(rng: &mut Xoshiro256PlusPlus, row: &mut [u64]) {
    let count = row.len() as u64;
    if count == 0 {
        return;
    }
    for run in 0..64u32 {
        let place = draw(rng) % count;
        row[place as usize] ^= 1 << run;
    }
}

/// Moves runs to states beside their own that meet the list.
fn stray(
    rng: &mut Xoshiro256PlusPlus,
    clauses: &[LatchClause],
    row: &mut [u64],
    beside: &mut [u64],
) {
    take_runs(beside, row, u64::MAX);
    nudge(rng, beside);
    let good = meeting(beside, clauses);
    take_runs(row, beside, good);
}

/// All runs in this state.
fn spread(alloc: Global, state: &[bool]) -> Result<Vec<u64>, AllocError>
    ensures { IfOk result (λ row. length row.items ≡ length state.now) }
{
    let mut row = Vec::new(alloc);
    for value in state {
        row.push(if *value { u64::MAX } else { 0 })?;
    }
    Ok(row)
}

/// How many edges in a row dropped no clause, after one more that left `now` of `before` clauses.
fn quiet_edges(quiet: u32, before: usize, now: usize) -> u32 {
    if now == before {
        quiet.saturating_add(1)
    } else {
        0
    }
}

/// Edges of the runs in the row, one after the other, until many of them drop nothing.
fn sift_edges(
    alloc: Global,
    circuit: &Circuit,
    clauses: &mut Vec<LatchClause>,
    row: &mut [u64],
    beside: &mut [u64],
    inputs: &mut [u64],
    runs: &mut [u64],
    table: &mut [u64],
) -> Result<(), AllocError>
    requires row { length row.old ≡ length circuit.now.latches.items }
    requires inputs { length inputs.old ≡ circuit.now.inputs }
    requires runs { length runs.old ≡ 64 }
    requires table { length table.old ≡ length circuit.now.graph }
    ensures { OnOk result (IsAbove circuit.now clauses.old.items clauses.new.items) }
{
    let mut rng = seeded(clauses.len() as u64);
    let mut quiet = 0;
    for _edge in 0..MOST_EDGES {
        if quiet == QUIET_EDGES {
            return Ok(());
        }
        let before = clauses.len();
        stray(&mut rng, clauses.as_slice(), row, beside);
        let next = sift_edge(alloc, circuit, &mut rng, clauses, row, inputs, runs, table)?;
        take_runs(row, next.as_slice(), MOVING);
        quiet = quiet_edges(quiet, before, clauses.len());
    }
    Ok(())
}

/// Drops clauses that edges break, of 64 runs that begin in this state. What an edge breaks is dropped
/// only where the state before it meets the whole list.
pub(crate) fn sift(
    alloc: Global,
    circuit: &Circuit,
    clauses: &mut Vec<LatchClause>,
    state: &[bool],
) -> Result<(), AllocError>
    requires state { length state.now ≡ length circuit.now.latches.items }
    ensures { OnOk result (IsAbove circuit.now clauses.old.items clauses.new.items) }
{
    let mut row = spread(alloc, state)?;
    let mut beside = spread(alloc, state)?;
    let mut inputs = vec![in alloc; 0; circuit.inputs as usize]?;
    let mut runs = vec![in alloc; 0; 64]?;
    let mut table = vec![in alloc; 0; circuit.graph.size() as usize]?;
    sift_edges(
        alloc,
        circuit,
        clauses,
        row.as_mut_slice(),
        beside.as_mut_slice(),
        inputs.as_mut_slice(),
        runs.as_mut_slice(),
        table.as_mut_slice(),
    )
}
