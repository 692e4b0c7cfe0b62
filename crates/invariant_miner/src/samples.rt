//! Sample states of a circuit, 64 runs at once: one word per latch before each edge.

ghost use Rattle.std.specs.Prelude.{◌≡◌, ◌≢◌, ℕ, ◌+◌, ◌-◌, ◌*◌, ◌/◌, ◌%◌, ◌<◌, ◌≤◌, ◌++◌, Bool, List, map, length, slice_index, Some, slice_get, OnOk, IfOk};
ghost use Rattle.gate_graph.specs.declared.parts.Latch.{Latch};
ghost use Rattle.gate_graph.specs.Gates.{wire_value, IsOf, latch_count, input_count};
ghost use Rattle.gate_graph.specs.Values.{IsValuation};
ghost use Rattle.gate_graph.specs.Runs.{next_state};
ghost use Rattle.invariant_miner.specs.Draws.{seeded, later, word_at};
ghost use Rattle.invariant_miner.specs.Lanes.{bit, lane, lane_at};
ghost use Rattle.invariant_miner.specs.Samples.{start_in, after_start, starts_in, after_starts, taken_address, input_with, inputs_in, edge_draws, run_state, batch_draws, edge_count, HasBatch, AreRows};

use crate::draws::{draw, draw_all, seeded};
use crate::lanes::{evaluate, wire_word, with_bit};
use gate_graph::{Circuit, Latch, Start};
use rand_xoshiro::Xoshiro256PlusPlus;
use std::alloc::{AllocError, Global};
use std::vec::Vec;

/// The starts of a latch.
fn start_word(start: Start, rng: &mut Xoshiro256PlusPlus) -> u64
    ensures word { (r : ℕ) → r < 64 → bit r result ≡ start_in start rng.old r }
    ensures state { rng.new ≡ after_start start rng.old }
{
    match start {
        Start::Zero => 0,
        Start::One => u64::MAX,
        Start::Free => draw(rng),
    }
}

/// The starts of all latches.
fn start_row(
    alloc: Global,
    latches: &[Latch],
    rng: &mut Xoshiro256PlusPlus,
) -> Result<Vec<u64>, AllocError>
    ensures lanes { IfOk result (λ row. (r : ℕ) → r < 64 → lane r row.items ≡ starts_in latches.now rng.old r) }
    ensures state { OnOk result (rng.new ≡ after_starts latches.now rng.old) }
    ensures length { IfOk result (λ row. length row.items ≡ length latches.now) }
{
    let mut row = Vec::new(alloc);
    for latch in latches {
        row.push(start_word(latch.start, rng))?;
    }
    Ok(row)
}

/// The address that a run takes, by its word, if it takes one.
#[tactic(auto, unfolding(crate::specs::Samples::taken_address))]
fn taken_address(addresses: &[u32], word: u64) -> Option<u32>
    ensures { result ≡ taken_address addresses.now word }
{
    if word % 4 == 0 {
        return None;
    }
    if addresses.is_empty() {
        return None;
    }
    let place = word / 4 % addresses.len() as u64;
    Some(addresses[place as usize])
}

/// Writes the bits of the address that run `r` takes, if it takes one, into its inputs.
fn put_address(inputs: &mut [u64], first: u32, bits: u32, taken: Option<u32>, r: u32)
    requires run { r < 64 }
    requires bits { bits ≤ 32 }
    requires within { first + bits ≤ length inputs.old }
    ensures own { (i : ℕ) → bit r (slice_index inputs.new i) ≡ input_with first bits taken i (bit r (slice_index inputs.old i)) }
    ensures others { (i k : ℕ) → k < 64 → k ≢ r → bit k (slice_index inputs.new i) ≡ bit k (slice_index inputs.old i) }
{
    let Some(address) = taken else {
        return;
    };
    for j in 0..bits {
        let i = first as usize + j as usize;
        let value = address >> j & 1 == 1;
        inputs[i] = with_bit(inputs[i], r, value);
    }
}

/// The inputs of an edge.
fn draw_inputs(
    circuit: &Circuit,
    rng: &mut Xoshiro256PlusPlus,
    inputs: &mut [u64],
    runs: &mut [u64],
)
    requires inputs { length inputs.old ≡ circuit.now.inputs }
    requires runs { length runs.old ≡ 64 }
    ensures lanes { (r : ℕ) → r < 64 → lane r inputs.new ≡ inputs_in circuit.now rng.old r }
    ensures state { rng.new ≡ later (circuit.now.inputs + 64) rng.old }
{
    draw_all(rng, inputs);
    draw_all(rng, runs);
    let first = circuit.address_first;
    let bits = circuit.address_bits;
    for r in 0..64 {
        let word = runs[r as usize];
        let taken = taken_address(circuit.addresses.as_slice(), word);
        put_address(inputs, first, bits, taken, r);
    }
}

/// The latches after an edge whose nodes have the values of the table.
fn next_row(alloc: Global, latches: &[Latch], table: &[u64]) -> Result<Vec<u64>, AllocError>
    requires of { (i : ℕ) (l : Latch) → slice_get latches.now i ≡ Some l → l.next.0 < 2 * length table.now }
    ensures lanes { IfOk result (λ row. (r : ℕ) → r < 64 → lane r row.items ≡ map (λ l. wire_value (lane_at r table.now) l.next) latches.now) }
    ensures length { IfOk result (λ row. length row.items ≡ length latches.now) }
{
    let mut row = Vec::new(alloc);
    for latch in latches {
        row.push(wire_word(latch.next, table))?;
    }
    Ok(row)
}

/// One edge of 64 runs: the latches after it.
pub(crate) fn step(
    alloc: Global,
    circuit: &Circuit,
    rng: &mut Xoshiro256PlusPlus,
    row: &[u64],
    inputs: &mut [u64],
    runs: &mut [u64],
    table: &mut [u64],
) -> Result<Vec<u64>, AllocError>
    requires row { length row.now ≡ length circuit.now.latches.items }
    requires inputs { length inputs.old ≡ circuit.now.inputs }
    requires runs { length runs.old ≡ 64 }
    requires table { length table.old ≡ length circuit.now.graph }
    ensures lanes { IfOk result (λ next. (r : ℕ) → r < 64 → lane r next.items ≡ next_state circuit.now (lane r row.now) (inputs_in circuit.now rng.old r)) }
    ensures state { rng.new ≡ later (circuit.now.inputs + 64) rng.old }
    ensures length { IfOk result (λ next. length next.items ≡ length circuit.now.latches.items) }
{
    draw_inputs(circuit, rng, inputs, runs);
    evaluate(&circuit.graph, row, inputs, table);
    next_row(alloc, circuit.latches.as_slice(), table)
}

/// One batch: 64 edges of 64 runs. It adds the latches before each edge.
fn sample_batch(
    alloc: Global,
    circuit: &Circuit,
    rng: &mut Xoshiro256PlusPlus,
    inputs: &mut [u64],
    runs: &mut [u64],
    table: &mut [u64],
    rows: &mut Vec<Vec<u64>>,
) -> Result<(), AllocError>
    requires inputs { length inputs.old ≡ circuit.now.inputs }
    requires runs { length runs.old ≡ 64 }
    requires table { length table.old ≡ length circuit.now.graph }
    ensures rows { OnOk result (HasBatch circuit.now rng.old (map (λ v. v.items) rows.old.items) (map (λ v. v.items) rows.new.items) 64) }
    ensures state { OnOk result (rng.new ≡ edge_draws circuit.now rng.old 64) }
{
    let mut row = start_row(alloc, circuit.latches.as_slice(), rng)?;
    for _edge in 0..64u32 {
        let next = step(alloc, circuit, rng, row.as_slice(), inputs, runs, table)?;
        rows.push(row)?;
        row = next;
    }
    Ok(())
}

/// So many batches, one after the other.
fn sample_batches(
    alloc: Global,
    circuit: &Circuit,
    rng: &mut Xoshiro256PlusPlus,
    inputs: &mut [u64],
    runs: &mut [u64],
    table: &mut [u64],
    batches: usize,
) -> Result<Vec<Vec<u64>>, AllocError>
    requires inputs { length inputs.old ≡ circuit.now.inputs }
    requires runs { length runs.old ≡ 64 }
    requires table { length table.old ≡ length circuit.now.graph }
    ensures rows { IfOk result (λ rows. AreRows circuit.now rng.old (map (λ v. v.items) rows.items)) }
    ensures count { IfOk result (λ rows. length rows.items ≡ 64 * batches) }
{
    let mut rows = Vec::new(alloc);
    for _batch in 0..batches {
        sample_batch(alloc, circuit, rng, inputs, runs, table, &mut rows)?;
    }
    Ok(rows)
}

/// The latches before each edge of all batches.
#[tactic(auto, unfolding(crate::specs::Samples::edge_count))]
pub(crate) fn sample_rows(
    alloc: Global,
    circuit: &Circuit,
    seed: u64,
) -> Result<Vec<Vec<u64>>, AllocError>
    ensures rows { IfOk result (λ rows. AreRows circuit.now (seeded seed) (map (λ v. v.items) rows.items)) }
    ensures count { IfOk result (λ rows. length rows.items ≡ edge_count circuit.now) }
{
    let mut inputs = vec![in alloc; 0; circuit.inputs as usize]?;
    let mut runs = vec![in alloc; 0; 64]?;
    let mut table = vec![in alloc; 0; circuit.graph.size() as usize]?;
    let mut rng = seeded(seed);
    let batches = 1 + circuit.addresses.len() / 32;
    let rows = sample_batches(
        alloc,
        circuit,
        &mut rng,
        inputs.as_mut_slice(),
        runs.as_mut_slice(),
        table.as_mut_slice(),
        batches,
    )?;
    Ok(rows)
}
