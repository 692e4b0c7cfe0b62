//! What the rows of sample states have in common.

ghost use Rattle.std.specs.Prelude.{◌≡◌, ℕ, ◌-◌, ◌^◌, ◌<◌, Bool, false, ◌||◌, List, map, length, slice_index, Option, Some, None, IfSome};
ghost use Rattle.gate_graph.specs.Values.{at};
ghost use Rattle.unroll_cnf.specs.Latches.{holds};
ghost use Rattle.invariant_miner.specs.Lanes.{bit, lane};
ghost use Rattle.invariant_miner.specs.Samples.{in_row, in_all_rows};
ghost use Rattle.invariant_miner.specs.Candidates.{plain, negated, holds_in_all, one_holds_in_all, are_equal, are_opposite, least_from};

use std::vec::Vec;
use unroll_cnf::LatchLiteral;

/// The latch, not negated.
pub(crate) fn plain(latch: u32) -> LatchLiteral
    ensures { result ≡ plain latch }
{
    LatchLiteral {
        latch,
        negated: false,
    }
}

/// The latch, negated.
pub(crate) fn negated(latch: u32) -> LatchLiteral
    ensures { result ≡ negated latch }
{
    LatchLiteral {
        latch,
        negated: true,
    }
}

/// The word of a latch in a row, 0 past its end.
pub(crate) fn word_of(row: &[u64], latch: u32) -> u64
    ensures { result ≡ slice_index row.now latch }
{
    row.get(latch as usize).copied().unwrap_or(0)
}

/// The runs in which the literal holds.
pub(crate) fn literal_word(row: &[u64], literal: LatchLiteral) -> u64
    ensures bits { (r : ℕ) → r < 64 → bit r result ≡ holds (lane r row.now) literal }
    ensures small { result < 2 ^ 64 }
{
    let word = word_of(row, literal.latch);
    if literal.negated { !word } else { word }
}

/// Whether one of the two literals holds in each run of the row with `live` 1.
fn holds_in_row(row: &[u64], x: LatchLiteral, y: LatchLiteral) -> bool
    ensures { result ≡ in_row row.now (λ s. holds s x || holds s y) }
{
    let live = word_of(row, 0);
    live & !(literal_word(row, x) | literal_word(row, y)) == 0
}

/// Whether one of the two literals holds in each sample state.
pub(crate) fn one_holds(rows: &[Vec<u64>], x: LatchLiteral, y: LatchLiteral) -> bool
    ensures { result ≡ one_holds_in_all (in_all_rows (map (λ v. v.items) rows.now)) x y }
{
    for row in rows {
        if !holds_in_row(row.as_slice(), x, y) {
            return false;
        }
    }
    true
}

/// Whether the literal holds in each sample state.
pub(crate) fn always_holds(rows: &[Vec<u64>], x: LatchLiteral) -> bool
    ensures { result ≡ holds_in_all (in_all_rows (map (λ v. v.items) rows.now)) x }
{
    one_holds(rows, x, x)
}

/// Whether latches `n` and `m` are equal in each sample state.
pub(crate) fn always_equal(rows: &[Vec<u64>], n: u32, m: u32) -> bool
    ensures { result ≡ are_equal (in_all_rows (map (λ v. v.items) rows.now)) n m }
{
    one_holds(rows, plain(m), negated(n)) && one_holds(rows, negated(m), plain(n))
}

/// Whether latches `n` and `m` are opposite in each sample state.
pub(crate) fn always_opposite(rows: &[Vec<u64>], n: u32, m: u32) -> bool
    ensures { result ≡ are_opposite (in_all_rows (map (λ v. v.items) rows.now)) n m }
{
    one_holds(rows, plain(m), plain(n)) && one_holds(rows, negated(m), negated(n))
}

/// Whether there is no sample state.
pub(crate) fn no_samples(rows: &[Vec<u64>]) -> bool
    ensures { result ≡ in_all_rows (map (λ v. v.items) rows.now) (λ _. false) }
{
    always_holds(rows, negated(0))
}
