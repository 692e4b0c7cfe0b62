//! Latches listed by keys of their columns: a latch is compared only with those of its list.

ghost use Rattle.std.specs.Prelude.{◌≡◌, ℕ, ◌+◌, ◌-◌, ◌%◌, ◌^◌, ◌<◌, ◌≤◌, false, true, [], List, map, length, slice_index, IfOk, OnOk, IfSome};
ghost use Rattle.std.specs.List.{find};
ghost use Rattle.invariant_miner.specs.Samples.{in_all_rows};
ghost use Rattle.invariant_miner.specs.Candidates.{are_equal, are_opposite, least_from};
ghost use Rattle.invariant_miner.specs.Columns.{masked, mixed, column_key, column_place, AreColumns, AreWords};

use crate::rows::{always_equal, always_opposite};
use std::alloc::{AllocError, Global};
use std::vec::Vec;

/// The key after one word more.
#[tactic(auto, unfolding(crate::specs::Columns::mixed))]
fn mixed(key: u64, word: u64) -> u64
    ensures { result ≡ mixed key word }
{
    (key ^ word).wrapping_mul(11_400_714_819_323_198_485)
}

/// Word `i` of the row, 0 past its end.
fn word_at(row: &[u64], i: usize) -> u64
    ensures value { result ≡ slice_index row.now i }
{
    row.get(i).copied().unwrap_or(0)
}

/// Latch `n` in a row, or its opposite, in the runs with `live` 1.
fn masked(row: &[u64], n: usize, inverted: bool) -> u64
    ensures value { result ≡ masked inverted row.now n }
    ensures words { (i : ℕ) → slice_index row.now i < 2 ^ 64 }
{
    let live = word_at(row, 0);
    let word = word_at(row, n);
    if inverted { live & !word } else { live & word }
}

/// The key of the column of latch `n`, or of its opposite.
fn key_of(rows: &[Vec<u64>], n: usize, inverted: bool) -> u64
    ensures key { result ≡ column_key (map (λ v. v.items) rows.now) inverted n (length rows.now) }
    ensures words { AreWords (map (λ v. v.items) rows.now) }
{
    let mut key = 0;
    for row in rows {
        key = mixed(key, masked(row.as_slice(), n, inverted));
    }
    key
}

/// The number of the list, of so many, that the column of latch `n`, or of its opposite, belongs to.
fn place_of(rows: &[Vec<u64>], n: u32, inverted: bool, count: usize) -> usize
    requires some { 0 < count }
    ensures place { result ≡ column_place (map (λ v. v.items) rows.now) count inverted n }
    ensures within { result < count }
    ensures words { AreWords (map (λ v. v.items) rows.now) }
{
    let key = key_of(rows, n as usize, inverted);
    (key % count as u64) as usize
}

/// So many lists without latches.
pub(crate) fn no_columns(alloc: Global, count: usize) -> Result<Vec<Vec<u32>>, AllocError>
    ensures columns { IfOk result (λ v. (rows : List (List ℕ)) → AreColumns rows count 1 (map (λ x. x.items) v.items)) }
    ensures count { IfOk result (λ v. length v.items ≡ count) }
{
    let mut lists = Vec::new(alloc);
    'lists: while lists.len() < count {
        lists.push(Vec::new(alloc))?;
    }
    Ok(lists)
}

/// Adds latch `n` to the list of its column.
pub(crate) fn add_column(
    columns: &mut Vec<Vec<u32>>,
    rows: &[Vec<u64>],
    n: u32,
) -> Result<(), AllocError>
    requires some { 0 < length columns.old.items }
    requires first { 1 ≤ n }
    requires columns { AreColumns (map (λ v. v.items) rows.now) (length columns.old.items) n (map (λ v. v.items) columns.old.items) }
    ensures columns { OnOk result (AreColumns (map (λ v. v.items) rows.now) (length columns.old.items) (n + 1) (map (λ v. v.items) columns.new.items)) }
    ensures count { OnOk result (length columns.new.items ≡ length columns.old.items) }
{
    let place = place_of(rows, n, false, columns.len());
    columns[place].push(n)?;
    Ok(())
}

/// The first latch of the list that equals latch `n` in each sample state.
fn first_equal(rows: &[Vec<u64>], list: &[u32], n: u32) -> Option<u32>
    ensures { result ≡ find (are_equal (in_all_rows (map (λ v. v.items) rows.now)) n) list.now }
{
    for m in list {
        if always_equal(rows, n, *m) {
            return Some(*m);
        }
    }
    None
}

/// The first latch of the list that is opposite to latch `n` in each sample state.
fn first_opposite(rows: &[Vec<u64>], list: &[u32], n: u32) -> Option<u32>
    ensures { result ≡ find (are_opposite (in_all_rows (map (λ v. v.items) rows.now)) n) list.now }
{
    for m in list {
        if always_opposite(rows, n, *m) {
            return Some(*m);
        }
    }
    None
}

/// The least latch from 1 to `n` - 1 that equals latch `n` in each sample state.
pub(crate) fn least_equal(rows: &[Vec<u64>], columns: &[Vec<u32>], n: u32) -> Option<u32>
    requires some { 0 < length columns.now }
    requires columns { AreColumns (map (λ v. v.items) rows.now) (length columns.now) n (map (λ v. v.items) columns.now) }
    ensures least { result ≡ least_from (are_equal (in_all_rows (map (λ v. v.items) rows.now)) n) 1 (n - 1) }
    ensures before { IfSome result (λ m. m < n) }
{
    let place = place_of(rows, n, false, columns.len());
    first_equal(rows, columns[place].as_slice(), n)
}

/// The least latch from 1 to `n` - 1 that is opposite to latch `n` in each sample state.
pub(crate) fn least_opposite(rows: &[Vec<u64>], columns: &[Vec<u32>], n: u32) -> Option<u32>
    requires some { 0 < length columns.now }
    requires columns { AreColumns (map (λ v. v.items) rows.now) (length columns.now) n (map (λ v. v.items) columns.now) }
    ensures least { result ≡ least_from (are_opposite (in_all_rows (map (λ v. v.items) rows.now)) n) 1 (n - 1) }
    ensures before { IfSome result (λ m. m < n) }
{
    let place = place_of(rows, n, true, columns.len());
    first_opposite(rows, columns[place].as_slice(), n)
}
