//! Tables that tell which numbers a list has.

ghost use Rattle.std.specs.Prelude.{◌≡◌, ◌<◌, ◌+◌, ◌&&◌, ◌||◌, ◌↔◌, nat_lt, ℕ, List, false, length, slice_index_or, slice_index, replicate, OnOk, IfOk, IsTrue};
ghost use Rattle.std.specs.List.{list_all};
ghost use Rattle.flat_orders.specs.Orders.{among};

use flat_sets::NumberSet;
use std::alloc::{AllocError, Global};
use std::vec::Vec;

/// Marks these numbers in a table, those that it has room for.
fn mark(table: &mut [bool], numbers: &[u32])
    ensures { (k : ℕ) → slice_index_or table.new k false ≡ (slice_index_or table.old k false || (nat_lt k (length table.old) && among k numbers.now)) }
{
    for number in numbers {
        let number = *number as usize;
        if number < table.len() {
            table[number] = true;
        }
    }
}

/// Which of the numbers below a bound stand in a list.
pub fn marks(alloc: Global, bound: usize, numbers: &[u32]) -> Result<Vec<bool>, AllocError>
    ensures marks { IfOk result (λ table. (k : ℕ) → k < bound → slice_index_or table.items k false ≡ among k numbers.now) }
    ensures long { IfOk result (λ table. length table.items ≡ bound) }
{
    let mut table = Vec::new(alloc);
    table.resize(bound, false)?;
    mark(table.as_mut_slice(), numbers);
    Ok(table)
}

/// A list of numbers rises.
pub fn is_rising(numbers: &[u32]) -> bool
    ensures { IsTrue result ↔ ((j : ℕ) → j + 1 < length numbers.now → slice_index numbers.now j < slice_index numbers.now (j + 1)) }
{
    for j in 1..numbers.len() {
        if numbers[j - 1] >= numbers[j] {
            return false;
        }
    }
    true
}

/// Each of these numbers is below the bound.
pub fn are_below(bound: usize, numbers: &[u32]) -> bool
    ensures { result ≡ list_all (λ n. nat_lt n bound) numbers.now }
{
    numbers.iter().all(|number| (*number as usize) < bound)
}

/// Puts these numbers into a set, those that it has room for.
fn fill(set: &mut NumberSet, numbers: &[u32]) -> Result<(), AllocError>
    ensures filled { OnOk result ((k : ℕ) → slice_index_or set.new k false ≡ (slice_index_or set.old k false || (nat_lt k (length set.old) && among k numbers.now))) }
    ensures long { OnOk result (length set.new ≡ length set.old) }
{
    for number in numbers {
        let number = *number as usize;
        if number < set.bound() {
            set.add(number)?;
        }
    }
    Ok(())
}

/// The set has the number.
fn has(set: &NumberSet, number: u32) -> bool
    ensures { result ≡ slice_index_or set.now number false }
{
    (number as usize) < set.bound() && set.has(number as usize)
}

/// The set has all these numbers.
fn has_all(set: &NumberSet, numbers: &[u32]) -> bool
    ensures { result ≡ list_all (λ n. slice_index_or set.now n false) numbers.now }
{
    numbers.iter().all(|number| has(set, *number))
}

/// All these numbers are below the bound of an empty set, and stand in the other list.
pub fn stand_in(set: &mut NumberSet, numbers: &[u32], others: &[u32]) -> Result<bool, AllocError>
    requires { set.old ≡ replicate (length set.old) false }
    ensures all { IfOk result (λ b. b ≡ list_all (λ n. nat_lt n (length set.old) && among n others.now) numbers.now) }
    ensures empty { OnOk result (set.new ≡ set.old) }
{
    fill(set, others)?;
    let all = has_all(set, numbers);
    set.clear();
    Ok(all)
}
