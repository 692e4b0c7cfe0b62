//! Lists of bits, and the nets that they belong to.

ghost use Rattle.std.specs.Prelude.{◌≡◌, ◌&&◌, ◌||◌, ◌++◌, not, ℕ, slice_get, OnOk, IfOk};
ghost use Rattle.flat_orders.specs.Orders.{among};
ghost use Rattle.flat_flows.specs.Ranges.{in_range};
ghost use Rattle.flat_flows.specs.Tables.{in_table};
ghost use Rattle.flat_drives.specs.Drives as spec;
ghost use Rattle.flat_drives.specs.Listed.{listed, nets_of};
ghost use Rattle.flat_drives.specs.Least.{IsLeastNet};

use crate::kinds::mark_row;
use flat_design::net::Net;
use flat_design::stmt::FlatLeft;
use flat_flows::marks::Marks;
use flat_flows::range::BitRange;
use flat_loads::drives::part_range;
use flat_offences::least::least_of;
use sqlite_items::at;
use std::alloc::{AllocError, Global};
use std::vec::Vec;

/// Adds the numbers that are in one of the sets.
pub fn push_in(
    out: &mut Vec<usize>,
    numbers: &[usize],
    a: &Marks,
    b: &Marks,
) -> Result<(), AllocError>
    ensures { OnOk result ((i : ℕ) → among i out.new.items ≡ (among i out.old.items || (among i numbers.now && (in_table a.now i || in_table b.now i)))) }
{
    for number in numbers {
        if a.has(*number) || b.has(*number) {
            out.push(*number)?;
        }
    }
    Ok(())
}

/// Adds the numbers that are in neither set.
pub fn push_out(
    out: &mut Vec<usize>,
    numbers: &[usize],
    a: &Marks,
    b: &Marks,
) -> Result<(), AllocError>
    ensures { OnOk result ((i : ℕ) → among i out.new.items ≡ (among i out.old.items || (among i numbers.now && not (in_table a.now i || in_table b.now i)))) }
{
    for number in numbers {
        if !(a.has(*number) || b.has(*number)) {
            out.push(*number)?;
        }
    }
    Ok(())
}

/// Adds the bits of a row that were seen.
fn push_row(out: &mut Vec<usize>, range: BitRange, seen: &Marks) -> Result<(), AllocError>
    ensures { OnOk result ((i : ℕ) → among i out.new.items ≡ (among i out.old.items || (in_range range i && in_table seen.now i))) }
{
    for i in range.first..range.end {
        if seen.has(i) {
            out.push(i)?;
        }
    }
    Ok(())
}

/// Adds the bits that stand twice in a left side.
pub fn push_twice(
    alloc: Global,
    nets: &[Net],
    out: &mut Vec<usize>,
    left: &[FlatLeft],
) -> Result<(), AllocError>
    ensures { OnOk result ((i : ℕ) → among i out.new.items ≡ (among i out.old.items || spec.twice nets.now left.now i)) }
{
    let mut seen = Marks::new(alloc);
    for j in (0..left.len()).rev() {
        let range = part_range(alloc, nets, &left[j])?;
        push_row(out, range, &seen)?;
        mark_row(&mut seen, range)?;
    }
    Ok(())
}

/// Adds the net of a bit, if it has one.
fn push_net(nets: &mut Vec<u32>, owners: &[u32], bit: usize) -> Result<(), AllocError>
    ensures { OnOk result (nets.new.items ≡ nets.old.items ++ listed (slice_get owners.now bit)) }
{
    match at(owners, bit) {
        None => Ok(()),
        Some(net) => {
            nets.push(*net)?;
            Ok(())
        }
    }
}

/// The nets of these bits.
pub fn nets_of(alloc: Global, owners: &[u32], bits: &[usize]) -> Result<Vec<u32>, AllocError>
    ensures { IfOk result (λ nets. nets.items ≡ nets_of owners.now bits.now) }
{
    let mut nets = Vec::new(alloc);
    for bit in bits {
        push_net(&mut nets, owners, *bit)?;
    }
    Ok(nets)
}

/// The least of the nets of these bits.
pub fn least_net(alloc: Global, owners: &[u32], bits: &[usize]) -> Result<Option<u32>, AllocError>
    ensures { IfOk result (λ o. IsLeastNet owners.now (λ i. among i bits.now) o) }
{
    let nets = nets_of(alloc, owners, bits)?;
    Ok(least_of(nets.as_slice()))
}
