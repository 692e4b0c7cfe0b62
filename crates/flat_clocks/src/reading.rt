//! Items that read a clock.

ghost use Rattle.std.specs.Prelude.{◌≡◌, ◌<◌, ◌||◌, ◌++◌, ℕ, List, map, length, OnOk, IfOk};
ghost use Rattle.flat_raw.specs.Nets.{AreInRow};
ghost use Rattle.flat_orders.specs.Orders.{among};
ghost use Rattle.flat_flows.specs.Tables.{in_table};
ghost use Rattle.flat_drives.specs.Listed.{listed};
ghost use Rattle.flat_ties.specs.Ties as ties;
ghost use Rattle.flat_clocks.specs.Signals as signals;
ghost use Rattle.flat_clocks.specs.Least as spec;

use crate::signal::item_clock;
use flat_design::item::FlatItem;
use flat_design::net::Net;
use flat_flows::item::FlowSets;
use flat_flows::marks::Marks;
use flat_offences::least::least_of;
use flat_offences::owner::owners;
use flat_ties::tie::{net_in, tie_of};
use std::alloc::{AllocError, Global};
use std::vec::Vec;

/// Adds the clock of an item.
fn add_clock(clocks: &mut Marks, sources: &[Option<u32>], item: &FlatItem) -> Result<(), AllocError>
    ensures { OnOk result ((n : ℕ) → in_table clocks.new n ≡ (in_table clocks.old n || signals.is_of n (signals.item_clock sources.now item.now))) }
{
    match item_clock(sources, item) {
        None => Ok(()),
        Some(clock) => clocks.add(clock.net as usize),
    }
}

/// The clocks of items.
fn clocks_of(
    alloc: Global,
    items: &[FlatItem],
    sources: &[Option<u32>],
) -> Result<Marks, AllocError>
    ensures { IfOk result (λ clocks. (n : ℕ) → in_table clocks n ≡ signals.is_clock sources.now items.now n) }
{
    let mut clocks = Marks::new(alloc);
    for item in items {
        add_clock(&mut clocks, sources, item)?;
    }
    Ok(clocks)
}

/// The clock that a net comes from.
fn clock_from(sources: &[Option<u32>], clocks: &Marks, net: u32) -> Option<u32>
    ensures { result ≡ spec.clock_from sources.now clocks.now net }
{
    let source = net_in(sources, net)?;
    if clocks.has(source as usize) {
        Some(source)
    } else {
        None
    }
}

/// The clocks that nets come from.
fn clocks_from(
    alloc: Global,
    sources: &[Option<u32>],
    clocks: &Marks,
    nets: &[u32],
) -> Result<Vec<Option<u32>>, AllocError>
    ensures { IfOk result (λ table. table.items ≡ map (spec.clock_from sources.now clocks.now) nets.now) }
{
    let mut table = Vec::new(alloc);
    for net in nets {
        let clock = clock_from(sources, clocks, *net);
        table.push(clock)?;
    }
    Ok(table)
}

/// The clock that each bit comes from.
pub fn bit_clocks(
    alloc: Global,
    nets: &[Net],
    items: &[FlatItem],
    sources: &[Option<u32>],
) -> Result<Vec<Option<u32>>, AllocError>
    requires row { AreInRow nets.now }
    requires few { length nets.now < 4294967296 }
    ensures { IfOk result (λ table. spec.AreClocks nets.now sources.now items.now table.items) }
{
    let owners = owners(alloc, nets)?;
    let clocks = clocks_of(alloc, items, sources)?;
    let table = clocks_from(alloc, sources, &clocks, owners.as_slice())?;
    Ok(table)
}

/// The number that a table has for a bit.
fn number_at(table: &[Option<u32>], bit: usize) -> Option<u32>
    ensures { result ≡ ties.net_in table.now bit }
{
    match table.get(bit) {
        None => None,
        Some(number) => *number,
    }
}

/// Puts the number that a table has for a bit to the end.
fn push_number(numbers: &mut Vec<u32>, table: &[Option<u32>], bit: usize) -> Result<(), AllocError>
    ensures { OnOk result (numbers.new.items ≡ numbers.old.items ++ listed (ties.net_in table.now bit)) }
{
    match number_at(table, bit) {
        None => Ok(()),
        Some(number) => {
            numbers.push(number)?;
            Ok(())
        }
    }
}

/// The numbers that a table has for these bits.
fn numbers_of(alloc: Global, table: &[Option<u32>], bits: &[usize]) -> Result<Vec<u32>, AllocError>
    ensures { IfOk result (λ numbers. numbers.items ≡ spec.numbers_of table.now bits.now) }
{
    let mut numbers = Vec::new(alloc);
    for bit in bits {
        push_number(&mut numbers, table, *bit)?;
    }
    Ok(numbers)
}

/// The least number that a table has for these bits.
fn least_number(
    alloc: Global,
    table: &[Option<u32>],
    bits: &[usize],
) -> Result<Option<u32>, AllocError>
    ensures { IfOk result (λ o. spec.IsLeastOf (spec.HasNumber table.now (λ i. among i bits.now)) o) }
{
    let numbers = numbers_of(alloc, table, bits)?;
    Ok(least_of(numbers.as_slice()))
}

/// The least clock that an item reads, other than by a plain port connection.
pub fn clock_read(
    alloc: Global,
    nets: &[Net],
    table: &[Option<u32>],
    flow: &mut FlowSets,
    item: &FlatItem,
) -> Result<Option<u32>, AllocError>
    ensures { IfOk result (λ o. spec.IsLeastOf (spec.HasClock nets.now table.now item.now) o) }
{
    if tie_of(item).is_some() {
        return Ok(None);
    }
    flow.fill(alloc, nets, item)?;
    let clock = least_number(alloc, table, flow.found.reads.members())?;
    Ok(clock)
}
