//! How many items read each net.

ghost use Rattle.std.specs.Prelude.{◌≡◌, ◌==◌, ◌+◌, if◌then◌else◌, ℕ, List, Some, length, slice_get, OnOk, IfOk};
ghost use Rattle.flat_design.specs.declared.item.FlatItem.{FlatItem as ItemOf};
ghost use Rattle.flat_orders.specs.Orders.{among};
ghost use Rattle.flat_offences.specs.Owners.{AreOwners};
ghost use Rattle.flat_races.specs.Readers as spec;

use flat_design::item::FlatItem;
use flat_design::net::Net;
use flat_drives::bits::nets_of;
use flat_flows::item::FlowSets;
use std::alloc::{AllocError, Global};
use std::vec::Vec;

/// The items that read a net: none, one, or more than one.
#[derive(Clone, Copy, Debug, PartialEq, Eq, Drop)]
pub enum Readers {
    Nobody,
    One(usize),
    Several,
}

/// The readers with one more.
fn joined_by(number: usize, readers: Readers) -> Readers
    ensures { result ≡ spec.joined_by number readers }
{
    match readers {
        Readers::Nobody => Readers::One(number),
        Readers::One(other) => {
            if other == number {
                Readers::One(other)
            } else {
                Readers::Several
            }
        }
        Readers::Several => Readers::Several,
    }
}

/// The readers have an item beside that of the number.
fn has_other(number: usize, readers: Readers) -> bool
    ensures { result ≡ spec.has_other number readers }
{
    match readers {
        Readers::Nobody => false,
        Readers::One(other) => other != number,
        Readers::Several => true,
    }
}

/// An item beside that of the number reads the net.
pub fn is_read_elsewhere(table: &[Readers], number: usize, net: u32) -> bool
    ensures { result ≡ spec.has_other number (spec.readers_of table.now net) }
{
    match table.get(net as usize) {
        None => false,
        Some(readers) => has_other(number, *readers),
    }
}

/// Adds an item to the readers of a net.
fn join(table: &mut Vec<Readers>, number: usize, net: usize) -> Result<(), AllocError>
    ensures { OnOk result ((n : ℕ) → spec.readers_of table.new.items n ≡ (if n == net then spec.joined_by number (spec.readers_of table.old.items n) else spec.readers_of table.old.items n)) }
{
    if net >= table.len() {
        let length = net.checked_add(1).ok_or(AllocError)?;
        table.resize(length, Readers::Nobody)?;
    }
    table[net] = joined_by(number, table[net]);
    Ok(())
}

/// Adds an item to the readers of these nets.
fn join_all(table: &mut Vec<Readers>, number: usize, nets: &[u32]) -> Result<(), AllocError>
    ensures { OnOk result ((n : ℕ) → spec.readers_of table.new.items n ≡ (if among n nets.now then spec.joined_by number (spec.readers_of table.old.items n) else spec.readers_of table.old.items n)) }
{
    for net in nets {
        join(table, number, *net as usize)?;
    }
    Ok(())
}

/// Adds the item of a number to the readers of the nets that it reads.
fn join_item(
    alloc: Global,
    nets: &[Net],
    owners: &[u32],
    table: &mut Vec<Readers>,
    flow: &mut FlowSets,
    number: usize,
    item: &FlatItem,
) -> Result<(), AllocError>
    requires owners { AreOwners nets.now owners.now }
    ensures { OnOk result ((items : List ItemOf) → slice_get items number ≡ Some item.now → spec.AreReaders nets.now items number table.old.items → spec.AreReaders nets.now items (number + 1) table.new.items) }
{
    flow.fill(alloc, nets, item)?;
    let read = nets_of(alloc, owners, flow.found.reads.members())?;
    join_all(table, number, read.as_slice())?;
    Ok(())
}

/// The items that read each net; a net past the table has none.
pub fn count_readers(
    alloc: Global,
    nets: &[Net],
    items: &[FlatItem],
    owners: &[u32],
) -> Result<Vec<Readers>, AllocError>
    requires owners { AreOwners nets.now owners.now }
    ensures { IfOk result (λ table. spec.AreReaders nets.now items.now (length items.now) table.items) }
{
    let mut table = Vec::new(alloc);
    let mut flow = FlowSets::new(alloc);
    for number in 0..items.len() {
        let item = &items[number];
        join_item(alloc, nets, owners, &mut table, &mut flow, number, item)?;
    }
    Ok(table)
}
