//! Which items without a clock feed on which.

ghost use Rattle.std.specs.Prelude.{◌≡◌, ℕ, ◌==◌, ◌+◌, ◌<◌, ◌++◌, ◌∷◌, List, [], Bool, Option, Some, None, true, false, length, if◌then◌else◌, OnOk, IfOk};
ghost use Rattle.flat_design.specs.Systems.{is_clocked};
ghost use Rattle.flat_orders.specs.Orders.{among, HaveSingleDrivers};
ghost use Rattle.flat_loops.specs.Feeding.{driver_at, AreDrivers, ArePassed, IsRowOf, IsGraphOf, AreUnclocked};

use crate::graph::Graph;
use flat_design::item::FlatItem;
use flat_design::net::Net;
use flat_flows::item::FlowSets;
use std::alloc::{AllocError, Global};
use std::vec::Vec;

/// Whether an item is a clocked process.
pub fn is_clocked(item: &FlatItem) -> bool
    ensures { result ≡ is_clocked item.now }
{
    match item {
        FlatItem::Assign {
            place: _,
            targets: _,
            left: _,
            value: _,
            connection: _,
        } => false,
        FlatItem::Comb {
            place: _,
            targets: _,
            body: _,
        } => false,
        FlatItem::Clocked {
            place: _,
            targets: _,
            events: _,
            body: _,
        } => true,
    }
}

/// Notes the driver of a bit.
fn note(table: &mut Vec<Option<usize>>, bit: usize, driver: usize) -> Result<(), AllocError>
    ensures { OnOk result ((i : ℕ) → driver_at table.new.items i ≡ (if i == bit then Some driver else driver_at table.old.items i)) }
{
    if bit >= table.len() {
        let length = bit.checked_add(1).ok_or(AllocError)?;
        table.resize(length, None)?;
    }
    table[bit] = Some(driver);
    Ok(())
}

/// Notes the driver of these bits.
fn note_all(table: &mut Vec<Option<usize>>, bits: &[usize], driver: usize) -> Result<(), AllocError>
    ensures { OnOk result ((i : ℕ) → driver_at table.new.items i ≡ (if among i bits.now then Some driver else driver_at table.old.items i)) }
{
    for bit in bits {
        note(table, *bit, driver)?;
    }
    Ok(())
}

/// For each bit the item without a clock that drives it.
fn drivers(
    alloc: Global,
    nets: &[Net],
    items: &[FlatItem],
    sets: &mut FlowSets,
) -> Result<Vec<Option<usize>>, AllocError>
    requires single { HaveSingleDrivers nets.now items.now }
    ensures { IfOk result (λ table. AreDrivers nets.now items.now (length items.now) table.items) }
{
    let mut table = Vec::new(alloc);
    for k in 0..items.len() {
        if !is_clocked(&items[k]) {
            sets.fill(alloc, nets, &items[k])?;
            note_all(&mut table, sets.found.drives.members(), k)?;
        }
    }
    Ok(table)
}

/// The drivers of these bits.
fn feeds(alloc: Global, table: &[Option<usize>], bits: &[usize]) -> Result<Vec<usize>, AllocError>
    ensures { IfOk result (λ feeds. ArePassed table.now bits.now feeds.items) }
{
    let mut feeds = Vec::new(alloc);
    for bit in bits {
        if let Some(driver) = driver_of(table, *bit) {
            feeds.push(driver)?;
        }
    }
    Ok(feeds)
}

/// The driver of a bit.
fn driver_of(table: &[Option<usize>], bit: usize) -> Option<usize>
    ensures { result ≡ driver_at table.now bit }
{
    match table.get(bit) {
        None => None,
        Some(driver) => *driver,
    }
}

/// The items on which an item feeds; none where a clock starts it.
fn row_of(
    alloc: Global,
    nets: &[Net],
    item: &FlatItem,
    table: &[Option<usize>],
    sets: &mut FlowSets,
) -> Result<Vec<usize>, AllocError>
    ensures { IfOk result (λ row. IsRowOf nets.now item.now table.now row.items) }
{
    if is_clocked(item) {
        return Ok(Vec::new(alloc));
    }
    sets.fill(alloc, nets, item)?;
    feeds(alloc, table, sets.found.reads.members())
}

/// The graph of the items without a clock: a node for each item, which leads to those on which the item feeds.
pub fn graph_of(alloc: Global, nets: &[Net], items: &[FlatItem]) -> Result<Graph, AllocError>
    requires single { HaveSingleDrivers nets.now items.now }
    ensures { IfOk result (λ graph. IsGraphOf nets.now items.now graph) }
{
    let mut sets = FlowSets::new(alloc);
    let table = drivers(alloc, nets, items, &mut sets)?;
    let mut graph = Graph::new(alloc);
    for item in items {
        let row = row_of(alloc, nets, item, table.as_slice(), &mut sets)?;
        graph.push(row)?;
    }
    Ok(graph)
}

/// The numbers of the items that no clock starts.
pub fn unclocked(alloc: Global, items: &[FlatItem]) -> Result<Vec<usize>, AllocError>
    ensures { IfOk result (λ numbers. AreUnclocked items.now numbers.items) }
{
    let mut numbers = Vec::new(alloc);
    for k in 0..items.len() {
        if !is_clocked(&items[k]) {
            numbers.push(k)?;
        }
    }
    Ok(numbers)
}
