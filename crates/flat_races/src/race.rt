//! The first race of a design.

ghost use Rattle.std.specs.Prelude.{◌≡◌, ◌<◌, ◌≤◌, ◌&&◌, ◌||◌, ℕ, List, Option, true, Some, length, slice_get, OnOk, IfOk, IfSome, IfNone};
ghost use Rattle.flat_design.specs.Bits.{net_at};
ghost use Rattle.flat_design.specs.declared.item.FlatItem.{FlatItem as ItemOf};
ghost use Rattle.flat_orders.specs.Orders.{among};
ghost use Rattle.flat_flows.specs.Tables.{in_table};
ghost use Rattle.flat_raw.specs.Nets.{AreInRow};
ghost use Rattle.flat_offences.specs.Offences.{IsFirstOffence};
ghost use Rattle.flat_races.specs.Assigns as assigns;
ghost use Rattle.flat_races.specs.Readers as table;
ghost use Rattle.flat_races.specs.Races as spec;

use crate::assigns::nets_by;
use crate::readers::{Readers, count_readers, is_read_elsewhere};
use flat_design::item::FlatItem;
use flat_design::net::Net;
use flat_design::stmt::FlatStmt;
use flat_flows::marks::Marks;
use flat_offences::least::least_of;
use flat_offences::offence::{Offence, first_offence};
use flat_offences::owner::owners;
use std::alloc::{AllocError, Global};
use std::vec::Vec;

/// The set of these nets.
fn set_of(alloc: Global, nets: &[u32]) -> Result<Marks, AllocError>
    ensures { IfOk result (λ set. (n : ℕ) → in_table set n ≡ among n nets.now) }
{
    let mut set = Marks::new(alloc);
    for net in nets {
        set.add(*net as usize)?;
    }
    Ok(set)
}

fn is_output(nets: &[Net], net: u32) -> bool
    ensures { result ≡ (net_at nets.now net).output }
{
    match nets.get(net as usize) {
        None => false,
        Some(net) => net.output,
    }
}

/// The nets of a list that are in a set, that another item reads, or that are outputs.
fn push_racing(
    out: &mut Vec<u32>,
    nets: &[Net],
    readers: &[Readers],
    number: usize,
    blocking: &[u32],
    nonblocking: &Marks,
) -> Result<(), AllocError>
    ensures { OnOk result ((n : ℕ) → among n out.new.items ≡ (among n out.old.items || (among n blocking.now && (in_table nonblocking.now n || (table.has_other number (table.readers_of readers.now n) || (net_at nets.now n).output))))) }
{
    for net in blocking {
        if nonblocking.has(*net as usize)
            || is_read_elsewhere(readers, number, *net)
            || is_output(nets, *net)
        {
            out.push(*net)?;
        }
    }
    Ok(())
}

/// The nets at which a clocked process races.
fn clocked_racing(
    alloc: Global,
    nets: &[Net],
    readers: &[Readers],
    number: usize,
    body: &FlatStmt,
) -> Result<Vec<u32>, AllocError>
    ensures { IfOk result (λ out. (n : ℕ) → among n out.items ≡ (among n (assigns.blocking_nets body.now) && (among n (assigns.nonblocking_nets body.now) || (table.has_other number (table.readers_of readers.now n) || (net_at nets.now n).output)))) }
{
    let blocking = nets_by(alloc, false, body)?;
    let nonblocking = nets_by(alloc, true, body)?;
    let nonblocking = set_of(alloc, nonblocking.as_slice())?;
    let mut out = Vec::new(alloc);
    push_racing(
        &mut out,
        nets,
        readers,
        number,
        blocking.as_slice(),
        &nonblocking,
    )?;
    Ok(out)
}

/// The nets at which an item races.
fn racing(
    alloc: Global,
    nets: &[Net],
    readers: &[Readers],
    number: usize,
    item: &FlatItem,
) -> Result<Vec<u32>, AllocError>
    ensures { IfOk result (λ out. (n : ℕ) → among n out.items ≡ table.racing nets.now readers.now number item.now n) }
{
    match item {
        FlatItem::Assign {
            place: _,
            targets: _,
            left: _,
            value: _,
            connection: _,
        } => Ok(Vec::new(alloc)),
        FlatItem::Comb {
            place: _,
            targets: _,
            body,
        } => nets_by(alloc, true, body),
        FlatItem::Clocked {
            place: _,
            targets: _,
            events: _,
            body,
        } => clocked_racing(alloc, nets, readers, number, body),
    }
}

/// The first net at which an item races.
fn racing_net(
    alloc: Global,
    nets: &[Net],
    readers: &[Readers],
    number: usize,
    item: &FlatItem,
) -> Result<Option<u32>, AllocError>
    ensures { IfOk result (table.IsLeastIn (table.racing nets.now readers.now number item.now)) }
{
    let racing = racing(alloc, nets, readers, number, item)?;
    Ok(least_of(racing.as_slice()))
}

/// For each item the first net at which it races.
fn racing_nets(
    alloc: Global,
    nets: &[Net],
    readers: &[Readers],
    items: &[FlatItem],
) -> Result<Vec<Option<u32>>, AllocError>
    ensures long { IfOk result (λ found. length found.items ≡ length items.now) }
    ensures each { IfOk result (λ found. (k : ℕ) (x : ItemOf) (o : Option ℕ) → slice_get items.now k ≡ Some x → slice_get found.items k ≡ Some o → table.IsLeastIn (table.racing nets.now readers.now k x) o) }
{
    let mut found = Vec::new(alloc);
    for number in 0..items.len() {
        let net = racing_net(alloc, nets, readers, number, &items[number])?;
        found.push(net)?;
    }
    Ok(found)
}

/// The first race of the processes of a design, at the least place and about the first net: `<=` in a combinational process; `=` and `<=`
/// to one net in a clocked process; or a net that a clocked process assigns by `=` and that another item reads, or that is an output.
pub fn race_offence(
    alloc: Global,
    nets: &[Net],
    items: &[FlatItem],
) -> Result<Option<Offence>, AllocError>
    requires row { AreInRow nets.now }
    requires few { length nets.now < 4294967296 }
    ensures first { IfOk result (λ o. IfSome o (λ f. IsFirstOffence items.now (spec.Races nets.now items.now) f)) }
    ensures none { IfOk result (λ o. IfNone o ((k n : ℕ) → spec.Races nets.now items.now k n → ⊥)) }
    ensures own { IfOk result (λ o. IfNone o (spec.AreBlockingNetsOwn nets.now items.now)) }
{
    let owners = owners(alloc, nets)?;
    let readers = count_readers(alloc, nets, items, owners.as_slice())?;
    let found = racing_nets(alloc, nets, readers.as_slice(), items)?;
    Ok(first_offence(items, found.as_slice()))
}
