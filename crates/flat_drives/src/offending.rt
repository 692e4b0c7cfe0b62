//! Offences of drivers.

ghost use Rattle.std.specs.Prelude.{◌≡◌, ◌<◌, ◌≤◌, ◌&&◌, ◌||◌, ◌+◌, not, ℕ, List, Option, true, length, take, Some, None, slice_get, OnOk, IfOk, IfSome, IfNone};
ghost use Rattle.flat_design.specs.Systems.{item_flow};
ghost use Rattle.flat_orders.specs.Orders.{among};
ghost use Rattle.flat_flows.specs.Tables.{in_table};
ghost use Rattle.flat_raw.specs.Nets.{AreInRow};
ghost use Rattle.flat_offences.specs.Owners.{AreOwners};
ghost use Rattle.flat_offences.specs.Offences.{IsFirstOffence};
ghost use Rattle.flat_drives.specs.Drives as spec;
ghost use Rattle.flat_drives.specs.Least.{IsLeastNet};
ghost use Rattle.flat_drives.specs.Known.{IsKnown};
ghost use Rattle.flat_design.specs.declared.item.FlatItem.{FlatItem as ItemOf};

use crate::bits::{least_net, push_in, push_out, push_twice};
use crate::kinds::{given_bits, input_bits};
use flat_design::item::FlatItem;
use flat_design::net::Net;
use flat_flows::item::FlowSets;
use flat_flows::marks::Marks;
use flat_offences::least::least_of;
use flat_offences::offence::{Offence, first_offence};
use flat_offences::owner::owners;
use std::alloc::{AllocError, Global};
use std::vec::Vec;

/// The bits that some item drives.
pub fn driven(alloc: Global, nets: &[Net], items: &[FlatItem]) -> Result<Marks, AllocError>
    ensures { IfOk result (λ marks. (i : ℕ) → in_table marks i ≡ spec.driven nets.now items.now i) }
{
    let mut marks = Marks::new(alloc);
    let mut flow = FlowSets::new(alloc);
    for item in items {
        add_drives(alloc, nets, &mut marks, &mut flow, item)?;
    }
    Ok(marks)
}

/// Adds the bits that an item drives.
fn add_drives(
    alloc: Global,
    nets: &[Net],
    marks: &mut Marks,
    flow: &mut FlowSets,
    item: &FlatItem,
) -> Result<(), AllocError>
    ensures { OnOk result ((i : ℕ) → in_table marks.new i ≡ (in_table marks.old i || (item_flow nets.now item.now).drives i)) }
{
    flow.fill(alloc, nets, item)?;
    marks.add_all(flow.found.drives.members())
}

/// Adds the bits that stand twice in the left side of an item that is an assignment.
fn push_item_twice(
    alloc: Global,
    nets: &[Net],
    out: &mut Vec<usize>,
    item: &FlatItem,
) -> Result<(), AllocError>
    ensures { OnOk result ((i : ℕ) → among i out.new.items ≡ (among i out.old.items || spec.item_twice nets.now item.now i)) }
{
    match item {
        FlatItem::Assign {
            place: _,
            targets: _,
            left,
            value: _,
            connection: _,
        } => push_twice(alloc, nets, out, left.as_slice()),
        FlatItem::Comb {
            place: _,
            targets: _,
            body: _,
        } => Ok(()),
        FlatItem::Clocked {
            place: _,
            targets: _,
            events: _,
            body: _,
        } => Ok(()),
    }
}

/// What the bits of a design are: driven by some item, an input's, without need of a driver.
#[derive(Drop)]
pub struct Known {
    pub driven: Marks,
    pub inputs: Marks,
    pub given: Marks,
}

/// The bits at which an item offends, after items that drive these bits.
fn offending(
    alloc: Global,
    nets: &[Net],
    known: &Known,
    before: &Marks,
    flow: &mut FlowSets,
    item: &FlatItem,
) -> Result<Vec<usize>, AllocError>
    ensures { IfOk result (λ bits. (i : ℕ) → among i bits.items ≡ (((item_flow nets.now item.now).drives i && (in_table before.now i || in_table known.now.inputs i)) || (spec.item_twice nets.now item.now i || ((item_flow nets.now item.now).reads i && not (in_table known.now.driven i || in_table known.now.given i))))) }
{
    flow.fill(alloc, nets, item)?;
    let mut bits = Vec::new(alloc);
    push_in(
        &mut bits,
        flow.found.drives.members(),
        before,
        &known.inputs,
    )?;
    push_item_twice(alloc, nets, &mut bits, item)?;
    push_out(
        &mut bits,
        flow.found.reads.members(),
        &known.driven,
        &known.given,
    )?;
    Ok(bits)
}

/// The least net at a bit of which an item offends, after items that drive these bits.
fn item_net(
    alloc: Global,
    nets: &[Net],
    owners: &[u32],
    known: &Known,
    before: &Marks,
    flow: &mut FlowSets,
    item: &FlatItem,
) -> Result<Option<u32>, AllocError>
    ensures { (first all : List ItemOf) → IsKnown nets.now all known.now → ((i : ℕ) → in_table before.now i ≡ spec.driven nets.now first i) → IfOk result (λ o. IsLeastNet owners.now (spec.offending nets.now first all item.now) o) }
{
    let bits = offending(alloc, nets, known, before, flow, item)?;
    let net = least_net(alloc, owners, bits.as_slice())?;
    Ok(net)
}

/// For each item the least net at a bit of which it offends.
fn item_nets(
    alloc: Global,
    nets: &[Net],
    items: &[FlatItem],
    owners: &[u32],
    known: &Known,
) -> Result<Vec<Option<u32>>, AllocError>
    requires { IsKnown nets.now items.now known.now }
    ensures long { IfOk result (λ found. length found.items ≡ length items.now) }
    ensures each { IfOk result (λ found. (k : ℕ) (x : ItemOf) (o : Option ℕ) → slice_get items.now k ≡ Some x → slice_get found.items k ≡ Some o → IsLeastNet owners.now (spec.offending nets.now (take k items.now) items.now x) o) }
{
    let mut found = Vec::new(alloc);
    let mut before = Marks::new(alloc);
    let mut flow = FlowSets::new(alloc);
    for item in items {
        let net = item_net(alloc, nets, owners, known, &before, &mut flow, item)?;
        found.push(net)?;
        add_drives(alloc, nets, &mut before, &mut flow, item)?;
    }
    Ok(found)
}

/// What the bits of a design are.
fn bits_known(alloc: Global, nets: &[Net], items: &[FlatItem]) -> Result<Known, AllocError>
    ensures { IfOk result (λ known. IsKnown nets.now items.now known) }
{
    let driven = driven(alloc, nets, items)?;
    let inputs = input_bits(alloc, nets)?;
    let given = given_bits(alloc, nets)?;
    Ok(Known {
        driven,
        inputs,
        given,
    })
}

/// The first offence of the drivers: a bit with two drivers, at the later one; a bit that stands twice in the left side of an
/// assignment; an input that is driven; a bit without a driver that is read and needs one.
pub fn drive_offence(
    alloc: Global,
    nets: &[Net],
    items: &[FlatItem],
) -> Result<Option<Offence>, AllocError>
    requires row { AreInRow nets.now }
    requires few { length nets.now < 4294967296 }
    ensures first { IfOk result (λ o. IfSome o (λ f. IsFirstOffence items.now (spec.Offends nets.now items.now) f)) }
    ensures none { IfOk result (λ o. IfNone o ((k n : ℕ) → spec.Offends nets.now items.now k n → ⊥)) }
{
    let owners = owners(alloc, nets)?;
    let known = bits_known(alloc, nets, items)?;
    let found = item_nets(alloc, nets, items, owners.as_slice(), &known)?;
    Ok(first_offence(items, found.as_slice()))
}
