//! The first latch of a design.

ghost use Rattle.std.specs.Prelude.{◌≡◌, ◌<◌, ◌↔◌, ℕ, Option, Some, length, slice_get, IsTrue, IfOk, IfSome, IfNone, IsSomeAnd};
ghost use Rattle.flat_design.specs.Systems.{place_of as placed};
ghost use Rattle.flat_raw.specs.Nets.{AreInRow};
ghost use Rattle.flat_offences.specs.Owners.{AreOwners};
ghost use Rattle.flat_offences.specs.Offences.{IsFirstOffence, Found};
ghost use Rattle.flat_latched.specs.Latched.{Latches, IsFirstLatch};
ghost use Rattle.flat_latched.specs.Least.{IsNetOf, IsAt};
ghost use Rattle.flat_design.specs.declared.item.FlatItem.{FlatItem as ItemOf};

use crate::item::{item_latch, item_net};
use flat_design::item::FlatItem;
use flat_design::net::Net;
use flat_flows::item::FlowSets;
use flat_offences::offence::{Offence, first_offence, place_of};
use flat_offences::owner::owners;
use std::alloc::{AllocError, Global};
use std::vec::Vec;

/// The latch that is answered of a design: the place of its process, its net, and a path through the process that leaves a bit of the
/// net unassigned: one number for each `if` and `case` on the way, 0 or 1 for the branches of an `if`, for a case the number of the
/// arm from 0, or that of its arms for its default or where no label matches.
#[derive(Debug, Drop)]
pub struct DesignLatch {
    pub offence: Offence,
    pub path: Vec<u32>,
}

/// For each item the first of the nets in which it has a latch.
fn item_nets(
    alloc: Global,
    nets: &[Net],
    items: &[FlatItem],
    owners: &[u32],
) -> Result<Vec<Option<u32>>, AllocError>
    requires row { AreInRow nets.now }
    requires owners { AreOwners nets.now owners.now }
    ensures long { IfOk result (λ found. length found.items ≡ length items.now) }
    ensures each { IfOk result (λ found. (k : ℕ) (x : ItemOf) (o : Option ℕ) → slice_get items.now k ≡ Some x → slice_get found.items k ≡ Some o → IsNetOf nets.now x o) }
{
    let mut found = Vec::new(alloc);
    let mut flow = FlowSets::new(alloc);
    for item in items {
        let net = item_net(alloc, nets, owners, &mut flow, item)?;
        found.push(net)?;
    }
    Ok(found)
}

/// An item stands at the place of an offence, and the net of that was found for it.
fn is_at(item: &FlatItem, found: Option<u32>, offence: Offence) -> bool
    ensures { IsTrue result ↔ ((placed item.now ≡ offence.place) × (found ≡ Some offence.net)) }
{
    place_of(item) == offence.place && found == Some(offence.net)
}

/// An item at the place of an offence for which the net of that was found.
fn item_at<'a>(
    items: &'a [FlatItem],
    found: &[Option<u32>],
    offence: Offence,
) -> Option<&'a FlatItem>
    requires { length found.now ≡ length items.now }
    ensures at { IfSome result (λ x. IsAt items.now found.now offence x.now) }
    ensures none { IfNone result ((x : ItemOf) → IsAt items.now found.now offence x → ⊥) }
{
    for k in 0..items.len() {
        let item = &items[k];
        if is_at(item, found[k], offence) {
            return Some(item);
        }
    }
    None
}

/// The offence with the path of a process at its place.
fn with_path(
    alloc: Global,
    nets: &[Net],
    items: &[FlatItem],
    owners: &[u32],
    found: &[Option<u32>],
    offence: Offence,
) -> Result<Option<DesignLatch>, AllocError>
    requires row { AreInRow nets.now }
    requires owners { AreOwners nets.now owners.now }
    requires long { length found.now ≡ length items.now }
    requires each { (k : ℕ) (x : ItemOf) (o : Option ℕ) → slice_get items.now k ≡ Some x → slice_get found.now k ≡ Some o → IsNetOf nets.now x o }
    requires first { IsFirstOffence items.now (Found found.now) offence }
    ensures { IfOk result (λ o. IsSomeAnd o (λ l. IsFirstLatch nets.now items.now l.offence l.path.items)) }
{
    let Some(item) = item_at(items, found, offence) else {
        return Ok(None);
    };
    let mut flow = FlowSets::new(alloc);
    match item_latch(alloc, nets, owners, &mut flow, item)? {
        None => Ok(None),
        Some(latch) => Ok(Some(DesignLatch {
            offence,
            path: latch.path,
        })),
    }
}

/// The first latch of a design: that of a combinational process at the least place of those that have one, about the first net that such
/// a process at this place assigns and leaves unassigned on some path. None exactly where there is none.
pub fn latch_offence(
    alloc: Global,
    nets: &[Net],
    items: &[FlatItem],
) -> Result<Option<DesignLatch>, AllocError>
    requires row { AreInRow nets.now }
    requires few { length nets.now < 4294967296 }
    ensures first { IfOk result (λ o. IfSome o (λ l. IsFirstLatch nets.now items.now l.offence l.path.items)) }
    ensures none { IfOk result (λ o. IfNone o ((k n : ℕ) → Latches nets.now items.now k n → ⊥)) }
{
    let owners = owners(alloc, nets)?;
    let found = item_nets(alloc, nets, items, owners.as_slice())?;
    let Some(offence) = first_offence(items, found.as_slice()) else {
        return Ok(None);
    };
    with_path(
        alloc,
        nets,
        items,
        owners.as_slice(),
        found.as_slice(),
        offence,
    )
}
