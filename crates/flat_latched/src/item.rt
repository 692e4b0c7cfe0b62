//! The latch of an item in its first net.

ghost use Rattle.std.specs.Prelude.{◌≡◌, ◌<◌, length, ℕ, List, OnOk, IfOk};
ghost use Rattle.flat_raw.specs.Nets.{AreInRow};
ghost use Rattle.flat_offences.specs.Owners.{AreOwners};
ghost use Rattle.flat_latches.specs.Latches.{IsLatch};
ghost use Rattle.flat_latched.specs.Least.{IsItemAnswer, IsNetOf};
ghost use Rattle.flat_design.specs.declared.net.Net.{Net as NetOf};
ghost use Rattle.flat_design.specs.declared.item.FlatItem.{FlatItem as ItemOf};

use flat_design::item::FlatItem;
use flat_design::net::Net;
use flat_flows::item::FlowSets;
use flat_latches::latch::{Latch, latch_of};
use sqlite_items::at;
use std::alloc::{AllocError, Global};
use std::vec::Vec;

/// A net of which a combinational process assigns a bit that the path leaves unassigned.
#[derive(Debug, Drop)]
pub struct NetLatch {
    pub net: u32,
    pub path: Vec<u32>,
}

/// A latch with the net of its bit.
fn net_latch(owners: &[u32], latch: Latch) -> Option<NetLatch>
    ensures { (nets : List NetOf) (item : ItemOf) → AreInRow nets → AreOwners nets owners.now → IsLatch nets item latch.bit latch.path.items → IsItemAnswer nets item result }
{
    match at(owners, latch.bit) {
        None => None,
        Some(net) => Some(NetLatch {
            net: *net,
            path: latch.path,
        }),
    }
}

/// The latch of an item in the first of the nets in which it has one.
pub fn item_latch(
    alloc: Global,
    nets: &[Net],
    owners: &[u32],
    flow: &mut FlowSets,
    item: &FlatItem,
) -> Result<Option<NetLatch>, AllocError>
    requires row { AreInRow nets.now }
    requires owners { AreOwners nets.now owners.now }
    ensures { IfOk result (IsItemAnswer nets.now item.now) }
{
    flow.fill(alloc, nets, item)?;
    match latch_of(alloc, nets, item, flow)? {
        None => Ok(None),
        Some(latch) => Ok(net_latch(owners, latch)),
    }
}

/// The first of the nets in which an item has a latch.
pub fn item_net(
    alloc: Global,
    nets: &[Net],
    owners: &[u32],
    flow: &mut FlowSets,
    item: &FlatItem,
) -> Result<Option<u32>, AllocError>
    requires row { AreInRow nets.now }
    requires owners { AreOwners nets.now owners.now }
    ensures { IfOk result (IsNetOf nets.now item.now) }
{
    match item_latch(alloc, nets, owners, flow, item)? {
        None => Ok(None),
        Some(latch) => Ok(Some(latch.net)),
    }
}
