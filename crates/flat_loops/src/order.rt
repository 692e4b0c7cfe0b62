//! An order of the items that no clock starts, or a cycle of them.

ghost use Rattle.std.specs.Prelude.{IfOk};
ghost use Rattle.flat_orders.specs.Orders.{HaveSingleDrivers};
ghost use Rattle.flat_loops.specs.Orderings.{IsOrdering};

use crate::feeds::{graph_of, unclocked};
use crate::sort::{Sorting, sort};
use flat_design::item::FlatItem;
use flat_design::net::Net;
use std::alloc::{AllocError, Global};

/// An order of the items that no clock starts, each after all that drive what it reads; or a cycle of such items, each reading what
/// the next drives.
pub fn order_of(alloc: Global, nets: &[Net], items: &[FlatItem]) -> Result<Sorting, AllocError>
    requires single { HaveSingleDrivers nets.now items.now }
    ensures { IfOk result (IsOrdering nets.now items.now) }
{
    let graph = graph_of(alloc, nets, items)?;
    let numbers = unclocked(alloc, items)?;
    sort(alloc, &graph, numbers.as_slice())
}
