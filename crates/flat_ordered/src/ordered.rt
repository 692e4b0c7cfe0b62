//! An order of the items, or the cycle that is shown.

ghost use Rattle.std.specs.Prelude.{◌≡◌, map, IfOk};
ghost use Rattle.flat_design.specs.Systems.{place_of as placed};
ghost use Rattle.flat_orders.specs.Orders.{HaveSingleDrivers};
ghost use Rattle.flat_ordered.specs.Firsts.{IsOrdered};

use crate::first::first_round;
use bit_base::place::Place;
use flat_design::item::FlatItem;
use flat_design::net::Net;
use flat_loops::feeds::{graph_of, unclocked};
use flat_loops::sort::{Sorting, sort};
use flat_offences::offence::place_of;
use std::alloc::{AllocError, Global};
use std::vec::Vec;

/// The places of these items.
fn places_of(alloc: Global, items: &[FlatItem]) -> Result<Vec<Place>, AllocError>
    ensures { IfOk result (λ places. places.items ≡ map placed items.now) }
{
    let mut places = Vec::new(alloc);
    for item in items {
        places.push(place_of(item))?;
    }
    Ok(places)
}

/// An order of the items that no clock starts, each after all that drive what it reads. Where there is none, a shortest cycle of those
/// that begin at their first item in text order, at the least place of such items.
pub fn order_or_cycle(
    alloc: Global,
    nets: &[Net],
    items: &[FlatItem],
) -> Result<Sorting, AllocError>
    requires single { HaveSingleDrivers nets.now items.now }
    ensures { IfOk result (IsOrdered nets.now items.now) }
{
    let graph = graph_of(alloc, nets, items)?;
    let numbers = unclocked(alloc, items)?;
    match sort(alloc, &graph, numbers.as_slice())? {
        Sorting::Order(order) => Ok(Sorting::Order(order)),
        Sorting::Loop(found) => {
            let places = places_of(alloc, items)?;
            match first_round(alloc, &graph, places.as_slice())? {
                None => Ok(Sorting::Loop(found)),
                Some(best) => Ok(Sorting::Loop(best.round)),
            }
        }
    }
}
