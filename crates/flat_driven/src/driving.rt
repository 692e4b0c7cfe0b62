//! The first offence of the drivers of a design.

ghost use Rattle.std.specs.Prelude.{◌≡◌, ◌<◌, length, IfOk, IfSome, IfNone};
ghost use Rattle.flat_orders.specs.Orders.{HaveSingleDrivers};
ghost use Rattle.flat_raw.specs.Nets.{AreInRow};
ghost use Rattle.flat_driven.specs.Driven as spec;

use bit_base::place::Place;
use flat_design::item::FlatItem;
use flat_design::net::Net;
use flat_drives::offending::drive_offence;
use flat_drives::open::open_net;
use flat_offences::offence::Offence;
use std::alloc::{AllocError, Global};

/// An output without a driver has no place.
fn open_offence(net: u32) -> Offence
    ensures { result ≡ spec.open_offence net }
{
    Offence {
        place: Place {
            file: 0,
            line: 0,
            column: 0,
        },
        net,
    }
}

/// The first offence of the drivers of a design: that of an item, at the least place and about the first net; else, at place 0:0,
/// the first net that has a bit of an output without a driver. None where each bit that needs a driver has one, and none has two.
pub fn driver_offence(
    alloc: Global,
    nets: &[Net],
    items: &[FlatItem],
) -> Result<Option<Offence>, AllocError>
    requires row { AreInRow nets.now }
    requires few { length nets.now < 4294967296 }
    ensures first { IfOk result (λ o. IfSome o (λ f. spec.IsDriverOffence nets.now items.now f)) }
    ensures none { IfOk result (λ o. IfNone o (spec.HaveDrivers nets.now items.now)) }
    ensures single { IfOk result (λ o. IfNone o (HaveSingleDrivers nets.now items.now)) }
{
    if let Some(offence) = drive_offence(alloc, nets, items)? {
        return Ok(Some(offence));
    }
    let net = open_net(alloc, nets, items)?;
    match net {
        None => Ok(None),
        Some(net) => Ok(Some(open_offence(net))),
    }
}
