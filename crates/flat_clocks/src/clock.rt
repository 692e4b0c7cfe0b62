//! The first offence of clocks and resets.

ghost use Rattle.std.specs.Prelude.{◌≡◌, ◌<◌, ℕ, List, Option, Some, length, take, slice_get, IfOk, IfSome, IfNone};
ghost use Rattle.flat_raw.specs.Nets.{AreInRow};
ghost use Rattle.flat_clocks.specs.Events as events;
ghost use Rattle.flat_clocks.specs.Signals as signals;
ghost use Rattle.flat_clocks.specs.Least as least;
ghost use Rattle.flat_clocks.specs.Offences as spec;
ghost use Rattle.flat_clocks.specs.declared.signal.Signal.{Signal as SignalOf};
ghost use Rattle.flat_design.specs.declared.item.FlatItem.{FlatItem as ItemOf};

use crate::event::process_net;
use crate::reading::{bit_clocks, clock_read};
use crate::signal::{Seen, item_clock, item_reset};
use flat_design::item::FlatItem;
use flat_design::net::Net;
use flat_flows::item::FlowSets;
use flat_offences::offence::{Offence, first_offence};
use flat_ties::source::sources;
use std::alloc::{AllocError, Global};
use std::vec::Vec;

/// The net that is carried where an item offends, after items with these clocks and resets.
fn item_net(
    alloc: Global,
    nets: &[Net],
    sources: &[Option<u32>],
    table: &[Option<u32>],
    clocks: Seen,
    resets: Seen,
    flow: &mut FlowSets,
    item: &FlatItem,
) -> Result<Option<u32>, AllocError>
    ensures { (before : List ItemOf) → ((s : Option SignalOf) → signals.differs_from clocks s ≡ events.other_clock sources.now before s) → ((s : Option SignalOf) → signals.differs_from resets s ≡ events.other_reset sources.now before s) → IfOk result (λ o. least.IsLeastOf (least.OffendsBy nets.now sources.now table.now before item.now) o) }
{
    let read = clock_read(alloc, nets, table, flow, item)?;
    match read {
        Some(clock) => Ok(Some(clock)),
        None => Ok(process_net(sources, clocks, resets, item)),
    }
}

/// For each item the net that is carried where it offends.
fn item_nets(
    alloc: Global,
    nets: &[Net],
    items: &[FlatItem],
    sources: &[Option<u32>],
    table: &[Option<u32>],
) -> Result<Vec<Option<u32>>, AllocError>
    ensures long { IfOk result (λ found. length found.items ≡ length items.now) }
    ensures each { IfOk result (λ found. (k : ℕ) (x : ItemOf) (o : Option ℕ) → slice_get items.now k ≡ Some x → slice_get found.items k ≡ Some o → least.IsLeastOf (least.OffendsBy nets.now sources.now table.now (take k items.now) x) o) }
{
    let mut found = Vec::new(alloc);
    let mut flow = FlowSets::new(alloc);
    let mut clocks = Seen::Nothing;
    let mut resets = Seen::Nothing;
    for item in items {
        let net = item_net(alloc, nets, sources, table, clocks, resets, &mut flow, item)?;
        found.push(net)?;
        clocks = clocks.with(item_clock(sources, item));
        resets = resets.with(item_reset(sources, item));
    }
    Ok(found)
}

/// The first offence of clocks and resets: a clocked process with a falling clock, an event without an edge, over two events, a clock or
/// reset that comes from no top input, another clock or reset than a process before it, or no outermost `if` on its reset; or an item
/// that reads the clock and is no plain port connection.
pub fn clock_offence(
    alloc: Global,
    nets: &[Net],
    items: &[FlatItem],
) -> Result<Option<Offence>, AllocError>
    requires row { AreInRow nets.now }
    requires few { length nets.now < 4294967296 }
    ensures first { IfOk result (λ o. IfSome o (λ f. spec.IsClockOffence nets.now items.now f)) }
    ensures none { IfOk result (λ o. IfNone o (spec.HasNoClockOffence nets.now items.now)) }
{
    let sources = sources(alloc, nets, items)?;
    let table = bit_clocks(alloc, nets, items, sources.as_slice())?;
    let found = item_nets(alloc, nets, items, sources.as_slice(), table.as_slice())?;
    Ok(first_offence(items, found.as_slice()))
}
