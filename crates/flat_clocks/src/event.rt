//! Offences by the events of a process.

ghost use Rattle.std.specs.Prelude.{◌≡◌, ℕ, List, Option};
ghost use Rattle.flat_clocks.specs.Events as spec;
ghost use Rattle.flat_clocks.specs.Signals as signals;
ghost use Rattle.flat_clocks.specs.declared.signal.Signal.{Signal as SignalOf};
ghost use Rattle.flat_design.specs.declared.item.FlatItem.{FlatItem as ItemOf};

use crate::role::{Roles, item_roles};
use crate::signal::{Seen, item_clock, item_reset};
use flat_design::item::{FlatEdge, FlatEvent, FlatItem};
use flat_ties::tie::net_in;

fn lacks_edge(edge: FlatEdge) -> bool
    ensures { result ≡ spec.lacks_edge edge }
{
    match edge {
        FlatEdge::Either => true,
        _ => false,
    }
}

fn falls(clock: Option<FlatEvent>) -> bool
    ensures { result ≡ spec.falls clock }
{
    match clock {
        None => false,
        Some(event) => match event.edge {
            FlatEdge::Falling => true,
            _ => false,
        },
    }
}

fn is_role(role: Option<FlatEvent>, event: FlatEvent) -> bool
    ensures { result ≡ spec.is_role role event }
{
    match role {
        None => false,
        Some(other) => other.net == event.net,
    }
}

/// Whether an event offends, where the clock offends or not, and the reset.
fn event_offends(
    sources: &[Option<u32>],
    roles: Roles,
    clock: bool,
    reset: bool,
    event: FlatEvent,
) -> bool
    ensures { result ≡ spec.event_offends sources.now roles clock reset event }
{
    let alone = lacks_edge(event.edge) || net_in(sources, event.net).is_none();
    let as_clock = clock && is_role(roles.clock, event);
    let as_reset = reset && is_role(roles.reset, event);
    alone || (as_clock || as_reset)
}

/// The net of the first event that offends.
fn offending_net(
    sources: &[Option<u32>],
    roles: Roles,
    clock: bool,
    reset: bool,
    events: &[FlatEvent],
) -> Option<u32>
    ensures { result ≡ spec.offending_net (spec.event_offends sources.now roles clock reset) events.now }
{
    for event in events {
        if event_offends(sources, roles, clock, reset, *event) {
            return Some(event.net);
        }
    }
    None
}

/// The net of the first of several events among which no clock can be told.
fn unclear_net(events: &[FlatEvent], roles: Roles) -> Option<u32>
    ensures { result ≡ spec.unclear_net events.now roles }
{
    let [first, _, ..] = events else {
        return None;
    };
    if roles.clock.is_none() {
        Some(first.net)
    } else {
        None
    }
}

/// The net that is carried where events offend.
fn events_net(
    sources: &[Option<u32>],
    roles: Roles,
    clock: bool,
    reset: bool,
    events: &[FlatEvent],
) -> Option<u32>
    ensures { result ≡ spec.events_net sources.now roles clock reset events.now }
{
    match offending_net(sources, roles, clock, reset, events) {
        Some(net) => Some(net),
        None => unclear_net(events, roles),
    }
}

/// The events of an item; none where no clock starts it.
fn item_events(item: &FlatItem) -> &[FlatEvent]
    ensures { result.now ≡ spec.item_events item.now }
{
    match item {
        FlatItem::Clocked {
            place: _,
            targets: _,
            events,
            body: _,
        } => events.as_slice(),
        FlatItem::Comb {
            place: _,
            targets: _,
            body: _,
        } => &[],
        FlatItem::Assign {
            place: _,
            targets: _,
            left: _,
            value: _,
            connection: _,
        } => &[],
    }
}

/// Whether the clock of an item offends, after items with these clocks.
fn clock_offends(sources: &[Option<u32>], clocks: Seen, item: &FlatItem) -> bool
    ensures { (before : List ItemOf) → ((s : Option SignalOf) → signals.differs_from clocks s ≡ spec.other_clock sources.now before s) → result ≡ spec.clock_offends sources.now before item.now }
{
    falls(item_roles(item).clock) || clocks.differs(item_clock(sources, item))
}

/// Whether the reset of an item offends, after items with these resets.
fn reset_offends(sources: &[Option<u32>], resets: Seen, item: &FlatItem) -> bool
    ensures { (before : List ItemOf) → ((s : Option SignalOf) → signals.differs_from resets s ≡ spec.other_reset sources.now before s) → result ≡ spec.reset_offends sources.now before item.now }
{
    resets.differs(item_reset(sources, item))
}

/// The net that is carried where an item offends by its events, after items with these clocks and resets.
pub fn process_net(
    sources: &[Option<u32>],
    clocks: Seen,
    resets: Seen,
    item: &FlatItem,
) -> Option<u32>
    ensures { (before : List ItemOf) → ((s : Option SignalOf) → signals.differs_from clocks s ≡ spec.other_clock sources.now before s) → ((s : Option SignalOf) → signals.differs_from resets s ≡ spec.other_reset sources.now before s) → result ≡ spec.process_net sources.now before item.now }
{
    let clock = clock_offends(sources, clocks, item);
    let reset = reset_offends(sources, resets, item);
    events_net(sources, item_roles(item), clock, reset, item_events(item))
}
