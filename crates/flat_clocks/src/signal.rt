//! Clocks and resets as top inputs.

ghost use Rattle.std.specs.Prelude.{◌≡◌, ◌||◌, ℕ, Option, Some};
ghost use Rattle.flat_clocks.specs.Signals as spec;
ghost use Rattle.flat_clocks.specs.declared.signal.Signal.{Signal as SignalOf};

use crate::role::item_roles;
use flat_design::item::{FlatEdge, FlatEvent, FlatItem};
use flat_ties::tie::net_in;

/// A top input with a level: `high` where it is active at 1, else at 0. A clock counts as high.
#[derive(Clone, Copy, Debug, PartialEq, Eq, Drop)]
pub struct Signal {
    pub net: u32,
    pub high: bool,
}

/// Whether an edge is a rising one.
pub fn rises(edge: FlatEdge) -> bool
    ensures { result ≡ spec.rises edge }
{
    match edge {
        FlatEdge::Rising => true,
        _ => false,
    }
}

fn signal_by(net: Option<u32>, high: bool) -> Option<Signal>
    ensures { result ≡ spec.signal_by net high }
{
    let net = net?;
    Some(Signal { net, high })
}

/// The top input that a clock comes from.
pub fn clock_signal(sources: &[Option<u32>], clock: Option<FlatEvent>) -> Option<Signal>
    ensures { result ≡ spec.clock_signal sources.now clock }
{
    let event = clock?;
    signal_by(net_in(sources, event.net), true)
}

/// The top input that a reset comes from, with its level.
pub fn reset_signal(sources: &[Option<u32>], reset: Option<FlatEvent>) -> Option<Signal>
    ensures { result ≡ spec.reset_signal sources.now reset }
{
    let event = reset?;
    signal_by(net_in(sources, event.net), rises(event.edge))
}

/// The clock of an item.
pub fn item_clock(sources: &[Option<u32>], item: &FlatItem) -> Option<Signal>
    ensures { result ≡ spec.item_clock sources.now item.now }
{
    clock_signal(sources, item_roles(item).clock)
}

/// The reset of an item.
pub fn item_reset(sources: &[Option<u32>], item: &FlatItem) -> Option<Signal>
    ensures { result ≡ spec.item_reset sources.now item.now }
{
    reset_signal(sources, item_roles(item).reset)
}

/// Whether two signals that are there aren't the same.
fn differ(a: Signal, b: Option<Signal>) -> bool
    ensures { result ≡ spec.differ (Some a) b }
{
    match b {
        None => false,
        Some(b) => a.net != b.net || a.high != b.high,
    }
}

/// The signals that were seen: none, one alone, or several.
#[derive(Clone, Copy, Debug, PartialEq, Eq, Drop)]
pub enum Seen {
    Nothing,
    One(Signal),
    Several,
}

impl Seen {
    /// Whether a signal differs from one that was seen.
    pub fn differs(self, signal: Option<Signal>) -> bool
        ensures { result ≡ spec.differs_from self signal }
    {
        match self {
            Seen::Nothing => false,
            Seen::One(seen) => differ(seen, signal),
            Seen::Several => signal.is_some(),
        }
    }

    /// What was seen, with one more signal.
    pub fn with(self, signal: Option<Signal>) -> Seen
        ensures { (b : Option SignalOf) → spec.differs_from result b ≡ (spec.differs_from self b || spec.differ signal b) }
    {
        let Some(next) = signal else {
            return self;
        };
        match self {
            Seen::Nothing => Seen::One(next),
            Seen::One(seen) => one_more(seen, next),
            Seen::Several => Seen::Several,
        }
    }
}

/// Two signals that were seen.
fn one_more(seen: Signal, next: Signal) -> Seen
    ensures { (b : Option SignalOf) → spec.differs_from result b ≡ (spec.differ (Some seen) b || spec.differ (Some next) b) }
{
    if differ(seen, Some(next)) {
        Seen::Several
    } else {
        Seen::One(seen)
    }
}
