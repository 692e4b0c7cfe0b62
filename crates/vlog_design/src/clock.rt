//! The clock and the reset of a design.

ghost use Rattle.std.specs.Prelude.{◌≡◌};
ghost use Rattle.vlog_design.specs.Clocks as spec;

use flat_clocks::signal::{Signal, item_clock, item_reset};
use flat_design::item::FlatItem;
use flat_design::net::{Net, NetKind};
use std::vec::Vec;

/// The clock of the first process that has one, as far as it can be told, by the sources of the nets.
pub fn first_clock(sources: &[Option<u32>], items: &[FlatItem]) -> Option<Signal>
    ensures { result ≡ spec.first_clock sources.now items.now }
{
    for item in items {
        if let Some(clock) = item_clock(sources, item) {
            return Some(clock);
        }
    }
    None
}

/// The asynchronous reset of the first process that has one, as far as it can be told, by the sources of the nets.
pub fn first_reset(sources: &[Option<u32>], items: &[FlatItem]) -> Option<Signal>
    ensures { result ≡ spec.first_reset sources.now items.now }
{
    for item in items {
        if let Some(reset) = item_reset(sources, item) {
            return Some(reset);
        }
    }
    None
}

/// The net of a signal.
pub fn signal_net(signal: Option<Signal>) -> Option<u32>
    ensures { result ≡ spec.signal_net signal }
{
    let signal = signal?;
    Some(signal.net)
}

/// Marks a net as the clock.
fn mark(nets: &mut Vec<Net>, number: usize)
    ensures { nets.new.items ≡ spec.with_clock nets.old.items (Some number) }
{
    if number < nets.len() {
        nets[number].kind = NetKind::Clock;
    }
}

/// Marks the net of the clock, if there is one.
pub fn mark_clock(nets: &mut Vec<Net>, clock: Option<u32>)
    ensures { nets.new.items ≡ spec.with_clock nets.old.items clock }
{
    match clock {
        None => {}
        Some(number) => mark(nets, number as usize),
    }
}
