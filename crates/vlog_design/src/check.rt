//! The checks of a design whose clock is marked.

ghost use Rattle.std.specs.Prelude.{◌≡◌, ◌<◌, length, IfOk, IfErr};
ghost use Rattle.flat_design.specs.Bits.{bits_in};
ghost use Rattle.flat_raw.specs.Nets.{AreInRow};
ghost use Rattle.flat_clocks.specs.Offences.{HasNoClockOffence};
ghost use Rattle.flat_checks.specs.Checks.{IsPassed, IsRefusal};
ghost use Rattle.vlog_design.specs.Refusals as spec;

use crate::fault::{cycle_fault, offence_fault, path_fault};
use bit_base::place::Place;
use flat_checks::check::{Passed, Refusal, check_items};
use flat_clocks::clock::clock_offence;
use flat_design::item::FlatItem;
use flat_design::net::Net;
use sqlite_items::Items;
use std::alloc::{AllocError, Global};
use vlog_tree::fault::{VlogCode, VlogFault, fault_at};

/// The place of what is about a whole design.
const NO_PLACE: Place = Place {
    file: 0,
    line: 0,
    column: 0,
};

/// The fault of a refusal by a check below that of the clock.
fn refusal_fault(
    alloc: Global,
    nets: &[Net],
    items: &[FlatItem],
    refusal: Refusal,
) -> Result<VlogFault, AllocError>
    requires clocks { HasNoClockOffence nets.now items.now }
    requires refused { IsRefusal nets.now items.now refusal }
    ensures { IfOk result (λ f. spec.Refuses nets.now items.now f) }
{
    match refusal {
        Refusal::Drive(offence) => offence_fault(alloc, nets, VlogCode::VlogDrive, offence),
        Refusal::Race(offence) => offence_fault(alloc, nets, VlogCode::VlogRace, offence),
        Refusal::Latch(latch) => {
            let path = Items::from_vec(latch.path);
            path_fault(alloc, nets, VlogCode::VlogLatch, latch.offence, path)
        }
        Refusal::Cycle(cycle) => cycle_fault(alloc, nets, &cycle),
        Refusal::Size => Ok(fault_at(alloc, VlogCode::VlogSize, NO_PLACE)),
    }
}

/// The checks of a design without offences of clocks.
fn check_rest(alloc: Global, nets: &[Net], items: &[FlatItem]) -> Result<Passed, VlogFault>
    requires row { AreInRow nets.now }
    requires few { length nets.now < 4294967296 }
    requires bits { bits_in nets.now < 4294967296 }
    requires clocks { HasNoClockOffence nets.now items.now }
    ensures passed { IfOk result (λ p. IsPassed nets.now items.now p) }
    ensures refused { IfErr result (λ f. spec.Refuses nets.now items.now f) }
{
    match check_items(alloc, nets, items)? {
        Ok(passed) => Ok(passed),
        Err(refusal) => {
            let fault = refusal_fault(alloc, nets, items, refusal)?;
            Err(fault)
        }
    }
}

/// An order of the items of a design and its cost, or the first of the refusals that are due: clocks, drivers, races, latches, cycles,
/// size.
pub fn check_marked(alloc: Global, nets: &[Net], items: &[FlatItem]) -> Result<Passed, VlogFault>
    requires row { AreInRow nets.now }
    requires few { length nets.now < 4294967296 }
    requires bits { bits_in nets.now < 4294967296 }
    ensures clocks { IfOk result (λ _. HasNoClockOffence nets.now items.now) }
    ensures passed { IfOk result (λ p. IsPassed nets.now items.now p) }
    ensures refused { IfErr result (λ f. spec.Refuses nets.now items.now f) }
{
    match clock_offence(alloc, nets, items)? {
        None => check_rest(alloc, nets, items),
        Some(offence) => {
            let fault = offence_fault(alloc, nets, VlogCode::VlogClock, offence)?;
            Err(fault)
        }
    }
}
