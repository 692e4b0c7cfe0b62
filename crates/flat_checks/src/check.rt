//! The checks of a design, in their order.

ghost use Rattle.std.specs.Prelude.{◌≡◌, ◌<◌, ◌↔◌, length, List, IsOk, IfOk, IfErr};
ghost use Rattle.flat_design.specs.Bits.{bits_in};
ghost use Rattle.flat_orders.specs.Orders.{HaveSingleDrivers, IsOrder};
ghost use Rattle.flat_raw.specs.Nets.{AreInRow};
ghost use Rattle.flat_driven.specs.Driven.{HaveDrivers};
ghost use Rattle.flat_design.specs.declared.net.Net.{Net as NetOf};
ghost use Rattle.flat_ordered.specs.Firsts.{IsFirstCycle};
ghost use Rattle.flat_checks.specs.Cycles.{AreAssigning};
ghost use Rattle.flat_checks.specs.Checks.{HaveNoRaces, HaveNoLatches, IsFree, IsPassed, IsRefusal, IsAnswer};

use crate::cycle::{ItemCycle, shown_cycle};
use flat_design::item::FlatItem;
use flat_design::net::Net;
use flat_driven::driving::driver_offence;
use flat_latched::latched::{DesignLatch, latch_offence};
use flat_loads::size::cost_within;
use flat_loops::sort::Sorting;
use flat_offences::offence::Offence;
use flat_ordered::ordered::order_or_cycle;
use flat_races::race::race_offence;
use std::alloc::{AllocError, Global};
use std::vec::Vec;

/// Why a design is refused, by the first kind of offence that it has, in this order.
#[derive(Debug, Drop)]
pub enum Refusal {
    /// 207: a bit has two drivers, or none though it needs one, or stands twice in a left side, or is an input's.
    Drive(Offence),
    /// 210: what the design comes to would depend on the order in which its processes run.
    Race(Offence),
    /// 209: a combinational process leaves a bit that it assigns unassigned on a path.
    Latch(DesignLatch),
    /// 208: items that no clock starts wait for each other.
    Cycle(ItemCycle),
    /// 213: the registers have over 4,096 bits, or the design costs over 100,000.
    Size,
}

/// What the checks find of a design without offences: an order of the numbers of the items that no clock starts, each after all that
/// drive what it reads, and what the design costs.
#[derive(Debug, Drop)]
pub struct Passed {
    pub order: Vec<usize>,
    pub cost: u32,
}

/// The size of a design that is in order.
fn check_size(
    alloc: Global,
    nets: &[Net],
    items: &[FlatItem],
    order: Vec<usize>,
) -> Result<Result<Passed, Refusal>, AllocError>
    requires bits { bits_in nets.now < 4294967296 }
    requires drivers { HaveDrivers nets.now items.now }
    requires races { HaveNoRaces nets.now items.now }
    requires latches { HaveNoLatches nets.now items.now }
    requires order { IsOrder nets.now items.now order.items }
    ensures { IfOk result (IsAnswer nets.now items.now) }
{
    match cost_within(alloc, nets, items)? {
        None => Ok(Err(Refusal::Size)),
        Some(cost) => Ok(Ok(Passed { order, cost })),
    }
}

/// The refusal of a design with a cycle.
fn refuse_cycle(
    alloc: Global,
    items: &[FlatItem],
    numbers: &[usize],
) -> Result<Result<Passed, Refusal>, AllocError>
    requires { AreAssigning items.now numbers.now }
    ensures { (nets : List NetOf) → HaveDrivers nets items.now → HaveNoRaces nets items.now → HaveNoLatches nets items.now → IsFirstCycle nets items.now numbers.now → IfOk result (IsAnswer nets items.now) }
{
    let cycle = shown_cycle(alloc, items, numbers)?;
    Ok(Err(Refusal::Cycle(cycle)))
}

/// The order of a design without latches, and its size.
fn check_order(
    alloc: Global,
    nets: &[Net],
    items: &[FlatItem],
) -> Result<Result<Passed, Refusal>, AllocError>
    requires bits { bits_in nets.now < 4294967296 }
    requires drivers { HaveDrivers nets.now items.now }
    requires single { HaveSingleDrivers nets.now items.now }
    requires races { HaveNoRaces nets.now items.now }
    requires latches { HaveNoLatches nets.now items.now }
    ensures { IfOk result (IsAnswer nets.now items.now) }
{
    match order_or_cycle(alloc, nets, items)? {
        Sorting::Order(order) => check_size(alloc, nets, items, order),
        Sorting::Loop(numbers) => refuse_cycle(alloc, items, numbers.as_slice()),
    }
}

/// The latches of a design without races, and what comes after.
fn check_latches(
    alloc: Global,
    nets: &[Net],
    items: &[FlatItem],
) -> Result<Result<Passed, Refusal>, AllocError>
    requires row { AreInRow nets.now }
    requires few { length nets.now < 4294967296 }
    requires bits { bits_in nets.now < 4294967296 }
    requires drivers { HaveDrivers nets.now items.now }
    requires single { HaveSingleDrivers nets.now items.now }
    requires races { HaveNoRaces nets.now items.now }
    ensures { IfOk result (IsAnswer nets.now items.now) }
{
    match latch_offence(alloc, nets, items)? {
        None => check_order(alloc, nets, items),
        Some(latch) => Ok(Err(Refusal::Latch(latch))),
    }
}

/// The races of a design with its drivers, and what comes after.
fn check_races(
    alloc: Global,
    nets: &[Net],
    items: &[FlatItem],
) -> Result<Result<Passed, Refusal>, AllocError>
    requires row { AreInRow nets.now }
    requires few { length nets.now < 4294967296 }
    requires bits { bits_in nets.now < 4294967296 }
    requires drivers { HaveDrivers nets.now items.now }
    requires single { HaveSingleDrivers nets.now items.now }
    ensures { IfOk result (IsAnswer nets.now items.now) }
{
    match race_offence(alloc, nets, items)? {
        None => check_latches(alloc, nets, items),
        Some(offence) => Ok(Err(Refusal::Race(offence))),
    }
}

/// The drivers of a design, and what comes after.
fn check_all(
    alloc: Global,
    nets: &[Net],
    items: &[FlatItem],
) -> Result<Result<Passed, Refusal>, AllocError>
    requires row { AreInRow nets.now }
    requires few { length nets.now < 4294967296 }
    requires bits { bits_in nets.now < 4294967296 }
    ensures { IfOk result (IsAnswer nets.now items.now) }
{
    match driver_offence(alloc, nets, items)? {
        None => check_races(alloc, nets, items),
        Some(offence) => Ok(Err(Refusal::Drive(offence))),
    }
}

/// Checks a design: an order of its items and its cost, or the first offence of the first kind of which it has one: drivers, races,
/// latches, cycles, size.
pub fn check_items(
    alloc: Global,
    nets: &[Net],
    items: &[FlatItem],
) -> Result<Result<Passed, Refusal>, AllocError>
    requires row { AreInRow nets.now }
    requires few { length nets.now < 4294967296 }
    requires bits { bits_in nets.now < 4294967296 }
    ensures accepts { IfOk result (λ c. IsOk c ↔ IsFree nets.now items.now) }
    ensures passed { IfOk result (λ c. IfOk c (IsPassed nets.now items.now)) }
    ensures first_code { IfOk result (λ c. IfErr c (IsRefusal nets.now items.now)) }
{
    let checked = check_all(alloc, nets, items)?;
    Ok(checked)
}
