//! A checked design.

ghost use Rattle.std.specs.Prelude.{◌≡◌, IfOk, IfErr};
ghost use Rattle.flat_design.specs.Prices.{design_cost};
ghost use Rattle.flat_orders.specs.Orders.{IsOrder};
ghost use Rattle.flat_clocks.specs.Offences.{HasNoClockOffence};
ghost use Rattle.flat_checks.specs.Checks.{IsFree};
ghost use Rattle.vlog_design.specs.Clocks as clocks;
ghost use Rattle.vlog_design.specs.Refusals as spec;

use crate::check::check_marked;
use crate::clock::{first_clock, first_reset, mark_clock, signal_net};
use flat_clocks::signal::Signal;
use flat_design::item::FlatItem;
use flat_design::net::Net;
use flat_raw::raw::RawDesign;
use flat_ties::source::sources;
use std::alloc::Global;
use std::vec::Vec;
use vlog_tree::fault::VlogFault;

/// A flat design that no check refuses. `check` is its one maker.
#[derive(Drop)]
pub struct Design {
    /// The nets, of which the clock alone is marked as such.
    pub nets: Vec<Net>,
    pub items: Vec<FlatItem>,
    /// The numbers of the items that no clock starts, each after all that drive what it reads.
    pub order: Vec<usize>,
    /// The net of the clock, a top input; None where no process is clocked.
    pub clock: Option<u32>,
    /// The asynchronous reset, a top input: `high` where it is active at 1. None where no process has one.
    pub reset: Option<Signal>,
    /// What the design costs, 100,000 at most.
    pub cost: u32,
    pub ghost of_raw: { ∥ clocks.IsOfRaw nets.items items.items clock ∥₁ },
    pub ghost clock_is: { clocks.IsClock nets.items items.items clock },
    pub ghost reset_is: { clocks.IsReset nets.items items.items reset },
    pub ghost marked: { clocks.IsMarkedAt nets.items clock },
    pub ghost clocked: { ∥ HasNoClockOffence nets.items items.items ∥₁ },
    pub ghost free: { IsFree nets.items items.items },
    pub ghost ordered: { IsOrder nets.items items.items order.items },
    pub ghost priced: { cost ≡ design_cost nets.items items.items },
}

impl Design {
    /// The design of raw nets and items, with its clock marked, where no check refuses it. Else the first of the refusals that are due,
    /// at its least place: 211 a clock or a reset, 207 drivers, 210 a race, 209 a latch, 208 a cycle, 213 a design that is too large.
    pub fn check(alloc: Global, raw: RawDesign) -> Result<Design, VlogFault>
        ensures accepts { IfOk result (λ _. spec.IsAccepted raw.nets.items raw.items.items) }
        ensures nets { IfOk result (λ d. d.nets.items ≡ clocks.with_clock raw.nets.items d.clock) }
        ensures items { IfOk result (λ d. d.items.items ≡ raw.items.items) }
        ensures first_code { IfErr result (λ f. spec.IsRefused raw.nets.items raw.items.items f) }
    {
        let RawDesign { mut nets, items } = raw;
        let sources = sources(alloc, nets.as_slice(), items.as_slice())?;
        let clock = signal_net(first_clock(sources.as_slice(), items.as_slice()));
        let reset = first_reset(sources.as_slice(), items.as_slice());
        mark_clock(&mut nets, clock);
        let passed = check_marked(alloc, nets.as_slice(), items.as_slice())?;
        Ok(Design {
            nets,
            items,
            order: passed.order,
            clock,
            reset,
            cost: passed.cost,
        })
    }
}
