//! The cost of a flat design, and whether the design is too large.

ghost use Rattle.std.specs.Prelude.{◌≡◌, ◌+◌, ◌<◌, ◌≤◌, ◌↔◌, ℕ, min, map, sum, true, false, replicate, IsNone, IfOk, IfSome};
ghost use Rattle.flat_design.specs.Bits.{bits_in};
ghost use Rattle.flat_design.specs.Prices as spec;
ghost use Rattle.flat_cost.specs.Cuts.{limit};
ghost use Rattle.flat_loads.specs.Sizes.{is_too_large};

use crate::cost::item_cost;
use flat_cost::price::{LIMIT, capped};
use flat_cost::sources::{register_bits, source_bits};
use flat_design::item::FlatItem;
use flat_design::net::Net;
use flat_sets::NumberSet;
use std::alloc::{AllocError, Global};

/// The most bits of registers.
const MOST_REGISTER_BITS: u64 = 4096;

/// How many flat bits there are.
fn bits_in(nets: &[Net]) -> usize
    requires { bits_in nets.now < 4294967296 }
    ensures { result ≡ bits_in nets.now }
{
    let mut bits = 0;
    for net in nets {
        bits += net.width as usize;
    }
    bits
}

fn items_cost(alloc: Global, nets: &[Net], items: &[FlatItem]) -> Result<u64, AllocError>
    requires { bits_in nets.now < 4294967296 }
    ensures { IfOk result (λ c. c ≡ min (sum (map (spec.item_cost nets.now) items.now)) limit) }
{
    let mut set = NumberSet::empty(alloc, bits_in(nets))?;
    let mut cost = 0;
    for item in items {
        let one = item_cost(alloc, nets, &mut set, item)?;
        cost = capped(cost as u128 + one as u128);
    }
    Ok(cost)
}

/// What a design costs, counted up to the limit.
pub fn design_cost(alloc: Global, nets: &[Net], items: &[FlatItem]) -> Result<u64, AllocError>
    requires { bits_in nets.now < 4294967296 }
    ensures { IfOk result (λ c. c ≡ min (spec.design_cost nets.now items.now) limit) }
{
    let items = items_cost(alloc, nets, items)?;
    Ok(capped(1 + source_bits(nets) as u128 + items as u128))
}

/// The cost of a design, None exactly where it is too large: where its registers have over 4,096 bits, or it costs over 100,000.
pub fn cost_within(
    alloc: Global,
    nets: &[Net],
    items: &[FlatItem],
) -> Result<Option<u32>, AllocError>
    requires { bits_in nets.now < 4294967296 }
    ensures none { IfOk result (λ o. IsNone o ↔ (is_too_large nets.now items.now ≡ true)) }
    ensures cost { IfOk result (λ o. IfSome o (λ c. c ≡ spec.design_cost nets.now items.now)) }
{
    let cost = design_cost(alloc, nets, items)?;
    if register_bits(nets) > MOST_REGISTER_BITS || cost >= LIMIT {
        return Ok(None);
    }
    Ok(Some(cost as u32))
}
