//! The cost of assignments.

ghost use Rattle.std.specs.Prelude.{◌≡◌, ◌+◌, ◌*◌, ◌^◌, ◌<◌, min, Some};
ghost use Rattle.flat_design.specs.Bits.{net_at};
ghost use Rattle.flat_design.specs.Prices as spec;
ghost use Rattle.flat_cost.specs.Cuts.{limit, cut};

use crate::price::{Price, capped, price_of, width_of};
use flat_design::expr::FlatExpr;
use flat_design::net::Net;
use flat_design::stmt::FlatLeft;

/// What a select costs that is written, of so many bits of a net of `n` bits: nothing where its index is constant.
fn write_cost(n: u32, width: u32, index: Price) -> u128
    ensures cost { (p : spec.Price) → index ≡ cut p → result ≡ spec.write_cost n width p }
    ensures below { result < 2 ^ 80 }
{
    if index.constant {
        return 0;
    }
    let (n, a) = (n as u128, index.size as u128);
    if width == 1 {
        n * (a + 4) + 12 * (a + 1)
    } else {
        8 * n * (a + 1).min(12) + 4 * n + 12 * (a + 1)
    }
}

/// What an index costs with the write at it.
fn index_cost(n: u32, width: u32, index: Price) -> u64
    ensures { (p : spec.Price) → index ≡ cut p → result ≡ min (p.cost + spec.write_cost n width p) limit }
{
    capped(index.cost as u128 + write_cost(n, width, index))
}

/// What a part of a left side costs, counted up to `LIMIT`.
fn part_cost(nets: &[Net], part: &FlatLeft) -> u64
    ensures { result ≡ min (spec.part_cost nets.now part.now) limit }
{
    match &part.index {
        None => 0,
        Some(index) => {
            let index = price_of(nets, index);
            index_cost(width_of(nets, part.net), part.width, index)
        }
    }
}

/// What a left side costs, counted up to `LIMIT`.
fn left_cost(nets: &[Net], left: &[FlatLeft]) -> u64
    ensures { result ≡ min (spec.left_cost nets.now left.now) limit }
{
    let mut cost = 0;
    for part in left {
        cost = capped(cost as u128 + part_cost(nets, part) as u128);
    }
    cost
}

/// What an assignment costs, counted up to `LIMIT`.
pub fn assign_cost(nets: &[Net], left: &[FlatLeft], value: &FlatExpr) -> u64
    ensures { result ≡ min (spec.assign_cost nets.now left.now value.now) limit }
{
    let value = price_of(nets, value);
    capped(left_cost(nets, left) as u128 + value.cost as u128)
}
