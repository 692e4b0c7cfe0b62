//! The cost of statements and items, counted up to a limit.

ghost use Rattle.std.specs.Prelude.{◌≡◌, ◌+◌, ◌*◌, ◌≤◌, ℕ, min, map, sum, length, false, replicate, OnOk, IfOk};
ghost use Rattle.flat_design.specs.Bits.{bits_in};
ghost use Rattle.flat_design.specs.Prices as spec;
ghost use Rattle.flat_cost.specs.Cuts.{limit, cut};
ghost use Rattle.flat_loads.specs.Parts as parts;

use crate::drives::{case_bits, if_bits};
use flat_cost::assign::assign_cost;
use flat_cost::price::{Price, capped, price_of};
use flat_design::item::FlatItem;
use flat_design::net::Net;
use flat_design::stmt::{FlatArm, FlatLabel, FlatStmt};
use flat_sets::NumberSet;
use sqlite_items::Boxed;
use std::alloc::{AllocError, Global};

/// What a label costs where the branches of its case drive so many bits.
fn label_cost(label: Price, bits: usize) -> u64
    ensures { (p : spec.Price) → label ≡ cut p → result ≡ min (p.cost + (4 * p.size + 3 * bits)) limit }
{
    capped(label.cost as u128 + (4 * label.size as u128 + 3 * bits as u128))
}

/// What labels cost where the branches of their case drive so many bits.
fn labels_cost(nets: &[Net], bits: usize, labels: &[FlatLabel]) -> u64
    ensures { result ≡ min (parts.labels_cost nets.now bits labels.now) limit }
{
    let mut cost = 0;
    for label in labels {
        let price = price_of(nets, &label.value);
        cost = capped(cost as u128 + label_cost(price, bits) as u128);
    }
    cost
}

/// What an `if` costs by its test, its branches and how many bits these drive.
fn if_cost(test: Price, yes: u64, no: u64, bits: usize) -> u64
    ensures { (p : spec.Price) (a b : ℕ) → test ≡ cut p → yes ≡ min a limit → no ≡ min b limit → result ≡ min (p.cost + a + b + (3 * bits + p.size)) limit }
{
    let branches = yes as u128 + no as u128;
    capped(test.cost as u128 + branches + (3 * bits as u128 + test.size as u128))
}

/// What three parts cost together.
fn together(a: u64, b: u64, c: u64) -> u64
    ensures { (x y z : ℕ) → a ≡ min x limit → b ≡ min y limit → c ≡ min z limit → result ≡ min (x + y + z) limit }
{
    capped(a as u128 + b as u128 + c as u128)
}

#[cycle(costs)]
fn all_cost(
    alloc: Global,
    nets: &[Net],
    set: &mut NumberSet,
    body: &[FlatStmt],
) -> Result<u64, AllocError>
    requires { set.old ≡ replicate (bits_in nets.now) false }
    ensures cost { IfOk result (λ c. c ≡ min (sum (map (λ l. l.cost) (map (spec.load nets.now) body.now))) limit) }
    ensures empty { OnOk result (set.new ≡ set.old) }
{
    let mut cost = 0;
    for stmt in body {
        let one = stmt_cost(alloc, nets, set, stmt)?;
        cost = capped(cost as u128 + one as u128);
    }
    Ok(cost)
}

#[cycle(costs)]
fn arm_cost(
    alloc: Global,
    nets: &[Net],
    set: &mut NumberSet,
    bits: usize,
    arm: &FlatArm,
) -> Result<u64, AllocError>
    requires { set.old ≡ replicate (bits_in nets.now) false }
    ensures cost { IfOk result (λ c. c ≡ min (parts.arm_cost bits (parts.arm_load nets.now arm.now)) limit) }
    ensures empty { OnOk result (set.new ≡ set.old) }
{
    let labels = arm.labels.as_slice();
    let labels = labels_cost(nets, bits, labels);
    let body = stmt_cost(alloc, nets, set, &arm.body)?;
    Ok(together(labels, body, 0))
}

#[cycle(costs)]
fn arms_cost(
    alloc: Global,
    nets: &[Net],
    set: &mut NumberSet,
    bits: usize,
    arms: &[FlatArm],
) -> Result<u64, AllocError>
    requires { set.old ≡ replicate (bits_in nets.now) false }
    ensures cost { IfOk result (λ c. c ≡ min (sum (map (parts.arm_cost bits) (map (parts.arm_load nets.now) arms.now))) limit) }
    ensures empty { OnOk result (set.new ≡ set.old) }
{
    let mut cost = 0;
    for arm in arms {
        let one = arm_cost(alloc, nets, set, bits, arm)?;
        cost = capped(cost as u128 + one as u128);
    }
    Ok(cost)
}

#[cycle(costs)]
fn other_cost(
    alloc: Global,
    nets: &[Net],
    set: &mut NumberSet,
    other: &Option<Boxed<FlatStmt>>,
) -> Result<u64, AllocError>
    requires { set.old ≡ replicate (bits_in nets.now) false }
    ensures cost { IfOk result (λ c. c ≡ min (parts.other_cost nets.now other.now) limit) }
    ensures empty { OnOk result (set.new ≡ set.old) }
{
    match other {
        None => Ok(0),
        Some(body) => stmt_cost(alloc, nets, set, body.get()),
    }
}

/// What a statement costs, counted up to the limit; the set is empty before and after, with room for all bits.
#[cycle(costs)]
pub fn stmt_cost(
    alloc: Global,
    nets: &[Net],
    set: &mut NumberSet,
    stmt: &FlatStmt,
) -> Result<u64, AllocError>
    requires { set.old ≡ replicate (bits_in nets.now) false }
    ensures cost { IfOk result (λ c. c ≡ min (spec.load nets.now stmt.now).cost limit) }
    ensures empty { OnOk result (set.new ≡ set.old) }
{
    match stmt {
        FlatStmt::Block(body) => {
            let body = body.as_slice();
            all_cost(alloc, nets, set, body)
        }
        FlatStmt::Assign {
            left,
            value,
            later: _,
        } => {
            let left = left.as_slice();
            Ok(assign_cost(nets, left, value))
        }
        FlatStmt::If { test, yes, no } => {
            let yes = yes.get();
            let a = stmt_cost(alloc, nets, set, yes)?;
            let b = other_cost(alloc, nets, set, no)?;
            let bits = if_bits(alloc, nets, set, yes, no)?;
            let price = price_of(nets, test);
            Ok(if_cost(price, a, b, bits))
        }
        FlatStmt::Case {
            selector,
            arms,
            other,
        } => {
            let arms = arms.as_slice();
            let bits = case_bits(alloc, nets, set, arms, other)?;
            let a = arms_cost(alloc, nets, set, bits, arms)?;
            let b = other_cost(alloc, nets, set, other)?;
            let price = price_of(nets, selector);
            Ok(together(price.cost, a, b))
        }
    }
}

/// What an item costs, counted up to the limit; the set is empty before and after, with room for all bits.
pub fn item_cost(
    alloc: Global,
    nets: &[Net],
    set: &mut NumberSet,
    item: &FlatItem,
) -> Result<u64, AllocError>
    requires { set.old ≡ replicate (bits_in nets.now) false }
    ensures cost { IfOk result (λ c. c ≡ min (spec.item_cost nets.now item.now) limit) }
    ensures empty { OnOk result (set.new ≡ set.old) }
{
    match item {
        FlatItem::Assign {
            place: _,
            targets: _,
            left,
            value,
            connection: _,
        } => Ok(assign_cost(nets, left.as_slice(), value)),
        FlatItem::Comb {
            place: _,
            targets: _,
            body,
        } => stmt_cost(alloc, nets, set, body),
        FlatItem::Clocked {
            place: _,
            targets: _,
            events: _,
            body,
        } => stmt_cost(alloc, nets, set, body),
    }
}
