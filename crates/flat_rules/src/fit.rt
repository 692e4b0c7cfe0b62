//! Statements and items whose nets are there and whose expressions and left sides have the sizes and signs of the rules.

ghost use Rattle.std.specs.Prelude.{◌≡◌, ◌&&◌, ◌==◌, ℕ, List, map, min, length, is_some};
ghost use Rattle.std.specs.List.{list_all};
ghost use Rattle.flat_design.specs.Bits.{net_at};
ghost use Rattle.flat_design.specs.Statements.{left_size};
ghost use Rattle.flat_design.specs.Flows.{is_fixed};
ghost use Rattle.flat_design.specs.Reads.{constant_in};
ghost use Rattle.flat_rules.specs.Rules.{is_net};
ghost use Rattle.flat_rules.specs.Fits as spec;

use crate::rule::{both, obeys, select_rule};
use flat_design::expr::{FlatExpr, FlatNode};
use flat_design::item::{FlatEvent, FlatItem};
use flat_design::net::Net;
use flat_design::stmt::{FlatArm, FlatLabel, FlatLeft, FlatStmt};
use sqlite_items::{Boxed, at};

/// A part of a left side fits its net.
fn place_fits(nets: &[Net], net: &Net, part: &FlatLeft) -> bool
    ensures { result ≡ spec.place_fits nets.now net.now part.now.width part.now.index }
{
    match &part.index {
        None => part.width == net.width,
        Some(index) => select_rule(net, part.width, index, obeys(nets, index)),
    }
}

fn part_fits(nets: &[Net], part: &FlatLeft) -> bool
    ensures { result ≡ spec.part_fits nets.now part.now }
{
    match at(nets, part.net as usize) {
        None => false,
        Some(net) => place_fits(nets, net, part),
    }
}

fn parts_fit(nets: &[Net], left: &[FlatLeft]) -> bool
    ensures { result ≡ list_all (spec.part_fits nets.now) left.now }
{
    left.iter().all(|part| part_fits(nets, part))
}

/// How many bits a left side has, counted up to 2^32.
fn left_size(left: &[FlatLeft]) -> u64
    ensures { result ≡ min (left_size left.now) 4294967296 }
{
    let mut size = 0;
    for part in left {
        size = (size + part.width as u64).min(0x1_0000_0000);
    }
    size
}

/// A size is a sum that is counted up to 2^32.
fn is_size(size: u32, sum: u64) -> bool
    ensures { (s : ℕ) → sum ≡ min s 4294967296 → result ≡ (size == s) }
{
    size as u64 == sum
}

fn assign_fits(nets: &[Net], left: &[FlatLeft], value: &FlatExpr) -> bool
    ensures { result ≡ spec.assign_fits nets.now left.now value.now }
{
    let sized = is_size(value.size, left_size(left));
    parts_fit(nets, left) && obeys(nets, value) && sized
}

/// An expression is a `Constant`.
fn is_constant(nets: &[Net], e: &FlatExpr) -> bool
    ensures { result ≡ is_some (constant_in nets.now e.now) }
{
    let _nets = nets;
    match &e.node {
        FlatNode::Constant(_) => true,
        _ => false,
    }
}

/// The index of a part of a left side is a `Constant`, where there is one.
fn is_fixed_part(nets: &[Net], part: &FlatLeft) -> bool
    ensures { result ≡ is_fixed nets.now part.now.index }
{
    match &part.index {
        None => true,
        Some(index) => is_constant(nets, index),
    }
}

fn label_fits(nets: &[Net], size: u32, label: &FlatLabel) -> bool
    ensures { result ≡ spec.label_fits nets.now size label.now }
{
    let cares = label.care.len() == size as usize;
    obeys(nets, &label.value) && label.value.size == size && cares
}

fn labels_fit(nets: &[Net], size: u32, labels: &[FlatLabel]) -> bool
    ensures { result ≡ list_all (spec.label_fits nets.now size) labels.now }
{
    labels.iter().all(|label| label_fits(nets, size, label))
}

/// All three.
fn all_of(a: bool, b: bool, c: bool) -> bool
    ensures { result ≡ (a && (b && c)) }
{
    a && b && c
}

#[cycle(fit)]
fn all_fit(nets: &[Net], body: &[FlatStmt]) -> bool
    ensures { result ≡ list_all (λ b. b) (map (spec.stmt_fits nets.now) body.now) }
{
    let mut all = true;
    for stmt in body {
        let one = stmt_fits(nets, stmt);
        all = all && one;
    }
    all
}

#[cycle(fit)]
fn arm_fits(nets: &[Net], size: u32, arm: &FlatArm) -> bool
    ensures { result ≡ spec.arm_fits nets.now arm.now size }
{
    let labels = arm.labels.as_slice();
    let labels_fit = labels_fit(nets, size, labels);
    let body_fits = stmt_fits(nets, &arm.body);
    both(labels_fit, body_fits)
}

#[cycle(fit)]
fn arms_fit(nets: &[Net], size: u32, arms: &[FlatArm]) -> bool
    ensures { result ≡ list_all (λ a. a size) (map (spec.arm_fits nets.now) arms.now) }
{
    let mut all = true;
    for arm in arms {
        let one = arm_fits(nets, size, arm);
        all = all && one;
    }
    all
}

#[cycle(fit)]
fn other_fits(nets: &[Net], other: &Option<Boxed<FlatStmt>>) -> bool
    ensures { result ≡ spec.option_fits nets.now other.now }
{
    match other {
        None => true,
        Some(body) => stmt_fits(nets, body.get()),
    }
}

/// A statement fits its design.
#[cycle(fit)]
pub fn stmt_fits(nets: &[Net], stmt: &FlatStmt) -> bool
    ensures { result ≡ spec.stmt_fits nets.now stmt.now }
{
    match stmt {
        FlatStmt::Block(body) => {
            let body = body.as_slice();
            all_fit(nets, body)
        }
        FlatStmt::Assign {
            left,
            value,
            later: _,
        } => {
            let left = left.as_slice();
            assign_fits(nets, left, value)
        }
        FlatStmt::If { test, yes, no } => {
            let yes = yes.get();
            let a = stmt_fits(nets, yes);
            let b = other_fits(nets, no);
            all_of(obeys(nets, test), a, b)
        }
        FlatStmt::Case {
            selector,
            arms,
            other,
        } => {
            let arms = arms.as_slice();
            let a = arms_fit(nets, selector.size, arms);
            let b = other_fits(nets, other);
            all_of(obeys(nets, selector), a, b)
        }
    }
}

/// A net of this number is there.
fn is_net(nets: &[Net], net: u32) -> bool
    ensures { result ≡ is_net nets.now net }
{
    (net as usize) < nets.len()
}

fn events_fit(nets: &[Net], events: &[FlatEvent]) -> bool
    ensures { result ≡ list_all (λ e. is_net nets.now e.net) events.now }
{
    events.iter().all(|event| is_net(nets, event.net))
}

fn all_fixed(nets: &[Net], left: &[FlatLeft]) -> bool
    ensures { result ≡ list_all (λ l. is_fixed nets.now l.index) left.now }
{
    left.iter().all(|part| is_fixed_part(nets, part))
}

fn clocked_fits(nets: &[Net], events: &[FlatEvent], body: &FlatStmt) -> bool
    ensures { result ≡ (spec.stmt_fits nets.now body.now && (spec.is_some_event events.now && list_all (λ e. is_net nets.now e.net) events.now)) }
{
    stmt_fits(nets, body) && !events.is_empty() && events_fit(nets, events)
}

/// An item fits its design.
pub fn item_fits(nets: &[Net], item: &FlatItem) -> bool
    ensures { result ≡ spec.item_fits nets.now item.now }
{
    match item {
        FlatItem::Assign {
            place: _,
            targets: _,
            left,
            value,
            connection: _,
        } => {
            let left = left.as_slice();
            assign_fits(nets, left, value) && all_fixed(nets, left)
        }
        FlatItem::Comb {
            place: _,
            targets: _,
            body,
        } => stmt_fits(nets, body),
        FlatItem::Clocked {
            place: _,
            targets: _,
            events,
            body,
        } => clocked_fits(nets, events.as_slice(), body),
    }
}
