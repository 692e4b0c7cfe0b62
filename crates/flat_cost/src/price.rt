//! The cost of expressions: a bound on the nodes that their circuits take, counted up to a limit.

ghost use Rattle.std.specs.Prelude.{◌≡◌, ◌+◌, ◌*◌, ◌^◌, ◌<◌, ◌&&◌, false, min, map};
ghost use Rattle.std.specs.List.{list_all};
ghost use Rattle.flat_design.specs.Bits.{net_at};
ghost use Rattle.flat_design.specs.Prices as spec;
ghost use Rattle.flat_cost.specs.Cuts.{limit, cut};

use flat_design::expr::{FlatBinary, FlatExpr, FlatNode, FlatUnary};
use flat_design::net::Net;

/// One more than the greatest cost that a design may have: costs are counted up to here.
pub const LIMIT: u64 = 100_001;

/// What is known of an expression's cost: its size in bits, whether it is constant, and its cost, `LIMIT` where it is more.
#[derive(Clone, Copy, Debug, PartialEq, Eq, Drop)]
pub struct Price {
    pub size: u32,
    pub constant: bool,
    pub cost: u64,
}

/// A cost, `LIMIT` where it is more.
pub fn capped(cost: u128) -> u64
    ensures { result ≡ min cost limit }
{
    if cost < LIMIT as u128 {
        cost as u64
    } else {
        LIMIT
    }
}

/// The price of an expression of this size whose parts and operator cost so much together.
fn priced(size: u32, constant: bool, cost: u128) -> Price
    ensures { result ≡ cut (spec.priced size constant cost) }
{
    let cost = if constant { 0 } else { capped(cost) };
    Price {
        size,
        constant,
        cost,
    }
}

/// What an operator before its operand costs, at `w` bits.
fn unary_cost(op: FlatUnary, w: u32) -> u128
    ensures { result ≡ spec.unary_cost op w }
{
    let w = w as u128;
    match op {
        FlatUnary::Plus => 0,
        FlatUnary::Minus => 10 * w,
        FlatUnary::Not => 0,
        _ => 3 * w,
    }
}

/// What a shift of `w` bits costs: nothing where its amount is constant.
fn shift_cost(w: u32, amount: Price) -> u128
    ensures cost { (p : spec.Price) → amount ≡ cut p → result ≡ spec.shift_cost w p }
    ensures below { result < 2 ^ 80 }
{
    if amount.constant {
        return 0;
    }
    let (w, a) = (w as u128, amount.size as u128);
    3 * w * a.min(11) + a + w
}

/// What an operator between its operands costs.
fn binary_cost(op: FlatBinary, a: Price, b: Price) -> u128
    ensures cost { (p q : spec.Price) → a ≡ cut p → b ≡ cut q → result ≡ spec.binary_cost op p q }
    ensures below { result < 2 ^ 80 }
{
    let w = a.size as u128;
    match op {
        FlatBinary::Add | FlatBinary::Sub => 10 * w,
        FlatBinary::Mul => 12 * w * w,
        FlatBinary::ShiftLeft | FlatBinary::ShiftRight | FlatBinary::ShiftSigned => {
            shift_cost(a.size, b)
        }
        FlatBinary::Less | FlatBinary::LessEqual | FlatBinary::Greater | FlatBinary::GreaterEqual =>
            10 * w,
        FlatBinary::Equal | FlatBinary::NotEqual => 4 * w,
        FlatBinary::And | FlatBinary::Or => w,
        FlatBinary::Xor | FlatBinary::Xnor => 3 * w,
        FlatBinary::LogicalAnd | FlatBinary::LogicalOr => 3 * (w + b.size as u128),
    }
}

/// What a select costs that is read, of a net of `n` bits: nothing where its index is constant.
fn read_cost(n: u32, index: Price) -> u128
    ensures cost { (p : spec.Price) → index ≡ cut p → result ≡ spec.read_cost n p }
    ensures below { result < 2 ^ 80 }
{
    if index.constant {
        return 0;
    }
    let (n, a) = (n as u128, index.size as u128);
    4 * n * (a + 1).min(12) + 12 * (a + 1)
}

fn unary_price(size: u32, op: FlatUnary, a: Price) -> Price
    ensures { (p : spec.Price) → a ≡ cut p → result ≡ cut (spec.priced size p.constant (p.cost + spec.unary_cost op p.size)) }
{
    priced(size, a.constant, a.cost as u128 + unary_cost(op, a.size))
}

fn binary_price(size: u32, op: FlatBinary, a: Price, b: Price) -> Price
    ensures { (p q : spec.Price) → a ≡ cut p → b ≡ cut q → result ≡ cut (spec.priced size (p.constant && q.constant) (p.cost + q.cost + spec.binary_cost op p q)) }
{
    let parts = a.cost as u128 + b.cost as u128;
    priced(
        size,
        a.constant && b.constant,
        parts + binary_cost(op, a, b),
    )
}

fn choice_price(size: u32, test: Price, a: Price, b: Price) -> Price
    ensures { (t p q : spec.Price) → test ≡ cut t → a ≡ cut p → b ≡ cut q → result ≡ cut (spec.priced size (t.constant && (p.constant && q.constant)) (t.cost + p.cost + q.cost + (3 * size + t.size))) }
{
    let parts = test.cost as u128 + a.cost as u128 + b.cost as u128;
    let own = 3 * size as u128 + test.size as u128;
    let constant = test.constant && a.constant && b.constant;
    priced(size, constant, parts + own)
}

fn select_price(size: u32, n: u32, index: Price) -> Price
    ensures { (p : spec.Price) → index ≡ cut p → result ≡ cut (spec.priced size false (p.cost + spec.read_cost n p)) }
{
    priced(size, false, index.cost as u128 + read_cost(n, index))
}

fn resize_price(size: u32, a: Price) -> Price
    ensures { (p : spec.Price) → a ≡ cut p → result ≡ cut (spec.priced size p.constant p.cost) }
{
    priced(size, a.constant, a.cost as u128)
}

/// How many bits the net of this number has; none where there is no such net.
pub fn width_of(nets: &[Net], net: u32) -> u32
    ensures { result ≡ (net_at nets.now net).width }
{
    match nets.get(net as usize) {
        None => 0,
        Some(net) => net.width,
    }
}

/// What the parts of a join cost together, and whether all of them are constant.
#[cycle(price)]
fn join_price(size: u32, nets: &[Net], parts: &[FlatExpr]) -> Price
    ensures { result ≡ cut (spec.priced size (list_all (λ p. p.constant) (map (spec.price nets.now) parts.now)) (spec.cost_of_all (map (spec.price nets.now) parts.now))) }
{
    let mut constant = true;
    let mut cost = 0;
    for part in parts {
        let part = price_of(nets, part);
        constant = constant && part.constant;
        cost = capped(cost as u128 + part.cost as u128);
    }
    priced(size, constant, cost as u128)
}

/// The size of an expression, whether it is constant (it names no net), and its cost, counted up to `LIMIT`.
#[cycle(price)]
pub fn price_of(nets: &[Net], e: &FlatExpr) -> Price
    ensures { result ≡ cut (spec.price nets.now e.now) }
{
    match &e.node {
        FlatNode::Constant(_) => priced(e.size, true, 0),
        FlatNode::Net(_) => priced(e.size, false, 0),
        FlatNode::Select {
            net,
            index,
            width: _,
        } => {
            let index = price_of(nets, index.get());
            select_price(e.size, width_of(nets, *net), index)
        }
        FlatNode::Unary { op, arg } => {
            let a = price_of(nets, arg.get());
            unary_price(e.size, *op, a)
        }
        FlatNode::Binary { op, left, right } => {
            let a = price_of(nets, left.get());
            let b = price_of(nets, right.get());
            binary_price(e.size, *op, a, b)
        }
        FlatNode::Choice { test, yes, no } => {
            let t = price_of(nets, test.get());
            let a = price_of(nets, yes.get());
            let b = price_of(nets, no.get());
            choice_price(e.size, t, a, b)
        }
        FlatNode::Join { count: _, parts } => join_price(e.size, nets, parts.as_slice()),
        FlatNode::Resize { arg, by_sign: _ } => {
            let a = price_of(nets, arg.get());
            resize_price(e.size, a)
        }
    }
}
