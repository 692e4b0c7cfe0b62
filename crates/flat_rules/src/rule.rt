//! The size and the sign that the rules give expressions, and how large they may be.

ghost use Rattle.std.specs.Prelude.{◌≡◌, ◌+◌, ◌*◌, ◌^◌, ◌≤◌, ◌&&◌, ◌==◌, nat_le, not, ℕ, List, true, min, map, sum, length, slice_get};
ghost use Rattle.std.specs.List.{list_all};
ghost use Rattle.bit_base.specs.Numbers.{number_of, sign_of};
ghost use Rattle.flat_design.specs.Bits.{net_at, offset_of};
ghost use Rattle.flat_design.specs.declared.net.Net.{Net as NetOf};
ghost use Rattle.flat_rules.specs.Rules as spec;
ghost use Rattle.flat_rules.specs.Own.{own};

use bit_base::bits::Bits;
use flat_design::expr::{FlatBinary, FlatExpr, FlatNode, FlatUnary};
use flat_design::net::Net;
use sqlite_items::at;

/// The most bits of an expression.
const WIDEST: u32 = 2048;

/// The most bits of a sum, a difference and a comparison by order.
const WIDEST_SUM: u32 = 128;

/// The most bits of a product.
const WIDEST_PRODUCT: u32 = 64;

/// More than any place of a net.
const FAR: u64 = 0x1_0000_0000_0000;

/// The size in bits and the sign that stand in an expression.
#[derive(Clone, Copy, Debug, PartialEq, Eq, Drop)]
pub struct Own {
    pub size: u32,
    pub signed: bool,
}

/// The size and the sign of an expression.
pub fn own_of(e: &FlatExpr) -> Own
    ensures { (nets : List NetOf) → result ≡ own (spec.rules nets e.now) }
{
    Own {
        size: e.size,
        signed: e.signed,
    }
}

/// A comparison, a reduction or a logical operator has one bit without a sign.
fn is_test(it: Own) -> bool
    ensures { result ≡ spec.is_test it.size it.signed }
{
    it.size == 1 && !it.signed
}

fn is_like(it: Own, a: Own) -> bool
    ensures { (p : spec.Ruled) → a ≡ own p → result ≡ spec.is_like p it.size it.signed }
{
    it.size == a.size && it.signed == a.signed
}

fn is_of_both(it: Own, a: Own, b: Own) -> bool
    ensures { (p q : spec.Ruled) → a ≡ own p → b ≡ own q → result ≡ spec.is_of_both p q it.size it.signed }
{
    let signed = a.signed && b.signed;
    it.size == a.size && it.size == b.size && it.signed == signed
}

fn unary_rule(op: FlatUnary, it: Own, a: Own) -> bool
    ensures { (p : spec.Ruled) → a ≡ own p → result ≡ spec.unary_rule op p it.size it.signed }
{
    match op {
        FlatUnary::Plus | FlatUnary::Minus => is_like(it, a) && it.size <= WIDEST_SUM,
        FlatUnary::Not => is_like(it, a),
        _ => is_test(it),
    }
}

fn order_rule(it: Own, a: Own, b: Own) -> bool
    ensures { (p q : spec.Ruled) → a ≡ own p → b ≡ own q → result ≡ spec.order_rule p q it.size it.signed }
{
    is_test(it) && a.size == b.size && a.size <= WIDEST_SUM
}

fn equal_rule(it: Own, a: Own, b: Own) -> bool
    ensures { (p q : spec.Ruled) → a ≡ own p → b ≡ own q → result ≡ spec.equal_rule p q it.size it.signed }
{
    is_test(it) && a.size == b.size
}

fn sum_rule(it: Own, a: Own, b: Own) -> bool
    ensures { (p q : spec.Ruled) → a ≡ own p → b ≡ own q → result ≡ spec.sum_rule p q it.size it.signed }
{
    is_of_both(it, a, b) && it.size <= WIDEST_SUM
}

fn product_rule(it: Own, a: Own, b: Own) -> bool
    ensures { (p q : spec.Ruled) → a ≡ own p → b ≡ own q → result ≡ (spec.is_of_both p q it.size it.signed && nat_le it.size spec.widest_product) }
{
    is_of_both(it, a, b) && it.size <= WIDEST_PRODUCT
}

fn binary_rule(op: FlatBinary, it: Own, a: Own, b: Own) -> bool
    ensures { (p q : spec.Ruled) → a ≡ own p → b ≡ own q → result ≡ spec.binary_rule op p q it.size it.signed }
{
    match op {
        FlatBinary::Add | FlatBinary::Sub => sum_rule(it, a, b),
        FlatBinary::Mul => product_rule(it, a, b),
        FlatBinary::ShiftLeft | FlatBinary::ShiftRight | FlatBinary::ShiftSigned => is_like(it, a),
        FlatBinary::Less | FlatBinary::LessEqual | FlatBinary::Greater | FlatBinary::GreaterEqual =>
            order_rule(it, a, b),
        FlatBinary::Equal | FlatBinary::NotEqual => equal_rule(it, a, b),
        FlatBinary::And | FlatBinary::Xor | FlatBinary::Xnor | FlatBinary::Or => {
            is_of_both(it, a, b)
        }
        FlatBinary::LogicalAnd | FlatBinary::LogicalOr => is_test(it),
    }
}

/// How many bits these expressions have together, counted up to 2^32.
fn sizes_of(parts: &[FlatExpr]) -> u64
    ensures { result ≡ min (sum (map (λ p. p.size) parts.now)) (2 ^ 32) }
{
    let mut sum = 0;
    for part in parts {
        sum = (sum + part.size as u64).min(0x1_0000_0000);
    }
    sum
}

/// A size is a sum, which is counted up to 2^32, so many times, at least once.
fn is_product(size: u32, count: u32, sum: u64) -> bool
    ensures { (s : ℕ) → sum ≡ min s (2 ^ 32) → result ≡ (nat_le 1 count && (size == count * s)) }
{
    let product = count as u128 * sum as u128;
    count >= 1 && size as u128 == product
}

/// The parts of a join have its size together, so many times.
fn join_rule(count: u32, it: Own, parts: &[FlatExpr]) -> bool
    ensures { (nets : List NetOf) → result ≡ spec.join_rule count (map (spec.rules nets) parts.now) it.size it.signed }
{
    let is_product = is_product(it.size, count, sizes_of(parts));
    is_product && !it.signed
}

/// A number, counted up to `FAR`.
fn near_number(bits: &[bool]) -> u64
    ensures { result ≡ min (number_of bits.now) spec.far }
{
    let mut number = 0;
    for i in (0..bits.len()).rev() {
        number = (2 * number + bits[i] as u64).min(FAR);
    }
    number
}

/// The highest bit; false where there is none.
fn sign_of(bits: &[bool]) -> bool
    ensures { result ≡ sign_of bits.now }
{
    match bits.last() {
        None => false,
        Some(bit) => *bit,
    }
}

/// A select of so many bits lies inside its net, at an index of these bits.
fn lies_in(net: &Net, width: u32, signed: bool, bits: &[bool]) -> bool
    ensures { result ≡ spec.lies_in net.now width (offset_of signed bits.now net.now.lsb) }
{
    if signed && sign_of(bits) {
        return false;
    }
    let (low, lsb) = (near_number(bits), net.lsb as u64);
    lsb <= low && low + width as u64 <= lsb + net.width as u64
}

/// A select lies inside its net where its index is constant.
fn is_inside(net: &Net, width: u32, index: &FlatExpr) -> bool
    ensures { (nets : List NetOf) → spec.obeys nets index.now ≡ true → result ≡ spec.is_inside net.now width (spec.rules nets index.now).constant }
{
    match &index.node {
        FlatNode::Constant(bits) => lies_in(net, width, index.signed, bits.as_slice()),
        _ => true,
    }
}

/// A select, read or written, fits its net; `obeys` tells whether its index obeys the rules.
pub fn select_rule(net: &Net, width: u32, index: &FlatExpr, obeys: bool) -> bool
    ensures { (nets : List NetOf) → obeys ≡ spec.obeys nets index.now → result ≡ spec.select_rule net.now width (spec.rules nets index.now) }
{
    width >= 1 && width <= net.width && obeys && is_inside(net, width, index)
}

/// At least one bit, no more than the widest expression has, and the rules are obeyed.
fn ruled(size: u32, obeys: bool) -> bool
    ensures { result ≡ (nat_le 1 size && (nat_le size spec.widest && obeys)) }
{
    size >= 1 && size <= WIDEST && obeys
}

fn constant_obeys(it: Own, bits: &Bits) -> bool
    ensures { result ≡ (length bits.now == it.size) }
{
    bits.len() == it.size as usize
}

fn net_obeys(nets: &[Net], net: u32, it: Own) -> bool
    ensures { result ≡ (spec.is_net nets.now net && (it.size == (net_at nets.now net).width)) }
{
    match at(nets, net as usize) {
        None => false,
        Some(net) => it.size == net.width,
    }
}

fn select_obeys(nets: &[Net], net: u32, width: u32, index: &FlatExpr, obeys: bool) -> bool
    ensures { obeys ≡ spec.obeys nets.now index.now → result ≡ (spec.is_net nets.now net && spec.select_rule (net_at nets.now net) width (spec.rules nets.now index.now)) }
{
    match at(nets, net as usize) {
        None => false,
        Some(net) => select_rule(net, width, index, obeys),
    }
}

fn select_ruled(nets: &[Net], it: Own, net: u32, width: u32, index: &FlatExpr, obeys: bool) -> bool
    ensures { obeys ≡ spec.obeys nets.now index.now → result ≡ (spec.ruled it.size it.signed ((spec.is_net nets.now net && spec.select_rule (net_at nets.now net) width (spec.rules nets.now index.now)) && ((it.size == width) && not it.signed))).obeys }
{
    let fits = select_obeys(nets, net, width, index, obeys);
    ruled(it.size, fits && it.size == width && !it.signed)
}

fn unary_ruled(op: FlatUnary, it: Own, a: Own, obeys: bool) -> bool
    ensures { (p : spec.Ruled) → a ≡ own p → obeys ≡ p.obeys → result ≡ (spec.ruled it.size it.signed (p.obeys && spec.unary_rule op p it.size it.signed)).obeys }
{
    let rule = unary_rule(op, it, a);
    ruled(it.size, obeys && rule)
}

fn binary_ruled(op: FlatBinary, it: Own, a: Own, b: Own, obey: bool) -> bool
    ensures { (p q : spec.Ruled) → a ≡ own p → b ≡ own q → obey ≡ (p.obeys && q.obeys) → result ≡ (spec.ruled it.size it.signed (p.obeys && (q.obeys && spec.binary_rule op p q it.size it.signed))).obeys }
{
    let rule = binary_rule(op, it, a, b);
    ruled(it.size, obey && rule)
}

fn choice_ruled(it: Own, a: Own, b: Own, obey: bool) -> bool
    ensures { (t p q : spec.Ruled) → a ≡ own p → b ≡ own q → obey ≡ (t.obeys && (p.obeys && q.obeys)) → result ≡ (spec.ruled it.size it.signed (t.obeys && (p.obeys && (q.obeys && spec.choice_rule p q it.size it.signed)))).obeys }
{
    let rule = is_of_both(it, a, b);
    ruled(it.size, obey && rule)
}

fn join_ruled(count: u32, it: Own, parts: &[FlatExpr], obey: bool) -> bool
    ensures { (nets : List NetOf) → obey ≡ list_all (λ p. p.obeys) (map (spec.rules nets) parts.now) → result ≡ (spec.ruled it.size it.signed (list_all (λ p. p.obeys) (map (spec.rules nets) parts.now) && spec.join_rule count (map (spec.rules nets) parts.now) it.size it.signed)).obeys }
{
    let rule = join_rule(count, it, parts);
    ruled(it.size, obey && rule)
}

/// All these expressions obey the rules.
#[cycle(rule)]
fn all_obey(nets: &[Net], parts: &[FlatExpr]) -> bool
    ensures { result ≡ list_all (λ p. p.obeys) (map (spec.rules nets.now) parts.now) }
{
    let mut all = true;
    for part in parts {
        let one = obeys(nets, part);
        all = all && one;
    }
    all
}

/// Both.
pub fn both(a: bool, b: bool) -> bool
    ensures { result ≡ (a && b) }
{
    a && b
}

/// An expression has with all its parts the size and the sign of the rules, within their limits; its nets are there, and its
/// selects fit them.
#[cycle(rule)]
pub fn obeys(nets: &[Net], e: &FlatExpr) -> bool
    ensures { result ≡ spec.obeys nets.now e.now }
{
    let it = Own {
        size: e.size,
        signed: e.signed,
    };
    match &e.node {
        FlatNode::Constant(bits) => ruled(it.size, constant_obeys(it, bits)),
        FlatNode::Net(net) => ruled(it.size, net_obeys(nets, *net, it)),
        FlatNode::Select { net, index, width } => {
            let index = index.get();
            let obey = obeys(nets, index);
            select_ruled(nets, it, *net, *width, index, obey)
        }
        FlatNode::Unary { op, arg } => {
            let arg = arg.get();
            let obey = obeys(nets, arg);
            unary_ruled(*op, it, own_of(arg), obey)
        }
        FlatNode::Binary { op, left, right } => {
            let (left, right) = (left.get(), right.get());
            let a = obeys(nets, left);
            let b = obeys(nets, right);
            binary_ruled(*op, it, own_of(left), own_of(right), both(a, b))
        }
        FlatNode::Choice { test, yes, no } => {
            let (test, yes, no) = (test.get(), yes.get(), no.get());
            let t = obeys(nets, test);
            let a = obeys(nets, yes);
            let b = obeys(nets, no);
            choice_ruled(it, own_of(yes), own_of(no), both(t, both(a, b)))
        }
        FlatNode::Join { count, parts } => {
            let parts = parts.as_slice();
            let obey = all_obey(nets, parts);
            join_ruled(*count, it, parts, obey)
        }
        FlatNode::Resize { arg, by_sign: _ } => ruled(it.size, obeys(nets, arg.get())),
    }
}
