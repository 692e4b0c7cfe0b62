//! What is asked of constants and of selects.

ghost use Rattle.std.specs.Prelude.{◌≡◌, ◌+◌, ◌<◌, ◌≤◌, ◌^◌, None, Some, Ok, option_map, IfNone, nat_lt, not};
ghost use Rattle.bit_base.specs.Numbers.{number_of};
ghost use Rattle.vlog_values.specs.Sizes.{size_in};
ghost use Rattle.vlog_values.specs.Steps.{Comes, behind};
ghost use Rattle.vlog_values.specs.Places as places;
ghost use Rattle.vlog_values.specs.Constants.{constant_site};
ghost use Rattle.vlog_values.specs.Operations as operations;
ghost use Rattle.vlog_values.specs.Outcomes as spec;

use crate::facts::{Facts, Shape, Stop, inner, is_over, leading};
use crate::operators::{Infix, Prefix};
use crate::sized::Signal;
use crate::words::is_signed;
use bit_base::place::Place;
use bit_words::bitwise::{is_any, sign_of};
use bit_words::moves::number_at_most;
use vlog_tree::fault::VlogCode;

/// No net and no unknown digit.
pub fn is_constant(facts: Facts) -> bool
    ensures { result ≡ spec.is_constant facts }
{
    !facts.names_net && !facts.has_unknown
}

/// A count has to be at least 1.
pub fn least_one(facts: Facts, bits: &[bool]) -> Result<(), Stop>
    ensures { Comes (spec.least_one facts bits.now) result }
{
    if (is_signed(facts.own_shape()) && sign_of(bits)) || !is_any(bits) {
        return Err(Stop::At(leading(VlogCode::VlogConst, facts.place)));
    }
    Ok(())
}

/// A divisor mustn't be 0.
pub fn not_zero(facts: Facts, bits: &[bool]) -> Result<(), Stop>
    ensures { Comes (spec.not_zero facts bits.now) result }
{
    if is_any(bits) {
        return Ok(());
    }
    Err(Stop::At(leading(VlogCode::VlogConst, facts.place)))
}

/// An exponent mustn't be negative; it stands behind the first token of the whole.
pub fn not_negative_behind(facts: Facts, bits: &[bool]) -> Result<(), Stop>
    ensures { Comes (behind (spec.not_negative facts bits.now)) result }
{
    if is_signed(facts.own_shape()) && sign_of(bits) {
        return Err(Stop::At(inner(VlogCode::VlogConst, facts.place)));
    }
    Ok(())
}

/// A constant as a place: None below 0 and from 2^32 on.
fn place_of(signed: bool, bits: &[bool]) -> Option<u32>
    ensures { result ≡ places.place_of signed bits.now }
{
    if signed && sign_of(bits) {
        return None;
    }
    let number = number_at_most(bits, 1 << 33);
    if number < 1 << 32 {
        Some(number as u32)
    } else {
        None
    }
}

/// A constant of this shape as a place.
pub fn place_in(facts: Facts, bits: &[bool]) -> Option<u32>
    ensures { result ≡ spec.place_in facts bits.now }
{
    place_of(is_signed(facts.own_shape()), bits)
}

/// The places from one on, so many, are places of the net.
fn lies_in(signal: Signal, low: Option<u32>, width: u64) -> bool
    requires { width < 2 ^ 63 }
    ensures { result ≡ places.lies_in signal low width }
{
    match low {
        None => false,
        Some(low) => {
            signal.lsb <= low
                && u64::from(low) + width <= u64::from(signal.lsb) + u64::from(signal.width)
        }
    }
}

/// A constant select of so many bits lies inside its net.
pub fn inside(
    signal: Signal,
    bracket: Place,
    facts: Facts,
    width: u64,
    bits: &[bool],
) -> Result<(), Stop>
    requires { width < 2 ^ 63 }
    ensures { Comes (spec.inside signal bracket facts width bits.now) result }
{
    if is_constant(facts) && !lies_in(signal, place_in(facts, bits), width) {
        return Err(Stop::At(inner(VlogCode::VlogConst, bracket)));
    }
    Ok(())
}

/// A constant select of so many bits upwards lies inside its net.
#[tactic(auto, using(crate::proofs::Inside::inside_at_most))]
pub fn inside_upward(
    signal: Signal,
    bracket: Place,
    facts: Facts,
    width: &[bool],
    bits: &[bool],
) -> Result<(), Stop>
    ensures { Comes (spec.inside signal bracket facts (number_of width.now) bits.now) result }
{
    let many = number_at_most(width, 1 << 33);
    inside(signal, bracket, facts, many, bits)
}

/// A range of places isn't ascending, and lies inside its net: its low end and its width.
pub fn range_in(
    signal: Signal,
    bracket: Place,
    high: Option<u32>,
    low: Option<u32>,
) -> Result<(u32, u64), Stop>
    ensures { Comes (spec.range_in signal bracket high low) result }
{
    let refusal = Err(Stop::At(inner(VlogCode::VlogConst, bracket)));
    let Some(high) = high else {
        return refusal;
    };
    let Some(low) = low else {
        return refusal;
    };
    if low > high {
        return refusal;
    }
    let width = u64::from(high - low) + 1;
    if lies_in(signal, Some(low), width) {
        Ok((low, width))
    } else {
        refusal
    }
}

/// A number over 128 bits, or one that is too wide in its context.
pub fn number_width(facts: Facts, context: Option<Shape>) -> Option<VlogCode>
    ensures { result ≡ spec.number_width facts context }
{
    if is_over(128, facts.own_shape()) {
        return Some(VlogCode::VlogWide);
    }
    facts.too_wide(2048, context)
}

/// The limit in bits on what an operator works at.
pub fn infix_limit(op: Infix) -> u32
    ensures { result ≡ operations.infix_limit op }
{
    match op {
        Infix::Multiply => 64,
        Infix::Power
        | Infix::Divide
        | Infix::Remainder
        | Infix::Add
        | Infix::Subtract
        | Infix::Less
        | Infix::LessEqual
        | Infix::Greater
        | Infix::GreaterEqual => 128,
        _ => 2048,
    }
}

/// An operator in a constant that is over its limit.
pub fn infix_mark(op: Infix, facts: Facts, context: Option<Shape>) -> Option<VlogCode>
    ensures mark { result ≡ spec.infix_mark op facts (constant_site context) }
    ensures fits { IfNone result (size_in context ≤ operations.infix_limit op) }
{
    facts.too_wide(infix_limit(op), context)
}

/// A comparison in a constant whose operands are over its limit.
pub fn compared_mark(
    op: Infix,
    facts: Facts,
    context: Option<Shape>,
    operands: Option<Shape>,
) -> Option<VlogCode>
    ensures mark { result ≡ spec.compared_mark op facts (constant_site context) (constant_site operands) }
    ensures fits { IfNone result (size_in operands ≤ operations.infix_limit op) }
{
    if is_over(infix_limit(op), operands) {
        return Some(VlogCode::VlogWide);
    }
    facts.too_wide(2048, context)
}

/// The limit in bits on what an operator before its operand works at.
pub fn prefix_limit(op: Prefix) -> u32
    ensures { result ≡ operations.prefix_limit op }
{
    match op {
        Prefix::Plus | Prefix::Minus => 128,
        _ => 2048,
    }
}

/// Operators that give one bit of an operand at its own size.
pub fn is_test(op: Prefix) -> bool
    ensures { result ≡ operations.is_test op }
{
    !matches!(op, Prefix::Plus | Prefix::Minus | Prefix::Not)
}

/// So many bits upwards are no more than the net has.
pub fn fits_net(signal: Signal, width: &[bool]) -> bool
    ensures { result ≡ not (nat_lt signal.width (number_of width.now)) }
{
    number_at_most(width, 1 << 33) <= u64::from(signal.width)
}

/// A number of bits or of times: 4,096 or more count as 4,096.
pub fn count_in(bits: &[bool]) -> u32
    ensures { result ≡ spec.count_in bits.now }
{
    number_at_most(bits, 4096) as u32
}

/// Operators that stand in constant expressions alone.
pub fn is_constant_only(op: Infix) -> bool
    ensures { result ≡ operations.is_constant_only op }
{
    matches!(op, Infix::Divide | Infix::Remainder | Infix::Power)
}

/// A quotient or a remainder.
pub fn is_division(op: Infix) -> bool
    ensures { result ≡ operations.is_division op }
{
    matches!(op, Infix::Divide | Infix::Remainder)
}
