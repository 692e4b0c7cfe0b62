//! Words in their context, and what the operators give (IEEE 1364-2005, 5.1 and 5.5).

ghost use Rattle.std.specs.Prelude.{◌≡◌, ◌≤◌, ℤ, length, IfOk, true, if◌then◌else◌};
ghost use Rattle.bit_base.specs.Operators as operator;
ghost use Rattle.vlog_values.specs.Sizes.{size_in};
ghost use Rattle.vlog_values.specs.Places.{no_values, net_bits, select_bits};
ghost use Rattle.vlog_values.specs.declared.sized.Signal.{Signal};
ghost use Rattle.vlog_values.specs.Operations as spec;

use crate::facts::Shape;
use crate::operators::{Function, Infix, Prefix};
use bit_base::bits::Bits;
use bit_words::bitwise::{
    and_of, are_all, is_any, is_equal, is_odd, not_of, or_of, sign_of, xnor_of, xor_of,
};
use bit_words::moves::{extended_to, shifted_left, shifted_right};
use bit_words::numbers::{
    ceiling_of_logarithm, difference_of, is_less, low_word, negation_of, power_of, product_of,
    quotient_of, remainder_of, sum_of,
};
use bit_words::signed::{is_less_signed, quotient_of_signed, remainder_of_signed};
use std::alloc::{AllocError, Global};
use std::convert::From;
use std::vec::Vec;

/// A word in its context, where that is known: extended by the context's sign.
pub fn in_context(alloc: Global, context: Option<Shape>, bits: &[bool]) -> Result<Bits, AllocError>
    ensures value { IfOk result (λ word. word ≡ spec.in_context context bits.now) }
    ensures long { IfOk result (λ word. length word ≡ size_in context) }
{
    match context {
        None => Ok(Bits::from(Vec::new(alloc))),
        Some(shape) => {
            let wide = extended_to(alloc, shape.size, shape.signed, bits)?;
            Ok(wide)
        }
    }
}

/// So many bits in a context, each of them false: those of a net, and those of a select, where no net has a
/// true bit.
#[tactic(auto, using(crate::proofs::NoBits::none_selected, crate::proofs::NoBits::none_set))]
pub fn no_bits(alloc: Global, width: u64, context: Option<Shape>) -> Result<Bits, AllocError>
    ensures net { IfOk result (λ word. (signal : Signal) → signal.width ≡ width → word ≡ spec.in_context context (net_bits no_values signal)) }
    ensures select { IfOk result (λ word. (signal : Signal) (low : ℤ) → word ≡ spec.in_context context (select_bits no_values signal low width)) }
    ensures long { IfOk result (λ word. length word ≡ size_in context) }
{
    let mut bits = Vec::new(alloc);
    bits.resize(width as usize, false)?;
    let word = in_context(alloc, context, bits.as_slice())?;
    Ok(word)
}

/// A test of one bit in its context.
pub fn test_in_context(
    alloc: Global,
    context: Option<Shape>,
    test: bool,
) -> Result<Bits, AllocError>
    ensures value { IfOk result (λ word. word ≡ spec.test_in_context context test) }
    ensures long { IfOk result (λ word. length word ≡ size_in context) }
{
    let word = in_context(alloc, context, &[test])?;
    Ok(word)
}

/// The sign of a context; unsigned where it isn't known.
pub fn is_signed(context: Option<Shape>) -> bool
    ensures { result ≡ spec.is_signed context }
{
    match context {
        None => false,
        Some(shape) => shape.signed,
    }
}

/// The shape of operands that take a common one: the greater size, signed where both are.
pub fn common_of(a: Option<Shape>, b: Option<Shape>) -> Option<Shape>
    ensures { result ≡ spec.common_of a b }
{
    match (a, b) {
        (Some(a), Some(b)) => Some(Shape {
            size: a.size.max(b.size),
            signed: a.signed && b.signed,
        }),
        _ => None,
    }
}

/// `c ? a : b`
pub fn chosen(a: Bits, b: Bits, c: &[bool]) -> Bits
    requires { length a ≡ length b }
    ensures value { result ≡ operator.chosen a b c.now }
    ensures long { length result ≡ length a }
{
    if is_any(c) { a } else { b }
}

/// What an operator before its operand gives at the size of the context.
pub fn prefix_word(alloc: Global, prefix: Prefix, a: Bits) -> Result<Bits, AllocError>
    requires narrow { spec.prefix_limit prefix ≤ 128 → length a ≤ 128 }
    ensures value { IfOk result (λ word. word ≡ spec.prefix_word prefix a) }
    ensures long { IfOk result (λ word. length word ≡ length a) }
{
    match prefix {
        Prefix::Minus => {
            let word = negation_of(alloc, a.as_slice())?;
            Ok(word)
        }
        Prefix::Not => {
            let word = not_of(alloc, a.as_slice())?;
            Ok(word)
        }
        _ => Ok(a),
    }
}

/// The one bit that an operator before its operand gives.
pub fn prefix_test(prefix: Prefix, a: &[bool]) -> bool
    ensures { result ≡ spec.prefix_test prefix a.now }
{
    match prefix {
        Prefix::LogicalNot => !is_any(a),
        Prefix::All => are_all(a),
        Prefix::NotAll => !are_all(a),
        Prefix::Any => is_any(a),
        Prefix::NotAny => !is_any(a),
        Prefix::Parity => is_odd(a),
        Prefix::NotParity => !is_odd(a),
        _ => false,
    }
}

/// What an operator gives of two operands at the size of the context.
pub fn infix_both(
    alloc: Global,
    op: Infix,
    signed: bool,
    a: Bits,
    b: &[bool],
) -> Result<Bits, AllocError>
    requires one_length { length a ≡ length b.now }
    requires narrow { spec.infix_limit op ≤ 128 → length a ≤ 128 }
    requires divisor { spec.is_division op ≡ true → operator.is_any b.now ≡ true }
    ensures value { IfOk result (λ word. word ≡ spec.infix_both op signed a b.now) }
    ensures long { IfOk result (λ word. length word ≡ length a) }
{
    let left = a.as_slice();
    let word = match op {
        Infix::Multiply => product_of(alloc, left, b)?,
        Infix::Divide => quotient(alloc, signed, left, b)?,
        Infix::Remainder => remainder(alloc, signed, left, b)?,
        Infix::Add => sum_of(alloc, left, b)?,
        Infix::Subtract => difference_of(alloc, left, b)?,
        Infix::And => and_of(alloc, left, b)?,
        Infix::Xor => xor_of(alloc, left, b)?,
        Infix::Xnor => xnor_of(alloc, left, b)?,
        Infix::Or => or_of(alloc, left, b)?,
        _ => return Ok(a),
    };
    Ok(word)
}

fn quotient(alloc: Global, signed: bool, a: &[bool], b: &[bool]) -> Result<Bits, AllocError>
    requires left { length a.now ≤ 128 }
    requires right { length b.now ≤ 128 }
    requires divisor { operator.is_any b.now ≡ true }
    ensures value { IfOk result (λ word. word ≡ (if signed then operator.quotient_of_signed a.now b.now else operator.quotient_of a.now b.now)) }
    ensures long { IfOk result (λ word. length word ≡ length a.now) }
{
    if signed {
        let word = quotient_of_signed(alloc, a, b)?;
        return Ok(word);
    }
    let word = quotient_of(alloc, a, b)?;
    Ok(word)
}

fn remainder(alloc: Global, signed: bool, a: &[bool], b: &[bool]) -> Result<Bits, AllocError>
    requires left { length a.now ≤ 128 }
    requires right { length b.now ≤ 128 }
    requires divisor { operator.is_any b.now ≡ true }
    ensures value { IfOk result (λ word. word ≡ (if signed then operator.remainder_of_signed a.now b.now else operator.remainder_of a.now b.now)) }
    ensures long { IfOk result (λ word. length word ≡ length a.now) }
{
    if signed {
        let word = remainder_of_signed(alloc, a, b)?;
        return Ok(word);
    }
    let word = remainder_of(alloc, a, b)?;
    Ok(word)
}

/// What an operator gives of a left operand at the size of the context and a right one at its own.
pub fn infix_left(
    alloc: Global,
    op: Infix,
    signed: bool,
    a: Bits,
    b: &[bool],
) -> Result<Bits, AllocError>
    requires narrow { spec.infix_limit op ≤ 128 → length a ≤ 128 }
    ensures value { IfOk result (λ word. word ≡ spec.infix_left op signed a b.now) }
    ensures long { IfOk result (λ word. length word ≡ length a) }
{
    let left = a.as_slice();
    let word = match op {
        Infix::Power => power_of(alloc, left, b)?,
        Infix::ShiftLeft => shifted_left(alloc, b, left)?,
        Infix::ShiftRight => shifted_right(alloc, b, false, left)?,
        Infix::ShiftSigned => shifted_right(alloc, b, signed && sign_of(left), left)?,
        _ => return Ok(a),
    };
    Ok(word)
}

fn less(signed: bool, a: &[bool], b: &[bool]) -> bool
    requires left { length a.now ≤ 128 }
    requires right { length b.now ≤ 128 }
    ensures { result ≡ spec.less signed a.now b.now }
{
    if signed {
        is_less_signed(a, b)
    } else {
        is_less(a, b)
    }
}

/// What a comparison of operands of one size gives.
pub fn infix_compared(op: Infix, signed: bool, a: &[bool], b: &[bool]) -> bool
    requires one_length { length a.now ≡ length b.now }
    requires narrow { spec.infix_limit op ≤ 128 → length a.now ≤ 128 }
    ensures { result ≡ spec.infix_compared op signed a.now b.now }
{
    match op {
        Infix::Less => less(signed, a, b),
        Infix::LessEqual => !less(signed, b, a),
        Infix::Greater => less(signed, b, a),
        Infix::GreaterEqual => !less(signed, a, b),
        Infix::Equal => is_equal(a, b),
        Infix::NotEqual => !is_equal(a, b),
        _ => false,
    }
}

/// What a logical operator gives.
pub fn infix_logical(op: Infix, a: &[bool], b: &[bool]) -> bool
    ensures { result ≡ spec.infix_logical op a.now b.now }
{
    match op {
        Infix::LogicalAnd => is_any(a) && is_any(b),
        Infix::LogicalOr => is_any(a) || is_any(b),
        _ => false,
    }
}

/// What a system function gives.
pub fn function_of(alloc: Global, function: Function, a: Bits) -> Result<Bits, AllocError>
    ensures { IfOk result (λ word. word ≡ spec.function_of function a) }
{
    match function {
        Function::Clog2 => {
            let exponent = ceiling_of_logarithm(a.as_slice());
            let word = low_word(alloc, exponent as u128, 32)?;
            Ok(word)
        }
        _ => Ok(a),
    }
}
