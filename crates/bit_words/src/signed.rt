//! Signed operators, by two's complement (IEEE 1364-2005, 5.1.5 and 5.1.7).

ghost use Rattle.std.specs.Prelude.{◌≡◌, ◌<◌, ◌≤◌, true, length, IfOk, ◌+◌, ◌^◌, false, nat_lt, if◌then◌else◌};
ghost use Rattle.bit_base.specs.Numbers.{number_of, sign_of, signed_number_of, low_bits_signed};
ghost use Rattle.bit_base.specs.Operators as spec;
ghost use Rattle.bit_words.specs.Signs.{with_sign};

use crate::bitwise::{not_of, sign_of};
use crate::numbers::low_word;
use bit_base::bits::{Bits, number_of_places};
use std::alloc::{AllocError, Global};

/// How far the signed number of a word of at most 128 bits is from 0.
#[tactic(auto, using(crate::proofs::LogarithmLemmas::any_positive))]
fn magnitude(a: &[bool]) -> u128
    requires { length a.now ≤ 128 }
    ensures is { with_sign (sign_of a.now) result ≡ signed_number_of a.now }
    ensures positive { sign_of a.now ≡ true → 0 < result }
    ensures some { spec.is_any a.now ≡ true → 0 < result }
{
    let number = number_of_places(a);
    if !sign_of(a) {
        return number;
    }
    let half = half_of(a);
    half - (number - half)
}

/// What the sign of a word of at most 128 bits counts.
fn half_of(a: &[bool]) -> u128
    requires narrow { length a.now ≤ 128 }
    requires negative { sign_of a.now ≡ true }
    ensures twice { result + result ≡ 2 ^ length a.now }
    ensures within { result ≤ number_of a.now }
{
    1 << (a.len() - 1)
}

/// The lowest bits of a number or of its negative.
fn signed_bits(
    alloc: Global,
    negative: bool,
    number: u128,
    width: usize,
) -> Result<Bits, AllocError>
    requires { width ≤ 128 }
    ensures value { IfOk result (λ bits. bits ≡ low_bits_signed width (with_sign negative number)) }
    ensures long { IfOk result (λ bits. length bits ≡ width) }
{
    if !negative || number == 0 {
        let bits = low_word(alloc, number, width)?;
        return Ok(bits);
    }
    let below = low_word(alloc, number - 1, width)?;
    let bits = not_of(alloc, below.as_slice())?;
    Ok(bits)
}

/// `a / b`, signed, of words of at most 128 bits, not by 0: cut towards 0.
pub fn quotient_of_signed(alloc: Global, a: &[bool], b: &[bool]) -> Result<Bits, AllocError>
    requires left { length a.now ≤ 128 }
    requires right { length b.now ≤ 128 }
    requires divisor { spec.is_any b.now ≡ true }
    ensures value { IfOk result (λ bits. bits ≡ spec.quotient_of_signed a.now b.now) }
    ensures long { IfOk result (λ bits. length bits ≡ length a.now) }
{
    let divisor = magnitude(b);
    let quotient = magnitude(a) / divisor;
    let negative = sign_of(a) != sign_of(b);
    let bits = signed_bits(alloc, negative, quotient, a.len())?;
    Ok(bits)
}

/// `a % b`, signed, of words of at most 128 bits, not by 0: with the sign of `a`.
pub fn remainder_of_signed(alloc: Global, a: &[bool], b: &[bool]) -> Result<Bits, AllocError>
    requires left { length a.now ≤ 128 }
    requires right { length b.now ≤ 128 }
    requires divisor { spec.is_any b.now ≡ true }
    ensures value { IfOk result (λ bits. bits ≡ spec.remainder_of_signed a.now b.now) }
    ensures long { IfOk result (λ bits. length bits ≡ length a.now) }
{
    let divisor = magnitude(b);
    let remainder = magnitude(a) % divisor;
    let bits = signed_bits(alloc, sign_of(a), remainder, a.len())?;
    Ok(bits)
}

/// `a < b`, signed, at most 128 bits each.
pub fn is_less_signed(a: &[bool], b: &[bool]) -> bool
    requires left { length a.now ≤ 128 }
    requires right { length b.now ≤ 128 }
    ensures { result ≡ spec.is_less_signed a.now b.now }
{
    let (left, right) = (magnitude(a), magnitude(b));
    less_by_parts(sign_of(a), sign_of(b), left, right)
}

/// Whether one number is less than another, by their signs and how far they are from 0.
fn less_by_parts(negative: bool, other_negative: bool, number: u128, other: u128) -> bool
    ensures { result ≡ (if negative then (if other_negative then nat_lt other number else true) else (if other_negative then false else nat_lt number other)) }
{
    match (negative, other_negative) {
        (false, false) => number < other,
        (false, true) => false,
        (true, false) => true,
        (true, true) => other < number,
    }
}
