//! Operators that go by the numbers of words (IEEE 1364-2005, 5.1.5, 5.1.7 and 17.11.1).

ghost use Rattle.std.specs.Prelude.{◌≡◌, ◌*◌, ◌%◌, ◌^◌, ◌<◌, ◌≤◌, true, length, IfOk, if◌then◌else◌};
ghost use Rattle.bit_base.specs.Numbers.{number_of, low_bits};
ghost use Rattle.bit_base.specs.Operators as spec;

use crate::bitwise::is_any;
use bit_base::bits::{Bits, bits_of, number_of_places};
use std::alloc::{AllocError, Global};

/// The lowest bits of a number, at most 128.
#[tactic(auto, using(crate::proofs::Remainders::length_of_low_bits))]
pub fn low_word(alloc: Global, number: u128, width: usize) -> Result<Bits, AllocError>
    requires { width ≤ 128 }
    ensures value { IfOk result (λ bits. bits ≡ low_bits width number) }
    ensures long { IfOk result (λ bits. length bits ≡ width) }
{
    let bits = bits_of(alloc, number, width as u32)?;
    Ok(bits)
}

/// `a + b`, of words of one length, at most 128 bits.
#[tactic(auto, using(crate::proofs::Remainders::sum_is))]
pub fn sum_of(alloc: Global, a: &[bool], b: &[bool]) -> Result<Bits, AllocError>
    requires one_length { length a.now ≡ length b.now }
    requires narrow { length a.now ≤ 128 }
    ensures value { IfOk result (λ bits. bits ≡ spec.sum_of a.now b.now) }
    ensures long { IfOk result (λ bits. length bits ≡ length a.now) }
{
    let total = number_of_places(a).wrapping_add(number_of_places(b));
    let bits = low_word(alloc, total, a.len())?;
    Ok(bits)
}

/// `a - b`, of words of one length, at most 128 bits.
#[tactic(auto, using(crate::proofs::Remainders::difference_is))]
pub fn difference_of(alloc: Global, a: &[bool], b: &[bool]) -> Result<Bits, AllocError>
    requires one_length { length a.now ≡ length b.now }
    requires narrow { length a.now ≤ 128 }
    ensures value { IfOk result (λ bits. bits ≡ spec.difference_of a.now b.now) }
    ensures long { IfOk result (λ bits. length bits ≡ length a.now) }
{
    let left = number_of_places(a).wrapping_sub(number_of_places(b));
    let bits = low_word(alloc, left, a.len())?;
    Ok(bits)
}

/// `-a`, at most 128 bits.
#[tactic(auto, using(crate::proofs::Remainders::negation_is))]
pub fn negation_of(alloc: Global, a: &[bool]) -> Result<Bits, AllocError>
    requires narrow { length a.now ≤ 128 }
    ensures value { IfOk result (λ bits. bits ≡ spec.negation_of a.now) }
    ensures long { IfOk result (λ bits. length bits ≡ length a.now) }
{
    let none: u128 = 0;
    let negated = none.wrapping_sub(number_of_places(a));
    let bits = low_word(alloc, negated, a.len())?;
    Ok(bits)
}

/// `a * b`, of words of one length, at most 128 bits.
#[tactic(auto, using(crate::proofs::Remainders::product_is))]
pub fn product_of(alloc: Global, a: &[bool], b: &[bool]) -> Result<Bits, AllocError>
    requires one_length { length a.now ≡ length b.now }
    requires narrow { length a.now ≤ 128 }
    ensures value { IfOk result (λ bits. bits ≡ spec.product_of a.now b.now) }
    ensures long { IfOk result (λ bits. length bits ≡ length a.now) }
{
    let product = number_of_places(a).wrapping_mul(number_of_places(b));
    let bits = low_word(alloc, product, a.len())?;
    Ok(bits)
}

/// `a < b`, unsigned, at most 128 bits each.
pub fn is_less(a: &[bool], b: &[bool]) -> bool
    requires left { length a.now ≤ 128 }
    requires right { length b.now ≤ 128 }
    ensures { result ≡ spec.is_less a.now b.now }
{
    number_of_places(a) < number_of_places(b)
}

/// `a / b`, unsigned, of words of at most 128 bits, not by 0.
#[tactic(auto, using(crate::proofs::LogarithmLemmas::any_positive))]
pub fn quotient_of(alloc: Global, a: &[bool], b: &[bool]) -> Result<Bits, AllocError>
    requires left { length a.now ≤ 128 }
    requires right { length b.now ≤ 128 }
    requires divisor { spec.is_any b.now ≡ true }
    ensures value { IfOk result (λ bits. bits ≡ spec.quotient_of a.now b.now) }
    ensures long { IfOk result (λ bits. length bits ≡ length a.now) }
{
    let quotient = number_of_places(a) / number_of_places(b);
    let bits = low_word(alloc, quotient, a.len())?;
    Ok(bits)
}

/// `a % b`, unsigned, of words of at most 128 bits, not by 0.
#[tactic(auto, using(crate::proofs::LogarithmLemmas::any_positive))]
pub fn remainder_of(alloc: Global, a: &[bool], b: &[bool]) -> Result<Bits, AllocError>
    requires left { length a.now ≤ 128 }
    requires right { length b.now ≤ 128 }
    requires divisor { spec.is_any b.now ≡ true }
    ensures value { IfOk result (λ bits. bits ≡ spec.remainder_of a.now b.now) }
    ensures long { IfOk result (λ bits. length bits ≡ length a.now) }
{
    let remainder = number_of_places(a) % number_of_places(b);
    let bits = low_word(alloc, remainder, a.len())?;
    Ok(bits)
}

/// `a ** exponent` of a word of at most 128 bits; the exponent is unsigned, of any length.
#[tactic(auto, using(crate::proofs::Remainders::power_is))]
pub fn power_of(alloc: Global, a: &[bool], exponent: &[bool]) -> Result<Bits, AllocError>
    requires narrow { length a.now ≤ 128 }
    ensures value { IfOk result (λ bits. bits ≡ spec.power_of a.now (number_of exponent.now)) }
    ensures long { IfOk result (λ bits. length bits ≡ length a.now) }
{
    let power = wrapped_power(number_of_places(a), exponent);
    let bits = low_word(alloc, power, a.len())?;
    Ok(bits)
}

/// The power's remainder by 2 to the 128: squares, and the base where the exponent has a bit.
fn wrapped_power(base: u128, exponent: &[bool]) -> u128
    ensures { result ≡ base ^ number_of exponent.now % 2 ^ 128 }
{
    let mut power: u128 = 1;
    for i in (0..exponent.len()).rev() {
        power = squared_with(power, base, exponent[i]);
    }
    power
}

fn squared_with(power: u128, base: u128, bit: bool) -> u128
    ensures { result ≡ power * power * (if bit then base else 1) % 2 ^ 128 }
{
    let square = power.wrapping_mul(power);
    if bit {
        square.wrapping_mul(base)
    } else {
        square
    }
}

/// `$clog2`: the ceiling of the binary logarithm, and 0 of 0.
pub fn ceiling_of_logarithm(a: &[bool]) -> usize
    ensures { result ≡ spec.ceiling_of_logarithm a.now }
{
    for i in (0..a.len()).rev() {
        if a[i] {
            return if is_any(&a[..i]) { i + 1 } else { i };
        }
    }
    0
}
