//! Numbers (IEEE 1364-2005, 3.5.1).

ghost use Rattle.std.specs.Prelude.{◌≡◌, ◌==◌, ◌+◌, ◌*◌, ◌%◌, ◌^◌, ◌≤◌, ◌<◌, ◌++◌, [], if◌then◌else◌, IfOk, IfSome, OnOk, min, length, position, replicate};
ghost use Rattle.bit_base.specs.Numbers.{low_bits};
ghost use Rattle.vlog_tree.specs.Spelling as spelling;
ghost use Rattle.vlog_const.specs.Literals as spec;

use bit_base::bits::Bits;
use bit_words::moves::extended_to;
use bit_words::numbers::low_word;
use std::alloc::{AllocError, Global};
use std::convert::From;
use std::vec::Vec;

/// A number: its size and sign, whether the size is given, its bits, and which of these are unknown.
#[derive(Drop)]
pub struct Literal {
    pub size: u32,
    pub signed: bool,
    pub sized: bool,
    pub bits: Bits,
    pub unknown: Bits,
}

/// The value of a digit in either case; 16 where the byte is no digit.
fn digit_of(b: u8) -> u8
    ensures value { result ≡ spelling.digit_of b }
    ensures small { result ≤ 16 }
{
    match b {
        b'0'..=b'9' => b - b'0',
        b'a'..=b'f' => b - b'a' + 10,
        b'A'..=b'F' => b - b'A' + 10,
        _ => 16,
    }
}

/// `x`, `z` and `?` stand for unknown digits, in either case.
fn is_unknown(b: u8) -> bool
    ensures { result ≡ spelling.is_unknown b }
{
    (b == b'x') | (b == b'X') | (b == b'z') | (b == b'Z') | (b == b'?')
}

/// The number of decimal digits, modulo 2 to the 128.
fn decimal(digits: &[u8]) -> u128
    ensures { result ≡ spec.decimal digits.now % 2 ^ 128 }
{
    let mut number: u128 = 0;
    for b in digits {
        number = one_more(number, *b);
    }
    number
}

fn one_more(number: u128, b: u8) -> u128
    ensures { result ≡ (if spec.is_filler b then number else number * 10 + spelling.digit_of b) % 2 ^ 128 }
{
    if b == b'_' {
        return number;
    }
    number
        .wrapping_mul(10)
        .wrapping_add(u128::from(digit_of(b)))
}

/// The number of decimal digits; 4,096 or more counts as 4,096.
fn decimal_at_most(digits: &[u8]) -> u32
    ensures { result ≡ min (spec.decimal digits.now) 4096 }
{
    let mut number: u32 = 0;
    for b in digits {
        number = more_at_most(number, *b);
    }
    number
}

fn more_at_most(number: u32, b: u8) -> u32
    requires { number ≤ 4096 }
    ensures { result ≡ min (if spec.is_filler b then number else number * 10 + spelling.digit_of b) 4096 }
{
    if b == b'_' {
        return number;
    }
    (number * 10 + u32::from(digit_of(b))).min(4096)
}

/// The bits of digits of so many bits each, the last digit lowest.
fn digit_bits(alloc: Global, width: u32, digits: &[u8]) -> Result<Vec<bool>, AllocError>
    requires { width ≤ 4 }
    ensures { IfOk result (λ bits. bits.items ≡ spec.digit_bits width digits.now) }
{
    let mut bits = Vec::new(alloc);
    for i in (0..digits.len()).rev() {
        push_digit(&mut bits, width, digits[i])?;
    }
    Ok(bits)
}

fn push_digit(bits: &mut Vec<bool>, width: u32, b: u8) -> Result<(), AllocError>
    requires { width ≤ 4 }
    ensures { OnOk result (bits.new.items ≡ bits.old.items ++ (if spec.is_filler b then [] else low_bits width (if spelling.is_unknown b then 0 else spelling.digit_of b))) }
{
    if b == b'_' {
        return Ok(());
    }
    let value = if is_unknown(b) { 0 } else { digit_of(b) };
    push_low(bits, width, value)
}

/// Adds the lowest bits of a value.
fn push_low(bits: &mut Vec<bool>, width: u32, value: u8) -> Result<(), AllocError>
    ensures { OnOk result (bits.new.items ≡ bits.old.items ++ low_bits width value) }
{
    let mut rest = value;
    for _place in 0..width {
        bits.push(rest % 2 == 1)?;
        rest /= 2;
    }
    Ok(())
}

/// Which bits of digits of so many bits each are unknown, the last digit lowest.
fn unknown_bits(alloc: Global, width: u32, digits: &[u8]) -> Result<Vec<bool>, AllocError>
    ensures { IfOk result (λ bits. bits.items ≡ spec.unknown_bits width digits.now) }
{
    let mut bits = Vec::new(alloc);
    for i in (0..digits.len()).rev() {
        push_unknown(&mut bits, width, digits[i])?;
    }
    Ok(bits)
}

fn push_unknown(bits: &mut Vec<bool>, width: u32, b: u8) -> Result<(), AllocError>
    ensures { OnOk result (bits.new.items ≡ bits.old.items ++ (if spec.is_filler b then [] else replicate width (spelling.is_unknown b))) }
{
    if b == b'_' {
        return Ok(());
    }
    bits.resize(bits.len() + width as usize, is_unknown(b))?;
    Ok(())
}

/// The sign `s`, which may be missing.
fn is_signed_digits(rest: &[u8]) -> bool
    ensures { result ≡ spec.is_signed_digits rest.now }
{
    match rest {
        [] => false,
        [b, ..] => (*b == b's') | (*b == b'S'),
    }
}

fn behind_sign(rest: &[u8]) -> &[u8]
    ensures { result.now ≡ spec.behind_sign rest.now }
{
    match rest {
        [] => rest,
        [b, behind @ ..] => {
            if (*b == b's') | (*b == b'S') {
                behind
            } else {
                rest
            }
        }
    }
}

fn letter_of(rest: &[u8]) -> u8
    ensures { result ≡ spec.letter_of rest.now }
{
    match rest {
        [] => 0,
        [letter, ..] => *letter,
    }
}

fn digits_of(rest: &[u8]) -> &[u8]
    ensures { result.now ≡ spec.digits_of rest.now }
{
    match rest {
        [] => rest,
        [_, digits @ ..] => digits,
    }
}

/// The bits of a digit of the base; 0 in base ten.
fn width_of(letter: u8) -> u32
    ensures value { result ≡ spec.width_of letter }
    ensures small { result ≤ 4 }
{
    if (letter == b'b') | (letter == b'B') {
        1
    } else if (letter == b'o') | (letter == b'O') {
        3
    } else if (letter == b'h') | (letter == b'H') {
        4
    } else {
        0
    }
}

fn no_word(alloc: Global) -> Bits
    ensures { result ≡ [] }
{
    Bits::from(Vec::new(alloc))
}

fn known_bits(alloc: Global, size: u32, width: u32, digits: &[u8]) -> Result<Bits, AllocError>
    requires { width ≤ 4 }
    ensures { IfOk result (λ bits. bits ≡ spec.known_bits size width digits.now) }
{
    if size > 128 {
        return Ok(no_word(alloc));
    }
    if width == 0 {
        let bits = decimal_word(alloc, size, digits)?;
        return Ok(bits);
    }
    let places = digit_bits(alloc, width, digits)?;
    let bits = extended_to(alloc, size, false, places.as_slice())?;
    Ok(bits)
}

#[tactic(auto, using(crate::proofs::Decimals::low_decimal))]
fn decimal_word(alloc: Global, size: u32, digits: &[u8]) -> Result<Bits, AllocError>
    requires { size ≤ 128 }
    ensures { IfOk result (λ bits. bits ≡ low_bits size (spec.decimal digits.now)) }
{
    let bits = low_word(alloc, decimal(digits), size as usize)?;
    Ok(bits)
}

fn begins_unknown(digits: &[u8]) -> bool
    ensures { result ≡ spec.begins_unknown digits.now }
{
    match digits {
        [] => false,
        [b, ..] => is_unknown(*b),
    }
}

fn all_as(alloc: Global, size: u32, value: bool) -> Result<Bits, AllocError>
    ensures { IfOk result (λ bits. bits ≡ replicate size value) }
{
    let mut places = Vec::new(alloc);
    places.resize(size as usize, value)?;
    Ok(Bits::from(places))
}

fn hidden_bits(alloc: Global, size: u32, width: u32, digits: &[u8]) -> Result<Bits, AllocError>
    ensures { IfOk result (λ bits. bits ≡ spec.hidden_bits size width digits.now) }
{
    if size > 128 {
        return Ok(no_word(alloc));
    }
    if width == 0 {
        let bits = all_as(alloc, size, begins_unknown(digits))?;
        return Ok(bits);
    }
    let places = unknown_bits(alloc, width, digits)?;
    let bits = extended_to(alloc, size, true, places.as_slice())?;
    Ok(bits)
}

fn size_from(size: &[u8]) -> u32
    ensures { result ≡ spec.size_from size.now }
{
    if size.is_empty() {
        32
    } else {
        decimal_at_most(size)
    }
}

fn based(alloc: Global, size: &[u8], rest: &[u8]) -> Result<Literal, AllocError>
    ensures { IfOk result (λ literal. literal ≡ spec.based size.now rest.now) }
{
    let signed = is_signed_digits(rest);
    let rest = behind_sign(rest);
    let literal = in_base(alloc, size_from(size), !size.is_empty(), signed, rest)?;
    Ok(literal)
}

fn in_base(
    alloc: Global,
    size: u32,
    sized: bool,
    signed: bool,
    rest: &[u8],
) -> Result<Literal, AllocError>
    ensures { IfOk result (λ literal. literal ≡ spec.in_base size sized signed rest.now) }
{
    let width = width_of(letter_of(rest));
    let digits = digits_of(rest);
    let bits = known_bits(alloc, size, width, digits)?;
    let unknown = hidden_bits(alloc, size, width, digits)?;
    Ok(Literal {
        size,
        signed,
        sized,
        bits,
        unknown,
    })
}

fn plain(alloc: Global, digits: &[u8]) -> Result<Literal, AllocError>
    ensures { IfOk result (λ literal. literal ≡ spec.plain digits.now) }
{
    let bits = decimal_word(alloc, 32, digits)?;
    let unknown = all_as(alloc, 32, false)?;
    Ok(Literal {
        size: 32,
        signed: true,
        sized: false,
        bits,
        unknown,
    })
}

/// The number that a token's text is.
pub fn literal_of(alloc: Global, text: &[u8]) -> Result<Literal, AllocError>
    ensures { IfOk result (λ literal. literal ≡ spec.literal_of text.now) }
{
    match quote_in(text) {
        None => plain(alloc, text),
        Some(i) => based(alloc, &text[..i], &text[i + 1..]),
    }
}

/// Where the `'` before a base stands.
fn quote_in(text: &[u8]) -> Option<usize>
    ensures place { result ≡ position (λ b. b == 39) text.now }
    ensures inside { IfSome result (λ i. i < length text.now) }
{
    text.iter().position(|b| *b == 39)
}
