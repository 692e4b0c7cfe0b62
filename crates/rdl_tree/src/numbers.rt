//! The values of numbers.

ghost use Rattle.std.specs.Prelude.{◌≡◌, ◌≤◌, ◌<◌, ◌^◌, ◌&&◌, true, false, nat_lt, length, Some, None, if◌then◌else◌};
ghost use Rattle.rdl_tree.specs.Spelling.{ends_in_digit, is_digits, digits_value, is_size, with_digit, is_in_size, is_hexadecimal, is_sized, is_number, number_value, number_fits, base_of};
ghost use Rattle.std.specs.List.{prefix_len};

use crate::bytes::{base_of, digit_of, is_digit};

/// Digits and `_` behind a digit, the last of them a digit.
fn ends_in_digit(base: u8, bytes: &[u8]) -> bool
    ensures { result ≡ ends_in_digit base true bytes.now }
{
    let mut ended = true;
    for byte in bytes {
        if is_digit(base, *byte) {
            ended = true;
        } else if *byte == b'_' {
            ended = false;
        } else {
            return false;
        }
    }
    ended
}

/// Digits of a base, with `_` between them.
pub fn is_digits(base: u8, bytes: &[u8]) -> bool
    ensures { result ≡ is_digits base bytes.now }
{
    match bytes {
        [first, rest @ ..] => is_digit(base, *first) && ends_in_digit(base, rest),
        [] => false,
    }
}

/// The number with one more digit, unless the byte is `_`.
fn with_digit(base: u8, value: u128, byte: u8) -> u128
    requires base { base ≤ 16 }
    requires value { value < 2 ^ 64 }
    ensures { result ≡ with_digit base value byte }
{
    if byte == b'_' {
        value
    } else {
        value * base as u128 + digit_of(byte) as u128
    }
}

/// The number that the digits spell, where it is below 2^64.
pub fn digits_value(base: u8, digits: &[u8]) -> Option<u64>
    requires low { 1 ≤ base }
    requires high { base ≤ 16 }
    ensures { result ≡ (if nat_lt (digits_value base digits.now) (2 ^ 64) then Some (digits_value base digits.now) else None) }
{
    let mut value: u128 = 0;
    for byte in digits {
        value = with_digit(base, value, *byte);
        if value >= 1 << 64 {
            return None;
        }
    }
    Some(value as u64)
}

/// A size from 1 to 64.
pub fn is_size(bytes: &[u8]) -> bool
    ensures { result ≡ is_size bytes.now }
{
    if !is_digits(10, bytes) {
        return false;
    }
    match digits_value(10, bytes) {
        Some(value) => 1 <= value && value <= 64,
        None => false,
    }
}

/// `0x` or `0X` and hexadecimal digits.
fn is_hexadecimal(text: &[u8]) -> bool
    ensures { result ≡ is_hexadecimal text.now }
{
    match text {
        [first, mark, digits @ ..] if *first == b'0' && matches!(*mark, b'x' | b'X') => {
            is_digits(16, digits)
        }
        _ => false,
    }
}

/// How many bytes stand before the first `'`.
fn size_len(text: &[u8]) -> usize
    ensures value { result ≡ prefix_len is_in_size text.now }
    ensures within { result ≤ length text.now }
{
    text.iter().take_while(|byte| **byte != b'\'').count()
}

/// The value of the digits, where it fits the width, which is at most 64 bits.
fn fitting(width: u64, base: u8, digits: &[u8]) -> Option<u64>
    requires width { width ≤ 64 }
    requires low { 1 ≤ base }
    requires high { base ≤ 16 }
    ensures { result ≡ (if nat_lt (digits_value base digits.now) (2 ^ width) then Some (digits_value base digits.now) else None) }
{
    let value = digits_value(base, digits)?;
    if u128::from(value) < 1 << width {
        Some(value)
    } else {
        None
    }
}

/// The value of the digits behind a size and the letter of a base.
fn based_value(size: &[u8], letter: u8, digits: &[u8]) -> Option<u64>
    requires size { is_size size.now ≡ true }
    requires letter { 1 ≤ base_of letter }
    ensures { result ≡ (if nat_lt (digits_value (base_of letter) digits.now) (2 ^ digits_value 10 size.now) then Some (digits_value (base_of letter) digits.now) else None) }
{
    let width = digits_value(10, size)?;
    fitting(width, base_of(letter), digits)
}

/// The value of a number with a size.
fn sized_value(text: &[u8]) -> Option<u64>
    requires sized { is_sized text.now ≡ true }
    requires not_plain { is_digits 10 text.now ≡ false }
    requires not_hexadecimal { is_hexadecimal text.now ≡ false }
    ensures { result ≡ (if number_fits text.now then Some (number_value text.now) else None) }
{
    let (size, rest) = text.split_at(size_len(text));
    match rest {
        [_, letter, digits @ ..] => based_value(size, *letter, digits),
        _ => None,
    }
}

/// The value of a number, where it fits its width.
pub fn number_value(text: &[u8]) -> Option<u64>
    requires { is_number text.now ≡ true }
    ensures { result ≡ (if number_fits text.now then Some (number_value text.now) else None) }
{
    if is_digits(10, text) {
        return fitting(64, 10, text);
    }
    if is_hexadecimal(text) {
        return fitting(64, 16, &text[2..]);
    }
    sized_value(text)
}
