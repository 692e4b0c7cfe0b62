//! How long the lexeme in front of a text is.

ghost use Rattle.std.specs.Prelude.{◌≡◌, ◌≤◌, ◌<◌, ◌+◌, ◌^◌, length, IfSome, ◌==◌, ◌&&◌, max, if◌then◌else◌};
ghost use Rattle.std.specs.List.{prefix_len, list_any};
ghost use Rattle.vlog_tree.specs.Spelling.{is_name_byte, is_some_digit};
ghost use Rattle.vlog_prep.specs.Lexemes.{is_in_line, only_blanks, opens};
ghost use Rattle.vlog_prep.specs.Lengths.{more_digits, digits_len, behind, unknown_len, based_len, signed_len, quote_len, number_len, closing_len, passed_len, mark_len, named_len, continued_len, class_of, lexeme_len, first_lexeme, lexeme_at};

use crate::bytes::{
    base_of, is_blank, is_digit, is_letter, is_mark_byte, is_mark_pair, is_mark_triple,
    is_name_byte,
};
use crate::lexeme::Lexeme;

/// The front of bytes of a name.
fn name_len(bytes: &[u8]) -> usize
    ensures value { result ≡ prefix_len is_name_byte bytes.now }
    ensures within { result ≤ length bytes.now }
{
    bytes.iter().take_while(|byte| is_name_byte(**byte)).count()
}

/// The front without a line feed.
fn line_len(bytes: &[u8]) -> usize
    ensures value { result ≡ prefix_len is_in_line bytes.now }
    ensures within { result ≤ length bytes.now }
{
    bytes.iter().take_while(|byte| **byte != b'\n').count()
}

/// The longest front of digits and `_` that ends in a digit.
fn more_digits(base: u8, bytes: &[u8]) -> usize
    ensures value { result ≡ more_digits base bytes.now }
    ensures within { result ≤ length bytes.now }
{
    let mut len = 0;
    for (at, byte) in bytes.iter().enumerate() {
        if is_digit(base, *byte) {
            len = at + 1;
        } else if *byte != b'_' {
            return len;
        }
    }
    len
}

/// The longest front of digits with `_` between them.
#[tactic(auto, unfolding(crate::specs::Lengths::digits_len))]
fn digits_len(base: u8, bytes: &[u8]) -> usize
    ensures value { result ≡ digits_len base bytes.now }
    ensures within { result ≤ length bytes.now }
{
    match bytes {
        [first, rest @ ..] if is_digit(base, *first) => 1 + more_digits(base, rest),
        _ => 0,
    }
}

/// What stands behind so many bytes, 0 where nothing stands there.
fn behind(before: usize, len: usize) -> usize
    requires { before + len < 2 ^ 64 }
    ensures { result ≡ behind before len }
{
    if len > 0 { before + len } else { 0 }
}

/// The one digit `x`, 0 where it doesn't stand here.
#[tactic(auto, unfolding(crate::specs::Lengths::unknown_len))]
fn unknown_len(bytes: &[u8]) -> usize
    ensures value { result ≡ unknown_len bytes.now }
    ensures within { result ≤ length bytes.now }
{
    match bytes {
        [b'x' | b'X', ..] => 1,
        _ => 0,
    }
}

/// The digits of a base, or of base ten the one digit `x`.
fn radix_len(base: u8, digits: &[u8]) -> usize
    ensures value { result ≡ max (digits_len base digits.now) (if base == 10 then unknown_len digits.now else 0) }
    ensures within { result ≤ length digits.now }
{
    if base == 10 {
        digits_len(base, digits).max(unknown_len(digits))
    } else {
        digits_len(base, digits)
    }
}

/// The letter of a base and digits, 0 where they don't stand here.
#[tactic(auto, unfolding(crate::specs::Lengths::based_len))]
fn based_len(bytes: &[u8]) -> usize
    ensures value { result ≡ based_len bytes.now }
    ensures within { result ≤ length bytes.now }
{
    match bytes {
        [letter, digits @ ..] => behind(1, radix_len(base_of(*letter), digits)),
        [] => 0,
    }
}

/// The same behind the sign `s`, which may be missing.
#[tactic(auto, unfolding(crate::specs::Lengths::signed_len))]
fn signed_len(bytes: &[u8]) -> usize
    ensures value { result ≡ signed_len bytes.now }
    ensures within { result ≤ length bytes.now }
{
    match bytes {
        [b's' | b'S', rest @ ..] => behind(1, based_len(rest)),
        _ => based_len(bytes),
    }
}

/// `'` and the same, 0 where it doesn't stand here.
#[tactic(auto, unfolding(crate::specs::Lengths::quote_len))]
fn quote_len(bytes: &[u8]) -> usize
    ensures value { result ≡ quote_len bytes.now }
    ensures within { result ≤ length bytes.now }
{
    match bytes {
        [b'\'', rest @ ..] => behind(1, signed_len(rest)),
        _ => 0,
    }
}

/// A digit other than 0 is among the bytes.
fn has_some_digit(bytes: &[u8]) -> bool
    ensures { result ≡ list_any is_some_digit bytes.now }
{
    bytes.iter().any(|byte| matches!(*byte, b'1'..=b'9'))
}

/// A number, 0 where none stands here.
#[tactic(auto, unfolding(crate::specs::Lengths::number_len))]
fn number_len(bytes: &[u8]) -> usize
    ensures value { result ≡ number_len bytes.now }
    ensures within { result ≤ length bytes.now }
{
    let digits = digits_len(10, bytes);
    let (size, rest) = bytes.split_at(digits);
    let len = quote_len(rest);
    if len > 0 && (digits == 0 || has_some_digit(size)) {
        digits + len
    } else {
        digits
    }
}

/// A `last` behind a `*`.
fn closes(last: u8, before: u8, byte: u8) -> bool
    ensures { result ≡ ((before == 42) && (byte == last)) }
{
    before == b'*' && byte == last
}

/// The longest front that ends at the first `last` behind a `*`.
fn closing_len(last: u8, bytes: &[u8]) -> Option<usize>
    ensures value { result ≡ closing_len last 0 bytes.now }
    ensures within { IfSome result (λ n. n ≤ length bytes.now) }
{
    let mut before = 0;
    for (at, byte) in bytes.iter().enumerate() {
        if closes(last, before, *byte) {
            return Some(at + 1);
        }
        before = *byte;
    }
    None
}

/// A comment or an attribute, which begins here.
#[tactic(auto, unfolding(crate::specs::Lengths::passed_len))]
fn passed_len(bytes: &[u8]) -> Option<usize>
    ensures value { result ≡ passed_len bytes.now }
    ensures within { IfSome result (λ n. n ≤ length bytes.now) }
{
    match bytes {
        [_, b'/', rest @ ..] => Some(2 + line_len(rest)),
        [first, _, rest @ ..] => {
            let last = if *first == b'/' { b'/' } else { b')' };
            let len = closing_len(last, rest)?;
            Some(2 + len)
        }
        _ => None,
    }
}

/// A mark, whose first byte is one.
#[tactic(auto, unfolding(crate::specs::Lengths::mark_len))]
fn mark_len(bytes: &[u8]) -> usize
    ensures { result ≡ mark_len bytes.now }
{
    match bytes {
        [first, second, third, ..] if is_mark_triple(*first, *second, *third) => 3,
        [first, second, ..] if is_mark_pair(*first, *second) => 2,
        _ => 1,
    }
}

/// A byte and an identifier.
#[tactic(auto, unfolding(crate::specs::Lengths::named_len))]
fn named_len(bytes: &[u8]) -> Option<usize>
    ensures { result ≡ named_len bytes.now }
{
    let (_, rest) = bytes.split_first()?;
    let (first, _) = rest.split_first()?;
    if is_letter(*first) {
        Some(1 + name_len(rest))
    } else {
        None
    }
}

/// A `\` directly before a line feed.
#[tactic(auto, unfolding(crate::specs::Lengths::continued_len))]
fn continued_len(bytes: &[u8]) -> Option<usize>
    ensures { result ≡ continued_len bytes.now }
{
    match bytes {
        [_, b'\n', ..] => Some(2),
        _ => None,
    }
}

/// The lexeme that a byte can begin, where no comment and no attribute begins.
#[tactic(auto, unfolding(crate::specs::Lengths::class_of))]
fn class_of(first: u8) -> Option<Lexeme>
    ensures { result ≡ class_of first }
{
    if is_letter(first) {
        return Some(Lexeme::Identifier);
    }
    if is_blank(first) {
        return Some(Lexeme::Blank);
    }
    if is_mark_byte(first) {
        return Some(Lexeme::Symbol);
    }
    match first {
        b'0'..=b'9' | b'\'' => Some(Lexeme::Numeral),
        b'`' => Some(Lexeme::Tick),
        b'$' => Some(Lexeme::SystemName),
        b'\\' => Some(Lexeme::Continued),
        _ => None,
    }
}

/// Only blanks stand before a `)`, which comes.
fn only_blanks(bytes: &[u8]) -> bool
    ensures { result ≡ only_blanks bytes.now }
{
    for byte in bytes {
        if *byte == b')' {
            return true;
        }
        if !is_blank(*byte) {
            return false;
        }
    }
    false
}

/// A comment or an attribute begins here.
fn opens(bytes: &[u8]) -> bool
    ensures { result ≡ opens bytes.now }
{
    match bytes {
        [b'/', b'/' | b'*', ..] => true,
        [b'(', b'*', rest @ ..] => !only_blanks(rest),
        _ => false,
    }
}

/// The lexeme that can begin here.
#[tactic(auto, unfolding(crate::specs::Lengths::first_lexeme))]
fn first_lexeme(bytes: &[u8]) -> Option<Lexeme>
    ensures { result ≡ first_lexeme bytes.now }
{
    let (first, _) = bytes.split_first()?;
    if opens(bytes) {
        Some(Lexeme::Passed)
    } else {
        class_of(*first)
    }
}

/// How long the lexeme of this kind is.
#[tactic(auto, unfolding(crate::specs::Lengths::lexeme_len))]
fn lexeme_len(lexeme: Lexeme, bytes: &[u8]) -> Option<usize>
    ensures { result ≡ lexeme_len lexeme bytes.now }
{
    match lexeme {
        Lexeme::Blank => Some(1),
        Lexeme::Passed => passed_len(bytes),
        Lexeme::Continued => continued_len(bytes),
        Lexeme::Tick | Lexeme::SystemName => named_len(bytes),
        Lexeme::Identifier => Some(name_len(bytes)),
        Lexeme::Numeral => {
            let len = number_len(bytes);
            if len > 0 { Some(len) } else { None }
        }
        Lexeme::Symbol => Some(mark_len(bytes)),
    }
}

/// The longest lexeme in front, and its length in bytes.
#[tactic(auto, unfolding(crate::specs::Lengths::lexeme_at, crate::specs::Lengths::lexeme_by))]
pub fn lexeme_at(bytes: &[u8]) -> Option<(Lexeme, usize)>
    ensures { result ≡ lexeme_at bytes.now }
{
    let lexeme = first_lexeme(bytes)?;
    let len = lexeme_len(lexeme, bytes)?;
    Some((lexeme, len))
}
