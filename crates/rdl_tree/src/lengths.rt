//! How long the piece in front of a text is.

ghost use Rattle.std.specs.Prelude.{◌≡◌, ◌≤◌, ◌<◌, ◌+◌, ◌^◌, length, IfSome};
ghost use Rattle.std.specs.List.{prefix_len};
ghost use Rattle.rdl_tree.specs.Lengths.{more_digits, digits_len, behind, hexadecimal_len, based_len, sized_len, number_len, closing_len, string_len, mark_len, comment_len, gap_len, piece_of, piece_len, piece_at};
ghost use Rattle.rdl_tree.specs.Spelling.{is_word_byte, is_in_line};
ghost use Rattle.rdl_tree.specs.Closing.{closes};

use crate::bytes::{
    base_of, is_blank, is_digit, is_letter, is_mark_byte, is_mark_pair, is_word_byte,
};
use crate::numbers::is_size;
use crate::piece::Piece;
use crate::token::RdlTokenKind;

/// What ends at the first byte that closes it.
#[derive(Clone, Copy, Debug, PartialEq, Eq, Drop)]
pub enum Closing {
    /// A `"` that no `\` stands before.
    Str,
    /// A `/` behind a `*`.
    Comment,
}

/// The front of word bytes.
fn word_len(bytes: &[u8]) -> usize
    ensures value { result ≡ prefix_len is_word_byte bytes.now }
    ensures within { result ≤ length bytes.now }
{
    bytes.iter().take_while(|byte| is_word_byte(**byte)).count()
}

/// The front without a line feed.
fn line_len(bytes: &[u8]) -> usize
    ensures value { result ≡ prefix_len is_in_line bytes.now }
    ensures within { result ≤ length bytes.now }
{
    bytes.iter().take_while(|byte| **byte != b'\n').count()
}

/// The longest front of digits and `_` that ends in a digit.
fn more_digits(base: u8, bytes: &[u8]) -> usize
    ensures value { result ≡ more_digits base bytes.now }
    ensures within { result ≤ length bytes.now }
{
    let mut len = 0;
    for (at, byte) in bytes.iter().enumerate() {
        if is_digit(base, *byte) {
            len = at + 1;
        } else if *byte != b'_' {
            return len;
        }
    }
    len
}

/// The longest front of digits with `_` between them.
#[tactic(auto, unfolding(crate::specs::Lengths::digits_len))]
fn digits_len(base: u8, bytes: &[u8]) -> usize
    ensures value { result ≡ digits_len base bytes.now }
    ensures within { result ≤ length bytes.now }
{
    match bytes {
        [first, rest @ ..] if is_digit(base, *first) => 1 + more_digits(base, rest),
        _ => 0,
    }
}

/// The byte closes it behind the byte before.
fn is_closed(closing: Closing, before: u8, byte: u8) -> bool
    ensures { result ≡ closes closing before byte }
{
    match closing {
        Closing::Str => byte == b'"' && before != b'\\',
        Closing::Comment => before == b'*' && byte == b'/',
    }
}

/// The longest front that ends at the first byte that closes it.
fn closing_len(closing: Closing, before: u8, bytes: &[u8]) -> Option<usize>
    ensures value { result ≡ closing_len (closes closing) before bytes.now }
    ensures within { IfSome result (λ n. n ≤ length bytes.now) }
{
    let mut last = before;
    for (at, byte) in bytes.iter().enumerate() {
        if is_closed(closing, last, *byte) {
            return Some(at + 1);
        }
        last = *byte;
    }
    None
}

/// Digits behind so many bytes, 0 where there are no digits.
fn behind(before: usize, len: usize) -> usize
    requires { before + len < 2 ^ 64 }
    ensures { result ≡ behind before len }
{
    if len > 0 { before + len } else { 0 }
}

/// `0x` or `0X` and hexadecimal digits, 0 where they don't stand here.
#[tactic(auto, unfolding(crate::specs::Lengths::hexadecimal_len))]
fn hexadecimal_len(bytes: &[u8]) -> usize
    ensures value { result ≡ hexadecimal_len bytes.now }
    ensures within { result ≤ length bytes.now }
{
    match bytes {
        [first, mark, digits @ ..] if *first == b'0' && matches!(*mark, b'x' | b'X') => {
            behind(2, digits_len(16, digits))
        }
        _ => 0,
    }
}

/// `'`, the letter of a base and digits, 0 where they don't stand here.
#[tactic(auto, unfolding(crate::specs::Lengths::based_len))]
fn based_len(bytes: &[u8]) -> usize
    ensures value { result ≡ based_len bytes.now }
    ensures within { result ≤ length bytes.now }
{
    match bytes {
        [quote, letter, digits @ ..] if *quote == b'\'' => {
            behind(2, digits_len(base_of(*letter), digits))
        }
        _ => 0,
    }
}

/// A number with a size, 0 where none stands here.
#[tactic(auto, unfolding(crate::specs::Lengths::sized_len))]
fn sized_len(bytes: &[u8]) -> usize
    ensures value { result ≡ sized_len bytes.now }
    ensures within { result ≤ length bytes.now }
{
    let (size, rest) = bytes.split_at(digits_len(10, bytes));
    if is_size(size) {
        behind(size.len(), based_len(rest))
    } else {
        0
    }
}

/// A number.
#[tactic(auto, unfolding(crate::specs::Lengths::number_len))]
fn number_len(bytes: &[u8]) -> usize
    ensures value { result ≡ number_len bytes.now }
    ensures within { result ≤ length bytes.now }
{
    digits_len(10, bytes)
        .max(hexadecimal_len(bytes))
        .max(sized_len(bytes))
}

/// A string.
#[tactic(auto, unfolding(crate::specs::Lengths::string_len))]
fn string_len(bytes: &[u8]) -> Option<usize>
    ensures value { result ≡ string_len bytes.now }
    ensures within { IfSome result (λ n. n ≤ length bytes.now) }
{
    let (_, rest) = bytes.split_first()?;
    let len = closing_len(Closing::Str, b'"', rest)?;
    Some(1 + len)
}

/// A mark.
#[tactic(auto, unfolding(crate::specs::Lengths::mark_len))]
fn mark_len(bytes: &[u8]) -> Option<usize>
    ensures value { result ≡ mark_len bytes.now }
    ensures within { IfSome result (λ n. n ≤ length bytes.now) }
{
    match bytes {
        [first, ..] if is_mark_byte(*first) => Some(1),
        [first, second, ..] if is_mark_pair(*first, *second) => Some(2),
        _ => None,
    }
}

/// A comment.
#[tactic(auto, unfolding(crate::specs::Lengths::comment_len))]
fn comment_len(bytes: &[u8]) -> Option<usize>
    ensures value { result ≡ comment_len bytes.now }
    ensures within { IfSome result (λ n. n ≤ length bytes.now) }
{
    match bytes {
        [_, b'/', rest @ ..] => Some(2 + line_len(rest)),
        [_, b'*', rest @ ..] => {
            let len = closing_len(Closing::Comment, 0, rest)?;
            Some(2 + len)
        }
        _ => None,
    }
}

/// A blank or a comment.
#[tactic(auto, unfolding(crate::specs::Lengths::gap_len))]
fn gap_len(bytes: &[u8]) -> Option<usize>
    ensures value { result ≡ gap_len bytes.now }
    ensures within { IfSome result (λ n. n ≤ length bytes.now) }
{
    let (first, _) = bytes.split_first()?;
    if is_blank(*first) {
        Some(1)
    } else {
        comment_len(bytes)
    }
}

/// The piece that a byte can begin.
#[tactic(auto, unfolding(crate::specs::Lengths::piece_of))]
fn piece_of(first: u8) -> Option<Piece>
    ensures { result ≡ piece_of first }
{
    if is_digit(10, first) {
        return Some(Piece::Token(RdlTokenKind::Num));
    }
    if is_letter(first) {
        return Some(Piece::Token(RdlTokenKind::Word));
    }
    if first == b'"' {
        return Some(Piece::Token(RdlTokenKind::Str));
    }
    if is_blank(first) || first == b'/' {
        return Some(Piece::Gap);
    }
    if is_mark_byte(first) || matches!(first, b'-' | b'+' | b'%') {
        return Some(Piece::Token(RdlTokenKind::Mark));
    }
    None
}

/// How long the piece of this kind is.
#[tactic(auto, unfolding(crate::specs::Lengths::piece_len))]
fn piece_len(piece: Piece, bytes: &[u8]) -> Option<usize>
    ensures value { result ≡ piece_len piece bytes.now }
    ensures within { IfSome result (λ n. n ≤ length bytes.now) }
{
    match piece {
        Piece::Gap => gap_len(bytes),
        Piece::Token(RdlTokenKind::Word) => Some(word_len(bytes)),
        Piece::Token(RdlTokenKind::Num) => Some(number_len(bytes)),
        Piece::Token(RdlTokenKind::Str) => string_len(bytes),
        Piece::Token(RdlTokenKind::Mark) => mark_len(bytes),
    }
}

#[tactic(auto, unfolding(crate::specs::Lengths::piece_at, crate::specs::Lengths::piece_by))]
/// The longest piece in front, and its length in bytes.
pub fn piece_at(bytes: &[u8]) -> Option<(Piece, usize)>
    ensures { result ≡ piece_at bytes.now }
{
    let (first, _) = bytes.split_first()?;
    let piece = piece_of(*first)?;
    let len = piece_len(piece, bytes)?;
    Some((piece, len))
}
