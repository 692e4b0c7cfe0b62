//! The form of a line of a trace text, where names and numbers of digits are left open.

ghost use Rattle.std.specs.Prelude.{◌≡◌, ◌==◌, ◌<◌, length, map, count_by, IfOk, IfSome};
ghost use Rattle.std.specs.List.{list_all, position};
ghost use Rattle.trace_replay.specs.Lines.{words_of, is_binary, all_binary, are_digits, is_field, has_start_form, has_edge_form};

use std::alloc::{AllocError, Global};
use std::vec::Vec;

/// Whether a byte is a binary digit.
fn is_binary(byte: u8) -> bool
    ensures { result ≡ is_binary byte }
{
    byte == b'0' || byte == b'1'
}

/// Whether each byte is a binary digit.
pub(crate) fn all_binary(word: &[u8]) -> bool
    ensures { result ≡ all_binary word.now }
{
    word.iter().all(|byte| is_binary(*byte))
}

/// Whether a word is one or more binary digits.
fn are_digits(word: &[u8]) -> bool
    ensures { result ≡ are_digits word.now }
{
    if word.is_empty() {
        return false;
    }
    all_binary(word)
}

/// The place of the first sign of equality.
fn equals_sign(word: &[u8]) -> Option<usize>
    ensures place { result ≡ position (λ byte. byte == 0x3D) word.now }
    ensures inside { IfSome result (λ place. place < length word.now) }
{
    word.iter().position(|byte| *byte == b'=')
}

/// Whether a word is a name, a sign of equality and digits.
fn is_field(word: &[u8]) -> bool
    ensures { result ≡ is_field word.now }
{
    match equals_sign(word) {
        Some(place) => place > 0 && are_digits(&word[place + 1..]),
        None => false,
    }
}

/// Whether each word is a name with digits.
fn are_fields(words: &[&[u8]]) -> bool
    ensures { result ≡ list_all (λ w. is_field w.now) words.now }
{
    words.iter().all(|word| is_field(word))
}

/// How many blanks a line has.
fn blanks(line: &[u8]) -> usize
    ensures { result ≡ count_by (λ byte. byte == 32) line.now }
{
    line.iter().filter(|byte| **byte == b' ').count()
}

/// The words of a line.
fn words<'a>(alloc: Global, line: &'a [u8]) -> Result<Vec<&'a [u8]>, AllocError>
    ensures { IfOk result (λ words. map (λ w. w.now) words.items ≡ words_of line.now) }
{
    line.split(|byte| *byte == b' ').collect(alloc)
}

/// Whether a line is `start`, a path and digits.
pub(crate) fn has_start_form(alloc: Global, line: &[u8]) -> Result<bool, AllocError>
    ensures { IfOk result (λ form. form ≡ has_start_form line.now) }
{
    if blanks(line) != 2 {
        return Ok(false);
    }
    let words = words(alloc, line)?;
    match words.as_slice() {
        [word, path, bits] => Ok(
            *word == b"start".as_slice() && !path.is_empty() && are_digits(bits),
        ),
        _ => Ok(false),
    }
}

/// Whether a line is `edge` and a name with digits for each of six inputs.
pub(crate) fn has_edge_form(alloc: Global, line: &[u8]) -> Result<bool, AllocError>
    ensures { IfOk result (λ form. form ≡ has_edge_form line.now) }
{
    if blanks(line) != 6 {
        return Ok(false);
    }
    let words = words(alloc, line)?;
    match words.as_slice() {
        [word, fields @ ..] if *word == b"edge".as_slice() => Ok(are_fields(fields)),
        _ => Ok(false),
    }
}
