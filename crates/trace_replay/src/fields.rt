//! Reading the bits of a line of a trace text, where it is that of the block.

ghost use Rattle.std.specs.Prelude.{◌≡◌, ◌==◌, ◌++◌, map, reverse, length, true, IfOk, OnOk};
ghost use Rattle.trace_replay.specs.Lines.{all_binary};
ghost use Rattle.trace_replay.specs.Steps.{BitsOf, FieldAt, Follows};
ghost use Rattle.trace_replay.specs.TraceText.{start_line, edge_line};

use crate::form::all_binary;
use crate::input::{INPUT_BITS, INPUTS};
use crate::trace::START_BITS;
use std::alloc::{AllocError, Global};
use std::vec::Vec;

/// What follows `head`, where the text begins with it.
fn after<'a>(text: &'a [u8], head: &[u8]) -> Option<&'a [u8]>
    ensures { Follows head.now text.now result }
{
    if text.starts_with(head) {
        Some(&text[head.len()..])
    } else {
        None
    }
}

/// The digits of a field of this name and width at the front of a text, and what follows them.
fn field<'a>(text: &'a [u8], name: &[u8], width: usize) -> Option<(&'a [u8], &'a [u8])>
    ensures { FieldAt name.now width text.now result }
{
    let rest = after(text, name)?;
    if rest.len() < width {
        return None;
    }
    let (digits, rest) = rest.split_at(width);
    if !all_binary(digits) {
        return None;
    }
    Some((digits, rest))
}

/// The bits of binary digits, the last one first.
fn bits_of_digits(alloc: Global, digits: &[u8]) -> Result<Vec<bool>, AllocError>
    ensures { IfOk result (λ bits. bits.items ≡ map (λ digit. digit == 0x31) (reverse digits.now)) }
{
    digits
        .iter()
        .rev()
        .map(|digit| *digit == b'1')
        .collect(alloc)
}

/// Appends the bits of binary digits, the last one first.
fn push_bits(alloc: Global, bits: &mut Vec<bool>, digits: &[u8]) -> Result<(), AllocError>
    ensures { OnOk result (bits.new.items ≡ bits.old.items ++ map (λ digit. digit == 0x31) (reverse digits.now)) }
{
    let more = bits_of_digits(alloc, digits)?;
    bits.extend_from_slice(&more)
}

/// The bits of the line of the register's start, where it is one.
pub(crate) fn start_of_line(alloc: Global, line: &[u8]) -> Result<Option<Vec<bool>>, AllocError>
    ensures { IfOk result (BitsOf start_line START_BITS line.now) }
{
    let Some((digits, rest)) = field(line, b"start v ".as_slice(), START_BITS) else {
        return Ok(None);
    };
    if !rest.is_empty() {
        return Ok(None);
    }
    Ok(Some(bits_of_digits(alloc, digits)?))
}

/// The bits of the line of an edge, where it is one.
pub(crate) fn edge_of_line(alloc: Global, line: &[u8]) -> Result<Option<Vec<bool>>, AllocError>
    ensures { IfOk result (BitsOf edge_line INPUT_BITS line.now) }
{
    let Some(mut rest) = after(line, b"edge".as_slice()) else {
        return Ok(None);
    };
    let mut bits = Vec::with_capacity(alloc, INPUT_BITS)?;
    for input in INPUTS {
        let Some((digits, more)) = field(rest, input.label(), input.width()) else {
            return Ok(None);
        };
        push_bits(alloc, &mut bits, digits)?;
        rest = more;
    }
    if rest.is_empty() {
        Ok(Some(bits))
    } else {
        Ok(None)
    }
}
