//! A stack of words, least bit first, and what operators make of the words on its top (IEEE 1364-2005, clause 5). The row beside it is
//! room to work in: what it holds is lost.

ghost use Rattle.std.specs.Prelude.{◌≡◌, ◌&&◌, ◌++◌, ◌+◌, ◌-◌, ◌<◌, ◌≤◌, ℕ, Bool, true, List, take, drop, replicate, length, OnOk};
ghost use Rattle.bit_base.specs.Numbers.{extended, sign_of as sign};
ghost use Rattle.bit_words.specs.Joins.{repeated};
ghost use Rattle.flat_design.specs.Bits.{bit_at, bits_from, offset_of};
ghost use Rattle.flat_design.specs.Values as spec;
ghost use Rattle.flat_words.specs.Applies.{unary_applies, binary_applies};
ghost use Rattle.flat_words.specs.Tables.{in_table};

use crate::operators::{push_binary, push_unary};
use crate::start::{push_select, start_at};
use bit_words::bitwise::sign_of;
use flat_design::expr::{FlatBinary, FlatUnary};
use flat_design::net::Net;
use std::alloc::AllocError;
use std::vec::Vec;

/// Puts the row in the place of what stands on the stack from a height on.
fn replace_top(stack: &mut Vec<bool>, height: usize, row: &[bool]) -> Result<(), AllocError>
    ensures { OnOk result (stack.new.items ≡ take height stack.old.items ++ row.now) }
{
    stack.truncate(height);
    stack.extend_from_slice(row)
}

/// The word from a height on.
fn top(stack: &[bool], height: usize) -> &[bool]
    requires { height ≤ length stack.now }
    ensures { result.now ≡ drop height stack.now }
{
    &stack[height..]
}

/// Puts what an operator makes of the word from a height on in its place.
pub fn apply_unary(
    stack: &mut Vec<bool>,
    row: &mut Vec<bool>,
    height: usize,
    op: FlatUnary,
) -> Result<(), AllocError>
    requires high { height ≤ length stack.old.items }
    requires applies { unary_applies op (length stack.old.items - height) ≡ true }
    ensures { (base a : List Bool) → stack.old.items ≡ base ++ a → length base ≡ height → OnOk result (stack.new.items ≡ base ++ spec.unary_value op a) }
{
    row.clear();
    push_unary(row, op, &stack[height..])?;
    replace_top(stack, height, row.as_slice())
}

/// Puts what an operator makes of the two words from a height on, and from a higher one on, in their place.
pub fn apply_binary(
    stack: &mut Vec<bool>,
    row: &mut Vec<bool>,
    height: usize,
    middle: usize,
    op: FlatBinary,
    signed: bool,
    by_sign: bool,
) -> Result<(), AllocError>
    requires high { height ≤ middle }
    requires higher { middle ≤ length stack.old.items }
    requires applies { binary_applies op (middle - height) (length stack.old.items - middle) ≡ true }
    ensures { (x y : Bool) (base a b : List Bool) → by_sign ≡ (x && y) → stack.old.items ≡ (base ++ a) ++ b → length base ≡ height → length (base ++ a) ≡ middle → OnOk result (stack.new.items ≡ base ++ spec.binary_value op signed (x, a) (y, b)) }
{
    row.clear();
    push_binary(
        row,
        op,
        signed,
        by_sign,
        &stack[height..middle],
        &stack[middle..],
    )?;
    replace_top(stack, height, row.as_slice())
}

/// Puts the bits of a select in the place of its index, which stands on the stack from a height on.
pub fn apply_select(
    stack: &mut Vec<bool>,
    row: &mut Vec<bool>,
    table: &[bool],
    height: usize,
    net: &Net,
    signed: bool,
    width: u32,
) -> Result<(), AllocError>
    requires high { height ≤ length stack.old.items }
    ensures { (base index : List Bool) → stack.old.items ≡ base ++ index → length base ≡ height → OnOk result (stack.new.items ≡ base ++ bits_from (bit_at (in_table table.now) net.now (offset_of signed index net.now.lsb)) 0 width) }
{
    let start = start_at(row, net, signed, top(stack.as_slice(), height))?;
    stack.truncate(height);
    push_select(stack, table, net, start, width)?;
    Ok(())
}

/// Repeats the word from a height on, so many times in all, at least once.
pub fn apply_repeat(
    stack: &mut Vec<bool>,
    row: &mut Vec<bool>,
    height: usize,
    count: u32,
) -> Result<(), AllocError>
    requires high { height ≤ length stack.old.items }
    ensures { (base a : List Bool) → stack.old.items ≡ base ++ a → length base ≡ height → OnOk result (stack.new.items ≡ base ++ repeated count a) }
{
    row.clear();
    row.extend_from_slice(&stack[height..])?;
    stack.truncate(height);
    for _time in 0..count {
        stack.extend_from_slice(row.as_slice())?;
    }
    Ok(())
}

/// What a word is filled up with.
fn fill_of(by_sign: bool, word: &[bool]) -> bool
    ensures { result ≡ (by_sign && sign word.now) }
{
    by_sign && sign_of(word)
}

fn resize_to(stack: &mut Vec<bool>, long: usize, fill: bool) -> Result<(), AllocError>
    ensures { OnOk result (stack.new.items ≡ take long stack.old.items ++ replicate (long - length stack.old.items) fill) }
{
    stack.resize(long, fill)
}

/// Cuts the word from a height on to a size, or fills it up: with its sign where `by_sign`, else with false.
pub fn apply_resize(
    stack: &mut Vec<bool>,
    height: usize,
    by_sign: bool,
    size: u32,
) -> Result<(), AllocError>
    requires high { height ≤ length stack.old.items }
    ensures { (base a : List Bool) → stack.old.items ≡ base ++ a → length base ≡ height → OnOk result (stack.new.items ≡ base ++ extended size by_sign a) }
{
    let fill = fill_of(by_sign, top(stack.as_slice(), height));
    resize_to(stack, height + size as usize, fill)?;
    Ok(())
}
