//! Whether a case has a label for every word of its selector.

ghost use Rattle.std.specs.Prelude.{◌≡◌, ◌≤◌, ◌^◌, ℕ, Bool, List, true, is_some, map, IfOk};
ghost use Rattle.std.specs.List.{list_all, list_any};
ghost use Rattle.bit_base.specs.Operators.{each_place, are_all};
ghost use Rattle.bit_base.specs.Numbers.{low_bits};
ghost use Rattle.flat_design.specs.declared.net.Net as declared;
ghost use Rattle.flat_design.specs.Reads.{constant_in};
ghost use Rattle.flat_design.specs.Statements.{matches_label, matches_any};
ghost use Rattle.flat_design.specs.Flows.{spread, no_values, is_full, test_of};
ghost use Rattle.flat_flows.specs.Arms.{tests_of};

use crate::left::is_constant;
use crate::range::constant_of;
use bit_base::bits::Bits;
use bit_words::bitwise::{are_all, not_of, or_of, xnor_of};
use bit_words::moves::extended_to;
use bit_words::numbers::low_word;
use flat_design::expr::{FlatExpr, FlatNode};
use flat_design::stmt::{FlatArm, FlatLabel};
use std::alloc::{AllocError, Global};

/// Whether a constant label matches a word.
fn label_matches(alloc: Global, label: &FlatLabel, word: &[bool]) -> Result<bool, AllocError>
    ensures { (nets : List declared.Net) → is_some (constant_in nets label.now.value) ≡ true → IfOk result (λ m. m ≡ matches_label nets no_values word.now label.now) }
{
    let Some(value) = constant_of(alloc, &label.value)? else {
        return Ok(false);
    };
    let same = xnor_of(alloc, value.as_slice(), word)?;
    let careless = not_of(alloc, label.care.as_slice())?;
    let each = or_of(alloc, careless.as_slice(), same.as_slice())?;
    Ok(are_all(each.as_slice()))
}

/// Whether one of these constant labels matches a word.
fn any_matches(alloc: Global, labels: &[FlatLabel], word: &[bool]) -> Result<bool, AllocError>
    ensures { (nets : List declared.Net) → list_all (λ l. is_some (constant_in nets l.value)) labels.now ≡ true → IfOk result (λ m. m ≡ matches_any nets no_values word.now labels.now) }
{
    for label in labels {
        if label_matches(alloc, label, word)? {
            return Ok(true);
        }
    }
    Ok(false)
}

/// Whether one of these arms, whose labels are constant, matches a word.
fn arms_match(alloc: Global, arms: &[FlatArm], word: &[bool]) -> Result<bool, AllocError>
    ensures { (nets : List declared.Net) → list_all (λ t. t.constant) (tests_of nets arms.now) ≡ true → IfOk result (λ m. m ≡ list_any (λ t. t.matches word.now) (tests_of nets arms.now)) }
{
    for arm in arms {
        if any_matches(alloc, arm.labels.as_slice(), word)? {
            return Ok(true);
        }
    }
    Ok(false)
}

/// Whether these labels are constant.
fn are_constant(labels: &[FlatLabel]) -> bool
    ensures { (nets : List declared.Net) → result ≡ list_all (λ l. is_some (constant_in nets l.value)) labels.now }
{
    for label in labels {
        if !is_constant(&label.value) {
            return false;
        }
    }
    true
}

/// Whether all labels of these arms are constant.
fn have_constant_labels(arms: &[FlatArm]) -> bool
    ensures { (nets : List declared.Net) → result ≡ list_all (λ t. t.constant) (tests_of nets arms.now) }
{
    for arm in arms {
        if !are_constant(arm.labels.as_slice()) {
            return false;
        }
    }
    true
}

/// How many bits an expression has before it is extended.
fn own_size(e: &FlatExpr) -> u32
    ensures { result ≡ (spread e.now).own }
{
    match &e.node {
        FlatNode::Resize { arg, by_sign: _ } => {
            let arg = arg.get();
            if arg.size <= e.size {
                own_size(arg)
            } else {
                e.size
            }
        }
        _ => e.size,
    }
}

/// The word of a number at an expression's size, which is at most 8.
fn word_at(alloc: Global, size: u32, number: u32) -> Result<Bits, AllocError>
    ensures { size ≤ 8 → IfOk result (λ word. word ≡ low_bits size number) }
{
    low_word(alloc, number as u128, size.min(8) as usize)
}

/// The extension of the word of a number, of as many bits as an expression has before it is extended, which are at most 8.
fn extension(alloc: Global, e: &FlatExpr, number: u32) -> Result<Bits, AllocError>
    ensures { (spread e.now).own ≤ 8 → IfOk result (λ word. word ≡ (spread e.now).widen (low_bits (spread e.now).own number)) }
{
    match &e.node {
        FlatNode::Resize { arg, by_sign } => {
            let arg = arg.get();
            if arg.size <= e.size {
                let word = extension(alloc, arg, number)?;
                extended_to(alloc, e.size, *by_sign, word.as_slice())
            } else {
                word_at(alloc, e.size, number)
            }
        }
        _ => word_at(alloc, e.size, number),
    }
}

/// How many words there are of so many bits.
fn word_count(size: u32) -> u32
    requires { size ≤ 8 }
    ensures { result ≡ 2 ^ size }
{
    1 << size
}

/// Whether each word of the selector has a label: the labels are constant, the selector has at most 8 bits before it is extended, and
/// each value of these matches a label.
pub fn is_full_case(
    alloc: Global,
    selector: &FlatExpr,
    arms: &[FlatArm],
) -> Result<bool, AllocError>
    ensures { (nets : List declared.Net) → IfOk result (λ full. full ≡ is_full (spread selector.now) (tests_of nets arms.now)) }
{
    let own = own_size(selector);
    if own > 8 || !have_constant_labels(arms) {
        return Ok(false);
    }
    let words = word_count(own);
    for number in 0..words {
        let word = extension(alloc, selector, number)?;
        if !arms_match(alloc, arms, word.as_slice())? {
            return Ok(false);
        }
    }
    Ok(true)
}
