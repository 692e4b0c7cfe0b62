//! The lines of chains.

ghost use Rattle.std.specs.Prelude.{◌≡◌, IfOk, option_map};
ghost use Rattle.lemma_checker.specs.Checker.{link};
ghost use Rattle.cert_text.specs.Numbers.{number_of};
ghost use Rattle.cert_text.specs.Lines.{each_of, before_slash, chain_of};

use crate::numbers::number_of;
use crate::words::Words;
use lemma_checker::chain::Chain;
use std::alloc::{AllocError, Global};
use std::vec::Vec;

/// The numbers that the words are, if all of them are some.
fn numbers_of(alloc: Global, words: &mut Words<'_>) -> Result<Option<Vec<u32>>, AllocError>
    ensures { IfOk result (λ o. option_map (λ v. v.items) o ≡ each_of number_of words.old) }
{
    let mut numbers = Vec::new(alloc);
    while let Some(word) = words.next_word() {
        match number_of(word) {
            Some(number) => numbers.push(number)?,
            None => return Ok(None),
        }
    }
    Ok(Some(numbers))
}

/// The numbers up to the word `/`, which is taken too, if there are words like these.
fn before_slash(alloc: Global, words: &mut Words<'_>) -> Result<Option<Vec<u32>>, AllocError>
    ensures { IfOk result (λ o. option_map (λ v. (v.items, words.new)) o ≡ before_slash words.old) }
{
    let mut numbers = Vec::new(alloc);
    while let Some(word) = words.next_word() {
        if word == b"/".as_slice() {
            return Ok(Some(numbers));
        }
        match number_of(word) {
            Some(number) => numbers.push(number)?,
            None => return Ok(None),
        }
    }
    Ok(None)
}

/// The chain that a line is: `r`, the numbers of its clauses, `/`, and its pivots.
#[tactic(auto, unfolding(crate::specs::Lines::chain_of))]
pub(crate) fn chain_of(alloc: Global, line: &[u8]) -> Result<Option<Chain>, AllocError>
    ensures { IfOk result (λ o. option_map link o ≡ chain_of line.now) }
{
    let mut words = Words::new(line);
    let Some(word) = words.next_word() else {
        return Ok(None);
    };
    if word != b"r".as_slice() {
        return Ok(None);
    }
    let Some(ids) = before_slash(alloc, &mut words)? else {
        return Ok(None);
    };
    if ids.is_empty() {
        return Ok(None);
    }
    let Some(pivots) = numbers_of(alloc, &mut words)? else {
        return Ok(None);
    };
    Ok(Some(Chain { ids, pivots }))
}
