//! The lines of clauses over latches.

ghost use Rattle.std.specs.Prelude.{◌≡◌, ◌+◌, ◌*◌, ◌≤◌, if◌then◌else◌, length, IfOk, IfSome, option_map};
ghost use Rattle.unroll_cnf.specs.Latches.{IsOfLatches};
ghost use Rattle.cert_text.specs.Numbers.{number_of};
ghost use Rattle.cert_text.specs.Lines.{each_of, latch_of, literal_of, code_of, are_apart, clause_of};

use crate::numbers::number_of;
use crate::words::Words;
use std::alloc::{AllocError, Global};
use std::collections::HashSet;
use std::vec::Vec;
use unroll_cnf::{LatchClause, LatchLiteral};

/// The literal of the latch that the word numbers from 1, if there is one of these latches.
fn latch_of(latches: usize, negated: bool, word: &[u8]) -> Option<LatchLiteral>
    ensures { result ≡ latch_of latches negated (number_of word.now) }
{
    match number_of(word) {
        Some(number) => {
            if 0 < number && number as usize <= latches {
                Some(LatchLiteral {
                    latch: number - 1,
                    negated,
                })
            } else {
                None
            }
        }
        None => None,
    }
}

/// The literal that the word is, if it is one of these latches.
#[tactic(auto, unfolding(crate::specs::Lines::literal_of))]
fn literal_of(latches: usize, word: &[u8]) -> Option<LatchLiteral>
    ensures { result ≡ literal_of latches word.now }
{
    match word {
        [] => None,
        [first, digits @ ..] => {
            if *first == b'-' {
                latch_of(latches, true, digits)
            } else {
                latch_of(latches, false, word)
            }
        }
    }
}

/// The literals that the words are, if all of them are some.
fn literals_of(
    alloc: Global,
    latches: usize,
    words: &mut Words<'_>,
) -> Result<Option<Vec<LatchLiteral>>, AllocError>
    ensures { IfOk result (λ o. option_map (λ v. v.items) o ≡ each_of (literal_of latches) words.old) }
{
    let mut literals = Vec::new(alloc);
    while let Some(word) = words.next_word() {
        match literal_of(latches, word) {
            Some(literal) => literals.push(literal)?,
            None => return Ok(None),
        }
    }
    Ok(Some(literals))
}

/// A number for each literal.
fn code_of(literal: LatchLiteral) -> u64
    ensures { result ≡ code_of literal }
{
    2 * u64::from(literal.latch) + if literal.negated { 1 } else { 0 }
}

/// Whether no literal stands twice.
fn are_apart(alloc: Global, literals: &[LatchLiteral]) -> Result<bool, AllocError>
    ensures { IfOk result (λ b. b ≡ are_apart literals.now) }
{
    let mut seen: HashSet<u64> = HashSet::new(alloc);
    let mut left = literals.len();
    while left > 0 {
        left -= 1;
        if !seen.insert(code_of(literals[left]))? {
            return Ok(false);
        }
    }
    Ok(true)
}

/// The clause that a line is: `c` and literals of these latches, none twice.
pub(crate) fn clause_of(
    alloc: Global,
    latches: usize,
    line: &[u8],
) -> Result<Option<LatchClause>, AllocError>
    ensures clause { IfOk result (λ o. o ≡ clause_of latches line.now) }
    ensures of { IfOk result (λ o. IfSome o (IsOfLatches latches)) }
    ensures few { IfOk result (λ o. IfSome o (λ d. length d ≤ length line.now)) }
{
    let mut words = Words::new(line);
    let Some(word) = words.next_word() else {
        return Ok(None);
    };
    if word != b"c".as_slice() {
        return Ok(None);
    }
    let Some(literals) = literals_of(alloc, latches, &mut words)? else {
        return Ok(None);
    };
    if are_apart(alloc, literals.as_slice())? {
        Ok(Some(LatchClause::of(literals)))
    } else {
        Ok(None)
    }
}
