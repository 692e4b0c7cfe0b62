//! The bus words of registers, and the first that two have in common.

ghost use Rattle.std.specs.Prelude.{◌≡◌, ◌++◌, Some, None, map, IfOk, OnOk};
ghost use Rattle.bit_base.specs.declared.place.Place.{Place};
ghost use Rattle.std.specs.List.Sorted.{IsPermutation, IsNonDecreasingBy};
ghost use Rattle.rdl_words.specs.Words as spec;
ghost use Rattle.rdl_words.specs.Clashes.{IsFirstClash, HasNone};

use crate::word::Word;
use bit_base::place::{Place, first_of};
use rdl_layout::register::Register;
use rdl_text::names::note_if;
use std::alloc::{AllocError, Global};
use std::vec::Vec;

// Notes the word of this number of a register, where the address space has it.
fn note_word(out: &mut Vec<Word>, register: &Register, number: u64) -> Result<(), AllocError>
    ensures { OnOk result (map spec.spot out.new.items ≡ map spec.spot out.old.items ++ spec.spot_in register.now number) }
{
    let bytes = u128::from(register.access / 8);
    let address = u128::from(register.address) + bytes * u128::from(number);
    if address < 4_294_967_296 {
        let word = Word {
            address: address as u32,
            place: register.place,
        };
        out.push(word)?;
    }
    Ok(())
}

// The number of bus words of a register.
fn words_in(register: &Register) -> u64
    ensures { result ≡ spec.words_in register.now }
{
    if register.access == 0 {
        0
    } else {
        register.width / register.access
    }
}

// Notes the words of a register.
fn note_register(out: &mut Vec<Word>, register: &Register) -> Result<(), AllocError>
    ensures { OnOk result (map spec.spot out.new.items ≡ map spec.spot out.old.items ++ spec.spots_below register.now (spec.words_in register.now)) }
{
    for number in 0..words_in(register) {
        note_word(out, register, number)?;
    }
    Ok(())
}

/// The bus words of registers, one register after the other.
pub fn words_of(alloc: Global, registers: &[Register]) -> Result<Vec<Word>, AllocError>
    ensures { IfOk result (λ ws. map spec.spot ws.items ≡ spec.spots_of registers.now) }
{
    let mut out = Vec::new(alloc);
    for register in registers {
        note_register(&mut out, register)?;
    }
    Ok(out)
}

// A number for the order by address and then by place.
fn key(word: &Word) -> u128
    ensures { result ≡ spec.key word.now }
{
    let address = u128::from(word.address);
    let file = u128::from(word.place.file);
    let line = u128::from(word.place.line);
    let column = u128::from(word.place.column);
    ((address * 4_294_967_296 + file) * 4_294_967_296 + line) * 4_294_967_296 + column
}

fn sort_slice(alloc: Global, words: &mut [Word]) -> Result<(), AllocError>
    ensures permutation { IsPermutation words.old words.new }
    ensures order { OnOk result (IsNonDecreasingBy spec.key words.new) }
{
    words.sort_by_key(alloc, |word| key(word))?;
    Ok(())
}

// Sorts words by address and then by place.
fn sort_words(alloc: Global, words: &mut Vec<Word>) -> Result<(), AllocError>
    ensures permutation { IsPermutation words.old.items words.new.items }
    ensures order { OnOk result (IsNonDecreasingBy spec.key words.new.items) }
{
    sort_slice(alloc, words.as_mut_slice())
}

// Notes the places of words whose address the word before has too.
fn candidates(alloc: Global, words: &[Word]) -> Result<Vec<Place>, AllocError>
    ensures { IfOk result (λ places. places.items ≡ spec.candidates (map spec.spot words.now)) }
{
    let mut out = Vec::new(alloc);
    for at in 1..words.len() {
        let word = &words[at];
        note_if(&mut out, words[at - 1].address == word.address, word.place)?;
    }
    Ok(out)
}

/// The place of the first bus word that two registers have in common: of each two, the later.
pub fn first_clash(alloc: Global, registers: &[Register]) -> Result<Option<Place>, AllocError>
    ensures first { IfOk result (λ found. (p : Place) → found ≡ Some p → IsFirstClash (spec.spots_of registers.now) p) }
    ensures none { IfOk result (λ found. found ≡ None → HasNone (spec.spots_of registers.now)) }
{
    let mut words = words_of(alloc, registers)?;
    sort_words(alloc, &mut words)?;
    let places = candidates(alloc, words.as_slice())?;
    Ok(first_of(places.as_slice()))
}
