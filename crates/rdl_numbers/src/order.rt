//! Bus words by address, and fields by word and then by lowest bit.

ghost use Rattle.std.specs.Prelude.{◌≡◌, ◌+◌, ◌*◌, ℕ, map, IfOk, OnOk};
ghost use Rattle.std.specs.List.Sorted.{IsPermutation, IsNonDecreasingBy};
ghost use Rattle.rdl_words.specs.Words.{spots_of};
ghost use Rattle.rdl_numbers.specs.Orders as spec;

use rdl_fields::named::NamedField;
use rdl_layout::register::Register;
use rdl_words::clash::words_of;
use rdl_words::word::Word;
use std::alloc::{AllocError, Global};
use std::vec::Vec;

fn addresses_of(alloc: Global, words: &[Word]) -> Result<Vec<u32>, AllocError>
    ensures { IfOk result (λ xs. xs.items ≡ map (λ w. w.address) words.now) }
{
    let mut out = Vec::new(alloc);
    for word in words {
        out.push(word.address)?;
    }
    Ok(out)
}

fn sort_addresses(alloc: Global, addresses: &mut [u32]) -> Result<(), AllocError>
    ensures permutation { IsPermutation addresses.old addresses.new }
    ensures order { OnOk result (IsNonDecreasingBy (λ (w : ℕ). w) addresses.new) }
{
    addresses.sort_by_key(alloc, |address| *address)?;
    Ok(())
}

fn sort_all(alloc: Global, addresses: &mut Vec<u32>) -> Result<(), AllocError>
    ensures permutation { IsPermutation addresses.old.items addresses.new.items }
    ensures order { OnOk result (IsNonDecreasingBy (λ (w : ℕ). w) addresses.new.items) }
{
    sort_addresses(alloc, addresses.as_mut_slice())
}

/// The addresses of the bus words of registers, rising.
pub fn sorted_words(alloc: Global, registers: &[Register]) -> Result<Vec<u32>, AllocError>
    ensures { IfOk result (λ ws. spec.AreWords (spots_of registers.now) ws.items) }
{
    let words = words_of(alloc, registers)?;
    let mut addresses = addresses_of(alloc, words.as_slice())?;
    sort_all(alloc, &mut addresses)?;
    Ok(addresses)
}

fn key_of(word: u64, lsb: u64) -> u128
    ensures { result ≡ word * 18446744073709551616 + lsb }
{
    u128::from(word) * 18_446_744_073_709_551_616 + u128::from(lsb)
}

// A number for the order by word and then by lowest bit.
fn key(field: &NamedField) -> u128
    ensures { result ≡ spec.key field.now }
{
    key_of(field.spot.word, field.spot.lsb)
}

fn sort_slice(alloc: Global, fields: &mut [NamedField]) -> Result<(), AllocError>
    ensures permutation { IsPermutation fields.old fields.new }
    ensures order { OnOk result (IsNonDecreasingBy spec.key fields.new) }
{
    fields.sort_by_key(alloc, |field| key(field))?;
    Ok(())
}

/// Sorts fields by word and then by lowest bit.
pub fn sort_fields(alloc: Global, fields: &mut Vec<NamedField>) -> Result<(), AllocError>
    ensures { OnOk result (spec.AreFields fields.old.items fields.new.items) }
{
    sort_slice(alloc, fields.as_mut_slice())
}
