//! Words that are moved, cut, joined and repeated (IEEE 1364-2005, 5.1.12 to 5.1.14).

ghost use Rattle.std.specs.Prelude.{◌≡◌, ◌+◌, ◌-◌, ◌<◌, ◌^◌, ◌≤◌, ◌++◌, length, min, take, drop, replicate, IfOk, ◌*◌, if◌then◌else◌};
ghost use Rattle.bit_base.specs.Numbers.{number_of, extended};
ghost use Rattle.bit_base.specs.Operators as spec;
ghost use Rattle.bit_words.specs.Joins.{repeated};

use bit_base::bits::Bits;
use std::alloc::{AllocError, Global};
use std::convert::From;
use std::vec::Vec;

/// The number that these bits stand for, unsigned, or `limit` where it is more.
pub fn number_at_most(bits: &[bool], limit: u64) -> u64
    requires { limit < 2 ^ 62 }
    ensures { result ≡ min (number_of bits.now) limit }
{
    let mut number = 0;
    for i in (0..bits.len()).rev() {
        number = place_more(number, bits[i], limit);
    }
    number
}

/// The number with one more place below, or `limit` where that is more.
fn place_more(number: u64, bit: bool, limit: u64) -> u64
    requires { number < 2 ^ 62 }
    ensures { result ≡ min ((if bit then 1 else 0) + 2 * number) limit }
{
    let low = if bit { 1 } else { 0 };
    (low + 2 * number).min(limit)
}

/// `a << amount`: the amount is unsigned, of any length.
#[tactic(auto, using(crate::proofs::ShiftLemmas::left_at_most))]
pub fn shifted_left(alloc: Global, amount: &[bool], a: &[bool]) -> Result<Bits, AllocError>
    ensures value { IfOk result (λ bits. bits ≡ spec.shifted_left (number_of amount.now) a.now) }
    ensures long { IfOk result (λ bits. length bits ≡ length a.now) }
{
    let come_in = places_at_most(amount, a.len());
    let bits = moved_left(alloc, come_in, a)?;
    Ok(bits)
}

fn moved_left(alloc: Global, places: usize, a: &[bool]) -> Result<Bits, AllocError>
    requires { places ≤ length a.now }
    ensures value { IfOk result (λ bits. bits ≡ spec.shifted_left places a.now) }
{
    let mut moved = Vec::new(alloc);
    moved.resize(places, false)?;
    moved.extend_from_slice(&a[..a.len() - places])?;
    Ok(Bits::from(moved))
}

/// `a >> amount`, and `a >>> amount` where the fill is the sign: the amount is unsigned, of any length.
#[tactic(auto, using(crate::proofs::ShiftLemmas::right_at_most))]
pub fn shifted_right(
    alloc: Global,
    amount: &[bool],
    fill: bool,
    a: &[bool],
) -> Result<Bits, AllocError>
    ensures value { IfOk result (λ bits. bits ≡ spec.shifted_right (number_of amount.now) fill a.now) }
    ensures long { IfOk result (λ bits. length bits ≡ length a.now) }
{
    let come_in = places_at_most(amount, a.len());
    let bits = moved_right(alloc, come_in, fill, a)?;
    Ok(bits)
}

fn moved_right(alloc: Global, places: usize, fill: bool, a: &[bool]) -> Result<Bits, AllocError>
    requires { places ≤ length a.now }
    ensures value { IfOk result (λ bits. bits ≡ spec.shifted_right places fill a.now) }
{
    let mut moved = a[places..].to_vec(alloc)?;
    moved.resize(a.len(), fill)?;
    Ok(Bits::from(moved))
}

/// The number of an amount, or `limit` where it is more.
fn places_at_most(amount: &[bool], limit: usize) -> usize
    ensures { result ≡ min (number_of amount.now) limit }
{
    let mut number = 0;
    for i in (0..amount.len()).rev() {
        number = one_more(number, amount[i], limit);
    }
    number
}

fn one_more(number: usize, bit: bool, limit: usize) -> usize
    requires { number ≤ limit }
    ensures { result ≡ min ((if bit then 1 else 0) + 2 * number) limit }
{
    if number > limit - number {
        return limit;
    }
    let twice = 2 * number;
    if bit && twice < limit {
        twice + 1
    } else {
        twice
    }
}

/// The bits at `width`: cut where that is less, else filled up with the last bit where `signed`, and
/// with false where not; `[]` is filled up with false.
pub fn extended_to(alloc: Global, width: u32, signed: bool, a: &[bool]) -> Result<Bits, AllocError>
    ensures value { IfOk result (λ bits. bits ≡ extended width signed a.now) }
    ensures long { IfOk result (λ bits. length bits ≡ width) }
{
    let width = width as usize;
    let fill = signed && crate::bitwise::sign_of(a);
    let mut wide = a[..width.min(a.len())].to_vec(alloc)?;
    wide.resize(width, fill)?;
    Ok(Bits::from(wide))
}

/// The word so many times.
pub fn repeat(alloc: Global, count: u32, a: &[bool]) -> Result<Bits, AllocError>
    ensures { IfOk result (λ bits. bits ≡ repeated count a.now) }
{
    let mut places = Vec::new(alloc);
    for _time in 0..count {
        places.extend_from_slice(a)?;
    }
    Ok(Bits::from(places))
}

/// The lower bits, then the higher ones.
pub fn joined(alloc: Global, low: &[bool], high: &[bool]) -> Result<Bits, AllocError>
    ensures { IfOk result (λ bits. bits ≡ low.now ++ high.now) }
{
    let mut places = low.to_vec(alloc)?;
    places.extend_from_slice(high)?;
    Ok(Bits::from(places))
}
