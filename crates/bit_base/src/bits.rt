//! Lists of booleans.

ghost use Rattle.std.specs.Prelude.{◌≡◌, ℕ, ◌+◌, ◌^◌, ◌<◌, ◌≤◌, ◌≢◌, Bool, List, [], length, IfOk, ◌==◌, ◌∷◌};
ghost use Rattle.bit_base.specs.Numbers.{number_of, low_bits, extended, sliced};

use std::alloc::{AllocError, Global};
use std::convert::From;
use std::marker::Model;
use std::vec::Vec;

/// A list of bits, least first, seen as a list of booleans.
#[derive(Debug, Drop)]
pub struct Bits {
    bits: Vec<bool>,
}

impl Model for Bits {
    ghost Value = { List Bool };

    ghost view = { λ b. b.bits.items };
}

impl Bits {
    /// The bits as a slice, least first.
    pub fn as_slice(&self) -> &[bool]
        ensures { result.now ≡ self.now }
    {
        self.bits.as_slice()
    }

    /// How many bits there are.
    pub fn len(&self) -> usize
        ensures { result ≡ length self.now }
    {
        self.bits.len()
    }

    /// Whether there are none.
    pub fn is_empty(&self) -> bool
        ensures { result ≡ (length self.now == 0) }
    {
        self.bits.is_empty()
    }
}

impl From<Vec<bool>> for Bits {
    ghost from_gives = { λ places bits. bits ≡ places.items };

    /// The bits of this list, least first.
    fn from(places: Vec<bool>) -> Bits {
        Bits { bits: places }
    }
}

/// The `width` lowest bits of `value`, at most 128.
pub fn bits_of(alloc: Global, value: u128, width: u32) -> Result<Bits, AllocError>
    requires { width ≤ 128 }
    ensures low_bits { IfOk result (λ bits. bits ≡ low_bits width value) }
{
    let mut bits = Vec::new(alloc);
    let mut rest = value;
    for _place in 0..width {
        bits.push(rest % 2 == 1)?;
        rest /= 2;
    }
    Ok(Bits { bits })
}

/// The number that these bits stand for, unsigned; at most 128 bits.
pub fn number_of(bits: &Bits) -> u128
    requires { length bits.now ≤ 128 }
    ensures number { result ≡ number_of bits.now }
    ensures below { result < 2 ^ length bits.now }
{
    number_of_places(bits.as_slice())
}

/// The number that these places stand for, least first, unsigned; at most 128 places.
pub fn number_of_places(places: &[bool]) -> u128
    requires { length places.now ≤ 128 }
    ensures number { result ≡ number_of places.now }
    ensures below { result < 2 ^ length places.now }
{
    let mut number = 0;
    for i in (0..places.len()).rev() {
        number = 2 * number + bit(places[i]);
    }
    number
}

/// What a bit counts at place 0.
fn bit(value: bool) -> u128
    ensures { result ≡ number_of (value ∷ []) }
{
    if value { 1 } else { 0 }
}

/// The bits at `width`: cut where that is less, else filled up with the last bit where `signed`, and
/// with false where not.
pub fn extend(alloc: Global, bits: &Bits, width: u32, signed: bool) -> Result<Bits, AllocError>
    requires { bits.now ≢ [] }
    ensures extended { IfOk result (λ wide. wide ≡ extended width signed bits.now) }
{
    let places = bits.as_slice();
    let width = width as usize;
    let fill = signed && places[places.len() - 1];
    let mut wide = places[..width.min(places.len())].to_vec(alloc)?;
    wide.resize(width, fill)?;
    Ok(Bits { bits: wide })
}

/// The `width` bits from place `low` on.
pub fn slice(alloc: Global, bits: &Bits, low: u32, width: u32) -> Result<Bits, AllocError>
    requires { low + width ≤ length bits.now }
    ensures sliced { IfOk result (λ part. part ≡ sliced low width bits.now) }
{
    let low = low as usize;
    let part = &bits.as_slice()[low..low + width as usize];
    Ok(Bits {
        bits: part.to_vec(alloc)?,
    })
}
