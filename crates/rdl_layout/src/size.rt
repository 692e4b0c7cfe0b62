//! Numbers of bytes, up to the end of an address space.

ghost use Rattle.std.specs.Prelude.{◌≡◌, ◌≤◌, ◌<◌, ◌+◌};
ghost use Rattle.rdl_layout.specs.Sizes as spec;

use rdl_text::instance::Body;
use rdl_tree::tree::RdlMarked;

/// What lies beyond an address space of 2^32 bytes.
pub const BEYOND: u64 = 4_294_967_297;

/// Where an instance stands, relative to the component around it.
#[derive(Clone, Copy, Debug, PartialEq, Eq, Drop)]
pub struct Extent {
    /// The address of the first element.
    pub start: u64,
    /// How far elements of an array stand apart.
    pub stride: u64,
    /// The greatest end of the elements.
    pub end: u64,
}

/// The number, or what lies beyond.
pub fn capped(number: u64) -> u64
    ensures { result ≡ spec.capped number }
{
    number.min(BEYOND)
}

// The least multiple that isn't below the number.
fn round_up(number: u64, multiple: u64) -> u64
    requires number { number ≤ 4294967297 }
    requires multiple { multiple ≤ 4294967297 }
    ensures { result ≡ spec.round_up number multiple }
{
    if multiple == 0 {
        number
    } else {
        (number + (multiple - 1)) / multiple * multiple
    }
}

// The least power of two that isn't below the size.
fn power_from(size: u64) -> u64
    requires { size ≤ 4294967297 }
    ensures { result ≡ spec.power_from size }
{
    let mut power = 1;
    for _at in 0..33_u32 {
        if size <= power {
            return capped(power);
        }
        power += power;
    }
    capped(power)
}

fn align_of(kind: Body, given: &Option<RdlMarked>, size: u64) -> u64
    requires { size ≤ 4294967297 }
    ensures align { result ≡ spec.align_of kind given.now size }
    ensures bound { result ≤ 4294967297 }
{
    match (given, kind) {
        (Some(given), _) => capped(given.number.value),
        (None, Body::Reg) => size,
        (None, _) => power_from(size),
    }
}

/// The address of an instance of this kind and size behind the end of the one before.
pub fn start_of(
    kind: Body,
    address: &Option<RdlMarked>,
    alignment: &Option<RdlMarked>,
    next: u64,
    size: u64,
) -> u64
    requires next { next ≤ 4294967297 }
    requires size { size ≤ 4294967297 }
    ensures start { result ≡ spec.start_of address.now next (spec.align_of kind alignment.now size) }
    ensures bound { result ≤ 4294967297 }
{
    match address {
        Some(address) => capped(address.number.value),
        None => capped(round_up(next, align_of(kind, alignment, size))),
    }
}

/// How far elements of this size stand apart.
pub fn stride_of(given: &Option<RdlMarked>, size: u64) -> u64
    requires { size ≤ 4294967297 }
    ensures stride { result ≡ spec.stride_of given.now size }
    ensures bound { result ≤ 4294967297 }
{
    match given {
        Some(given) => capped(given.number.value),
        None => size,
    }
}

/// Where an element of this number ends.
pub fn reach(start: u64, stride: u64, index: u64, size: u64) -> u64
    requires start { start ≤ 4294967297 }
    requires stride { stride ≤ 4294967297 }
    requires size { size ≤ 4294967297 }
    ensures reach { result ≡ spec.reach start stride index size }
    ensures bound { result ≤ 4294967297 }
{
    let end = u128::from(start) + u128::from(stride) * u128::from(index) + u128::from(size);
    end.min(4_294_967_297) as u64
}
