//! Fields: their bits, what hardware gives them, and whether their value is known after reset.

ghost use Rattle.std.specs.Prelude.{◌≡◌, ◌^◌, nat_le};
ghost use Rattle.rdl_values.specs.Fields as spec;

use crate::access::{SwAccess, hw_at, sw_at};
use crate::frame::Frame;
use crate::value::{any_in_effect, here_of, in_effect, is_assigned, number_at, reset_at};
use rdl_text::property::Property;
use rdl_tree::tree::{RdlMarked, RdlRange};

// The bits from the first number down to the second, or as many as the first says.
fn span_to(first: u64, second: &Option<RdlMarked>) -> u128
    ensures { result ≡ spec.span_to first second.now }
{
    match second {
        None => u128::from(first),
        Some(second) => u128::from(first.saturating_sub(second.number.value)) + 1,
    }
}

fn span_in(range: &Option<RdlRange>) -> Option<u128>
    ensures { result ≡ spec.span_in range.now }
{
    match range {
        None => None,
        Some(range) => Some(span_to(range.first.value, &range.second)),
    }
}

/// The bits that the range of a field gives.
pub fn span_at(trail: &[Frame<'_>]) -> Option<u128>
    ensures { result ≡ spec.span_at trail.now }
{
    match here_of(trail) {
        None => None,
        Some(frame) => span_in(&frame.inst.range),
    }
}

fn width_by(span: Option<u128>, given: Option<u64>) -> u128
    ensures { result ≡ spec.width_by span given }
{
    match (span, given) {
        (Some(span), _) => span,
        (None, Some(width)) => u128::from(width),
        (None, None) => 1,
    }
}

/// The bits of a field.
pub fn width_at(trail: &[Frame<'_>]) -> u128
    ensures { result ≡ spec.width_at trail.now }
{
    width_by(span_at(trail), number_at(trail, Property::Fieldwidth))
}

fn takes_data(trail: &[Frame<'_>]) -> bool
    ensures { result ≡ spec.takes_data trail.now }
{
    hw_at(trail).writes
        && (any_in_effect(trail, &[Property::We, Property::Wel])
            || (is_assigned(trail, Property::Hw)
                && !any_in_effect(trail, &[Property::Hwset, Property::Hwclr])))
}

/// Whether a field has a data input.
pub fn has_data(trail: &[Frame<'_>]) -> bool
    ensures { result ≡ spec.has_data trail.now }
{
    in_effect(trail, Property::Intr) || takes_data(trail)
}

fn is_read_only(access: SwAccess) -> bool
    ensures { result ≡ spec.is_read_only access }
{
    access.readable && !access.writable
}

// Whether something besides a data input acts on a field.
fn is_acted_on(trail: &[Frame<'_>]) -> bool
    ensures { result ≡ spec.is_acted_on trail.now }
{
    any_in_effect(
        trail,
        &[
            Property::Intr,
            Property::We,
            Property::Wel,
            Property::Hwset,
            Property::Hwclr,
            Property::Hwenable,
            Property::Hwmask,
            Property::Onread,
            Property::Singlepulse,
        ],
    )
}

/// Whether a field is a wire: it stores nothing, and its value is its data input.
pub fn is_wire(trail: &[Frame<'_>]) -> bool
    ensures { result ≡ spec.is_wire trail.now }
{
    takes_data(trail) && is_read_only(sw_at(trail)) && !is_acted_on(trail)
}

/// Whether the value of a field is known after reset.
pub fn starts_known(trail: &[Frame<'_>]) -> bool
    ensures { result ≡ spec.starts_known trail.now }
{
    is_wire(trail) || reset_at(trail).is_some()
}

// Whether the number has no room in so many bits.
fn lacks_room(width: u128, number: u64) -> bool
    ensures { result ≡ nat_le (2 ^ width) number }
{
    if width < 64 {
        number >= 1 << (width as u32)
    } else {
        false
    }
}

/// Whether there is a number, and it has no room in so many bits.
pub fn is_over(width: u128, number: Option<u64>) -> bool
    ensures { result ≡ spec.is_over width number }
{
    match number {
        None => false,
        Some(number) => lacks_room(width, number),
    }
}
