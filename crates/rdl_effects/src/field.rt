//! Which fields are refused by the effective values of their properties.

ghost use Rattle.std.specs.Prelude.{◌≡◌};
ghost use Rattle.rdl_effects.specs.Fields as spec;

use rdl_text::property::Property;
use rdl_values::access::{hw_at, sw_at};
use rdl_values::field::{has_data, is_over, span_at, width_at};
use rdl_values::frame::Frame;
use rdl_values::value::{
    any_in_effect, both_in_effect, in_effect, is_assigned, number_at, reset_at,
};

/// Whether two properties of which a field has at most one are both in effect.
pub fn is_torn(trail: &[Frame<'_>]) -> bool
    ensures { result ≡ spec.is_torn trail.now }
{
    both_in_effect(trail, Property::We, Property::Wel)
        || both_in_effect(trail, Property::Swwe, Property::Swwel)
        || both_in_effect(trail, Property::Hwenable, Property::Hwmask)
        || both_in_effect(trail, Property::Enable, Property::Mask)
        || both_in_effect(trail, Property::Sticky, Property::Stickybit)
}

fn are_unlike(given: Option<u64>, span: Option<u128>) -> bool
    ensures { result ≡ spec.are_unlike given span }
{
    match (given, span) {
        (Some(given), Some(span)) => u128::from(given) != span,
        _ => false,
    }
}

fn is_miswide(trail: &[Frame<'_>]) -> bool
    ensures { result ≡ spec.is_miswide trail.now }
{
    are_unlike(number_at(trail, Property::Fieldwidth), span_at(trail))
}

fn is_misreset(trail: &[Frame<'_>]) -> bool
    ensures { result ≡ spec.is_misreset trail.now }
{
    is_over(width_at(trail), reset_at(trail))
}

fn is_one(number: Option<u64>) -> bool
    ensures { result ≡ spec.is_one number }
{
    match number {
        None => false,
        Some(number) => number == 1,
    }
}

fn is_no_pulse(trail: &[Frame<'_>]) -> bool
    ensures { result ≡ spec.is_no_pulse trail.now }
{
    width_at(trail) != 1
        || is_one(reset_at(trail))
        || !sw_at(trail).writable
        || sw_at(trail).once
        || has_data(trail)
        || any_in_effect(trail, &[Property::Hwset, Property::Hwclr, Property::Onread])
}

fn is_mispulsed(trail: &[Frame<'_>]) -> bool
    ensures { result ≡ spec.is_mispulsed trail.now }
{
    in_effect(trail, Property::Singlepulse) && is_no_pulse(trail)
}

fn is_overstep(trail: &[Frame<'_>], property: Property) -> bool
    ensures { result ≡ spec.is_overstep trail.now property }
{
    is_over(width_at(trail), number_at(trail, property))
}

// Whether something that a counter hasn't is in effect.
fn is_no_counter(trail: &[Frame<'_>]) -> bool
    ensures { result ≡ spec.is_no_counter trail.now }
{
    has_data(trail)
        || any_in_effect(
            trail,
            &[
                Property::We,
                Property::Wel,
                Property::Hwenable,
                Property::Hwmask,
                Property::Singlepulse,
            ],
        )
        || reset_at(trail).is_none()
        || is_overstep(trail, Property::Incrvalue)
        || is_overstep(trail, Property::Decrvalue)
}

fn has_counts(trail: &[Frame<'_>]) -> bool
    ensures { result ≡ spec.has_counts trail.now }
{
    any_in_effect(
        trail,
        &[
            Property::Incrsaturate,
            Property::Decrsaturate,
            Property::Overflow,
            Property::Underflow,
            Property::Incr,
            Property::Decr,
        ],
    ) || is_assigned(trail, Property::Incrvalue)
        || is_assigned(trail, Property::Decrvalue)
}

fn is_miscounted(trail: &[Frame<'_>]) -> bool
    ensures { result ≡ spec.is_miscounted trail.now }
{
    if in_effect(trail, Property::Counter) {
        is_no_counter(trail)
    } else {
        has_counts(trail)
    }
}

// Whether something that an interrupt hasn't is in effect.
fn is_no_interrupt(trail: &[Frame<'_>]) -> bool
    ensures { result ≡ spec.is_no_interrupt trail.now }
{
    !hw_at(trail).writes
        || reset_at(trail).is_none()
        || any_in_effect(
            trail,
            &[
                Property::We,
                Property::Wel,
                Property::Hwset,
                Property::Hwclr,
                Property::Singlepulse,
            ],
        )
}

fn has_events(trail: &[Frame<'_>]) -> bool
    ensures { result ≡ spec.has_events trail.now }
{
    any_in_effect(
        trail,
        &[
            Property::Enable,
            Property::Mask,
            Property::Sticky,
            Property::Stickybit,
        ],
    )
}

fn is_misraised(trail: &[Frame<'_>]) -> bool
    ensures { result ≡ spec.is_misraised trail.now }
{
    if in_effect(trail, Property::Intr) {
        is_no_interrupt(trail)
    } else {
        has_events(trail)
    }
}

/// Whether a value doesn't fit its field.
pub fn is_misvalued(trail: &[Frame<'_>]) -> bool
    ensures { result ≡ spec.is_misvalued_field trail.now }
{
    is_miswide(trail)
        || is_misreset(trail)
        || is_mispulsed(trail)
        || is_miscounted(trail)
        || is_misraised(trail)
}
