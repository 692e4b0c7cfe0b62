//! The widths of registers and of their accesses.

ghost use Rattle.std.specs.Prelude.{◌≡◌};
ghost use Rattle.rdl_effects.specs.Registers as spec;

use rdl_text::property::Property;
use rdl_values::frame::Frame;
use rdl_values::value::number_at;

/// The bits of a register.
pub fn regwidth_at(trail: &[Frame<'_>]) -> u64
    ensures { result ≡ spec.regwidth_at trail.now }
{
    number_at(trail, Property::Regwidth).unwrap_or(32)
}

/// The bits of an access to a register.
pub fn accesswidth_at(trail: &[Frame<'_>]) -> u64
    ensures { result ≡ spec.accesswidth_at trail.now }
{
    number_at(trail, Property::Accesswidth).unwrap_or(regwidth_at(trail).min(32))
}

/// Whether a register is narrower than an access to it.
pub fn is_narrow(trail: &[Frame<'_>]) -> bool
    ensures { result ≡ spec.is_narrow trail.now }
{
    regwidth_at(trail) < accesswidth_at(trail)
}
