//! References: values that are paths to fields.

ghost use Rattle.std.specs.Prelude.{◌≡◌};
ghost use Rattle.std.specs.Option.{option_map};
ghost use Rattle.rdl_text.specs.References.{is_reduction, bit_reference, whole_reference, reference_in};

use crate::property::Form;
use rdl_tree::token::RdlToken;
use rdl_tree::tree::{RdlAssigned, RdlPath, RdlValue};

#[tactic(auto, unfolding(crate::specs::References::is_reduction))]
fn is_reduction(token: &RdlToken) -> bool
    ensures { result ≡ is_reduction token.now }
{
    token.is_text(b"anded") || token.is_text(b"ored") || token.is_text(b"xored")
}

/// The path of a reference of one bit.
pub fn bit_reference(value: &RdlValue) -> Option<&RdlPath>
    ensures { option_map (λ p. p.now) result ≡ bit_reference value.now }
{
    match value {
        RdlValue::Reference(path, None) => Some(path),
        RdlValue::Reference(path, Some(signal)) => {
            if is_reduction(&signal.name) {
                Some(path)
            } else {
                None
            }
        }
        _ => None,
    }
}

/// The path of a reference to all bits of a field.
pub fn whole_reference(value: &RdlValue) -> Option<&RdlPath>
    ensures { option_map (λ p. p.now) result ≡ whole_reference value.now }
{
    match value {
        RdlValue::Reference(path, None) => Some(path),
        _ => None,
    }
}

/// The path of the reference that a property of this form is assigned, where it is one.
pub fn reference_in(form: Form, value: &Option<RdlAssigned>) -> Option<&RdlPath>
    ensures { option_map (λ p. p.now) result ≡ reference_in form value.now }
{
    match (form, value) {
        (Form::FlagOrBit, Some(assigned)) => bit_reference(&assigned.value),
        (Form::Whole, Some(assigned)) => whole_reference(&assigned.value),
        _ => None,
    }
}
