//! What hardware gives to a field's property.

ghost use Rattle.std.specs.Prelude.{◌≡◌, IfOk};
ghost use Rattle.std.specs.Option.{option_map};
ghost use Rattle.rdl_fields.specs.Exprs as spec;
ghost use Rattle.rdl_fields.specs.Paths.{target_of};

use crate::named::{NamedExpr, NamedGate};
use crate::path::target_of;
use bit_base::text::Text;
use rdl_text::property::Property;
use rdl_tree::token::RdlToken;
use rdl_tree::tree::{RdlAssigned, RdlPath, RdlProp, RdlSignal, RdlValue};
use rdl_values::frame::Frame;
use rdl_values::value::{assigned_at, depth_at, is_set};
use std::alloc::{AllocError, Global};

#[tactic(auto, unfolding(crate::specs::Exprs::reduced))]
fn reduced(token: &RdlToken, path: Text) -> NamedExpr
    ensures { result ≡ spec.reduced token.now path }
{
    if token.is_text(b"anded") {
        NamedExpr::Anded(path)
    } else if token.is_text(b"ored") {
        NamedExpr::Ored(path)
    } else {
        NamedExpr::Xored(path)
    }
}

fn named_by(path: Text, signal: &Option<RdlSignal>) -> NamedExpr
    ensures { result ≡ spec.named_by path signal.now }
{
    match signal {
        None => NamedExpr::Value(path),
        Some(signal) => reduced(&signal.name, path),
    }
}

// What a reference from the instance at the end of the trail names.
fn expr_to(
    alloc: Global,
    up: &[Frame<'_>],
    path: &RdlPath,
    signal: &Option<RdlSignal>,
) -> Result<NamedExpr, AllocError>
    ensures { IfOk result (λ e. e ≡ spec.named_by (target_of up.now path.now) signal.now) }
{
    let target = target_of(alloc, up, path)?;
    Ok(named_by(target, signal))
}

fn expr_of(alloc: Global, up: &[Frame<'_>], value: &RdlValue) -> Result<NamedExpr, AllocError>
    ensures { IfOk result (λ e. e ≡ spec.expr_of up.now value.now) }
{
    match value {
        RdlValue::Reference(path, signal) => expr_to(alloc, up, path, signal),
        _ => Ok(NamedExpr::Input),
    }
}

fn expr_given(
    alloc: Global,
    up: &[Frame<'_>],
    value: &Option<RdlAssigned>,
) -> Result<NamedExpr, AllocError>
    ensures { IfOk result (λ e. e ≡ spec.expr_given up.now value.now) }
{
    match value {
        None => Ok(NamedExpr::Input),
        Some(assigned) => expr_of(alloc, up, &assigned.value),
    }
}

// What an assignment of a property gives, where it isn't to `false`.
fn expr_by(
    alloc: Global,
    up: &[Frame<'_>],
    prop: Option<&RdlProp>,
) -> Result<Option<NamedExpr>, AllocError>
    ensures { IfOk result (λ e. e ≡ spec.expr_by up.now (option_map (λ x. x.now) prop.entry)) }
{
    match prop {
        None => Ok(None),
        Some(prop) => {
            if is_set(Some(prop)) {
                let expr = expr_given(alloc, up, &prop.value)?;
                Ok(Some(expr))
            } else {
                Ok(None)
            }
        }
    }
}

/// What hardware gives to a property at the end of a trail.
pub fn expr_at(
    alloc: Global,
    trail: &[Frame<'_>],
    property: Property,
) -> Result<Option<NamedExpr>, AllocError>
    ensures { IfOk result (λ e. e ≡ spec.expr_at trail.now property) }
{
    let depth = depth_at(trail, property);
    expr_by(alloc, &trail[..depth], assigned_at(trail, property))
}

fn is_reference(value: &RdlValue) -> bool
    ensures { result ≡ spec.is_reference value.now }
{
    matches!(value, RdlValue::Reference(_, _))
}

fn is_reference_given(value: &Option<RdlAssigned>) -> bool
    ensures { result ≡ spec.is_reference_given value.now }
{
    match value {
        None => false,
        Some(assigned) => is_reference(&assigned.value),
    }
}

fn asks_by(prop: Option<&RdlProp>) -> bool
    ensures { result ≡ spec.asks_by (option_map (λ x. x.now) prop.entry) }
{
    match prop {
        None => false,
        Some(prop) => is_set(Some(prop)) && !is_reference_given(&prop.value),
    }
}

/// Whether a property at the end of a trail asks for a hardware input of its own.
pub fn asks(trail: &[Frame<'_>], property: Property) -> bool
    ensures { result ≡ spec.asks trail.now property }
{
    asks_by(assigned_at(trail, property))
}

// Of two properties the one that opens at 1, or the one that opens at 0.
fn gate_of(high: Option<NamedExpr>, low: Option<NamedExpr>) -> Option<NamedGate>
    ensures { result ≡ spec.gate_of high low }
{
    match (high, low) {
        (Some(expr), _) => Some(NamedGate { expr, high: true }),
        (None, Some(expr)) => Some(NamedGate { expr, high: false }),
        (None, None) => None,
    }
}

/// The gate of two properties at the end of a trail.
pub fn gate_at(
    alloc: Global,
    trail: &[Frame<'_>],
    high: Property,
    low: Property,
) -> Result<Option<NamedGate>, AllocError>
    ensures { IfOk result (λ g. g ≡ spec.gate_at trail.now high low) }
{
    let opens = expr_at(alloc, trail, high)?;
    let shuts = expr_at(alloc, trail, low)?;
    Ok(gate_of(opens, shuts))
}

/// The gate of two properties at the end of a trail, where it has an effect.
pub fn gate_if(
    alloc: Global,
    acts: bool,
    trail: &[Frame<'_>],
    high: Property,
    low: Property,
) -> Result<Option<NamedGate>, AllocError>
    ensures { IfOk result (λ g. g ≡ spec.gate_if acts trail.now high low) }
{
    if acts {
        gate_at(alloc, trail, high, low)
    } else {
        Ok(None)
    }
}
