//! What software and hardware may do to a field, what it starts with, what it counts, and what it shows.

ghost use Rattle.std.specs.Prelude.{◌≡◌, IfOk};
ghost use Rattle.rdl_fields.specs.Parts as spec;

use crate::expr::{asks, expr_at, gate_at, gate_if};
use crate::named::{
    Hardware, Inputs, NamedCounter, NamedExpr, NamedExtra, NamedIntr, Software, Start,
};
use field_policies::policy::{ReadEffect, WriteEffect};
use field_policies::signal::Shown;
use rdl_text::property::Property;
use rdl_values::access::{SwAccess, hw_at, hw_first_at, read_at, sw_at, write_at};
use rdl_values::field::{has_data, is_wire, starts_known};
use rdl_values::frame::Frame;
use rdl_values::value::{any_in_effect, in_effect, is_assigned, number_at, reset_at};
use std::alloc::{AllocError, Global};

fn read_if(readable: bool, trail: &[Frame<'_>]) -> ReadEffect
    ensures { result ≡ spec.read_if readable trail.now }
{
    if readable {
        read_at(trail)
    } else {
        ReadEffect::Keep
    }
}

fn write_if(writable: bool, trail: &[Frame<'_>]) -> WriteEffect
    ensures { result ≡ spec.write_if writable trail.now }
{
    if writable {
        write_at(trail)
    } else {
        WriteEffect::AsIs
    }
}

fn software_by(alloc: Global, access: SwAccess, trail: &[Frame<'_>]) -> Result<Software, AllocError>
    ensures { IfOk result (λ s. s ≡ spec.software_by access trail.now) }
{
    let gate = gate_if(
        alloc,
        access.writable,
        trail,
        Property::Swwe,
        Property::Swwel,
    )?;
    Ok(Software {
        readable: access.readable,
        writable: access.writable,
        once: access.once,
        read: read_if(access.readable, trail),
        write: write_if(access.writable, trail),
        gate,
    })
}

/// What software may do to the field at the end of a trail.
pub(crate) fn software_at(alloc: Global, trail: &[Frame<'_>]) -> Result<Software, AllocError>
    ensures { IfOk result (λ s. s ≡ spec.software_at trail.now) }
{
    software_by(alloc, sw_at(trail), trail)
}

// Whether hardware may change the field by its data, `hwset` or `hwclr`.
fn acts(trail: &[Frame<'_>]) -> bool
    ensures { result ≡ spec.acts trail.now }
{
    has_data(trail) || any_in_effect(trail, &[Property::Hwset, Property::Hwclr])
}

/// What hardware may do to the field at the end of a trail.
pub(crate) fn hardware_at(alloc: Global, trail: &[Frame<'_>]) -> Result<Hardware, AllocError>
    ensures { IfOk result (λ h. h ≡ spec.hardware_at trail.now) }
{
    let data_gate = gate_if(alloc, has_data(trail), trail, Property::We, Property::Wel)?;
    let set = expr_at(alloc, trail, Property::Hwset)?;
    let clear = expr_at(alloc, trail, Property::Hwclr)?;
    let bit_gate = gate_if(
        alloc,
        acts(trail),
        trail,
        Property::Hwenable,
        Property::Hwmask,
    )?;
    Ok(Hardware {
        has_data: has_data(trail),
        data_gate,
        set,
        clear,
        bit_gate,
        goes_first: hw_first_at(trail),
        pulse: in_effect(trail, Property::Singlepulse),
    })
}

fn reset_if(wire: bool, trail: &[Frame<'_>]) -> u64
    ensures { result ≡ spec.reset_if wire trail.now }
{
    if wire {
        0
    } else {
        reset_at(trail).unwrap_or(0)
    }
}

/// What the field at the end of a trail starts with.
pub(crate) fn start_at(trail: &[Frame<'_>]) -> Start
    ensures { result ≡ spec.start_at trail.now }
{
    let wire = is_wire(trail);
    Start {
        wire,
        reset: reset_if(wire, trail),
        known: starts_known(trail),
    }
}

// Whether the field is a counter for which neither `incr` nor `decr` is assigned.
fn counts_by_itself(trail: &[Frame<'_>]) -> bool
    ensures { result ≡ spec.counts_by_itself trail.now }
{
    in_effect(trail, Property::Counter)
        && !is_assigned(trail, Property::Incr)
        && !is_assigned(trail, Property::Decr)
}

fn incr_at(alloc: Global, trail: &[Frame<'_>]) -> Result<Option<NamedExpr>, AllocError>
    ensures { IfOk result (λ e. e ≡ spec.incr_at trail.now) }
{
    if counts_by_itself(trail) {
        Ok(Some(NamedExpr::Input))
    } else {
        expr_at(alloc, trail, Property::Incr)
    }
}

fn counter_at(alloc: Global, trail: &[Frame<'_>]) -> Result<NamedCounter, AllocError>
    ensures { IfOk result (λ c. c ≡ spec.counter_at trail.now) }
{
    let incr = incr_at(alloc, trail)?;
    let decr = expr_at(alloc, trail, Property::Decr)?;
    Ok(NamedCounter {
        incr,
        decr,
        up: number_at(trail, Property::Incrvalue).unwrap_or(1),
        down: number_at(trail, Property::Decrvalue).unwrap_or(1),
        up_stops: in_effect(trail, Property::Incrsaturate),
        down_stops: in_effect(trail, Property::Decrsaturate),
    })
}

fn intr_at(alloc: Global, trail: &[Frame<'_>]) -> Result<NamedIntr, AllocError>
    ensures { IfOk result (λ i. i ≡ spec.intr_at trail.now) }
{
    let filter = gate_at(alloc, trail, Property::Enable, Property::Mask)?;
    Ok(NamedIntr {
        sticky: in_effect(trail, Property::Sticky),
        filter,
    })
}

/// What the field at the end of a trail is beside its access properties.
pub(crate) fn extra_at(alloc: Global, trail: &[Frame<'_>]) -> Result<NamedExtra, AllocError>
    ensures { IfOk result (λ e. e ≡ spec.extra_at trail.now) }
{
    if in_effect(trail, Property::Counter) {
        let counter = counter_at(alloc, trail)?;
        Ok(NamedExtra::Counter(counter))
    } else if in_effect(trail, Property::Intr) {
        let intr = intr_at(alloc, trail)?;
        Ok(NamedExtra::Intr(intr))
    } else {
        Ok(NamedExtra::Plain)
    }
}

/// Which hardware inputs the field at the end of a trail has.
pub(crate) fn inputs_at(trail: &[Frame<'_>]) -> Inputs
    ensures { result ≡ spec.inputs_at trail.now }
{
    Inputs {
        has_data: has_data(trail),
        we: asks(trail, Property::We),
        wel: asks(trail, Property::Wel),
        hwset: asks(trail, Property::Hwset),
        hwclr: asks(trail, Property::Hwclr),
        swwe: asks(trail, Property::Swwe),
        swwel: asks(trail, Property::Swwel),
        incr: counts_by_itself(trail) || asks(trail, Property::Incr),
        decr: asks(trail, Property::Decr),
    }
}

/// Which of its outputs the field at the end of a trail shows, but for its register's interrupt.
pub(crate) fn shown_at(trail: &[Frame<'_>]) -> Shown
    ensures { result ≡ spec.shown_at trail.now }
{
    Shown {
        value: hw_at(trail).reads,
        swmod: in_effect(trail, Property::Swmod),
        swacc: in_effect(trail, Property::Swacc),
        anded: in_effect(trail, Property::Anded),
        ored: in_effect(trail, Property::Ored),
        xored: in_effect(trail, Property::Xored),
        overflow: in_effect(trail, Property::Overflow),
        underflow: in_effect(trail, Property::Underflow),
        intr: false,
    }
}
