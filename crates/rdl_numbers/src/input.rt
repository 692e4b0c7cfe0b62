//! The hardware inputs of fields, field by field.

ghost use Rattle.std.specs.Prelude.{◌≡◌, ◌<◌, ◌≤◌, ◌++◌, map, length, IfOk, OnOk};
ghost use Rattle.std.specs.List.{All};
ghost use Rattle.field_policies.specs.Maps.{input_width};
ghost use Rattle.rdl_numbers.specs.Inputs as spec;

use field_policies::signal::{HwInput, InSignal};
use rdl_fields::named::{Inputs, NamedField};
use std::alloc::{AllocError, Global};
use std::vec::Vec;

fn note_if(out: &mut Vec<InSignal>, has: bool, signal: InSignal) -> Result<(), AllocError>
    ensures { OnOk result (out.new.items ≡ out.old.items ++ spec.signal_if has signal) }
{
    if has {
        out.push(signal)?;
    }
    Ok(())
}

// The kinds of inputs that a field has, the data first.
fn signals_of(alloc: Global, inputs: &Inputs) -> Result<Vec<InSignal>, AllocError>
    ensures { IfOk result (λ signals. signals.items ≡ spec.signals_of inputs.now) }
{
    let mut out = Vec::new(alloc);
    note_if(&mut out, inputs.has_data, InSignal::Data)?;
    note_if(&mut out, inputs.we, InSignal::We)?;
    note_if(&mut out, inputs.wel, InSignal::Wel)?;
    note_if(&mut out, inputs.hwset, InSignal::HwSet)?;
    note_if(&mut out, inputs.hwclr, InSignal::HwClr)?;
    note_if(&mut out, inputs.swwe, InSignal::SwWe)?;
    note_if(&mut out, inputs.swwel, InSignal::SwWel)?;
    note_if(&mut out, inputs.incr, InSignal::Incr)?;
    note_if(&mut out, inputs.decr, InSignal::Decr)?;
    Ok(out)
}

fn width_of(signal: InSignal, width: u32) -> u32
    ensures { result ≡ input_width signal width }
{
    match signal {
        InSignal::Data => width,
        _ => 1,
    }
}

// Notes the inputs of these kinds, of the field with this number and so many bits.
fn note_signals(
    out: &mut Vec<HwInput>,
    field: u32,
    width: u32,
    signals: &[InSignal],
) -> Result<(), AllocError>
    ensures { OnOk result (out.new.items ≡ out.old.items ++ map (spec.input_of field width) signals.now) }
{
    for signal in signals {
        out.push(HwInput {
            field,
            signal: *signal,
            width: width_of(*signal, width),
        })?;
    }
    Ok(())
}

// Notes the inputs of the field with this number.
fn note_field(
    alloc: Global,
    out: &mut Vec<HwInput>,
    number: u32,
    field: &NamedField,
) -> Result<(), AllocError>
    requires { field.now.spot.width < 4294967296 }
    ensures { OnOk result (out.new.items ≡ out.old.items ++ spec.own_inputs number field.now) }
{
    let signals = signals_of(alloc, &field.inputs)?;
    note_signals(out, number, field.spot.width as u32, signals.as_slice())
}

/// The hardware inputs of fields, of fewer than 2^32, field by field in the order of `InSignal`.
pub fn inputs_of(alloc: Global, fields: &[NamedField]) -> Result<Vec<HwInput>, AllocError>
    requires few { length fields.now < 4294967296 }
    requires narrow { All (λ f. f.spot.width < 4294967296) fields.now }
    ensures { IfOk result (λ inputs. inputs.items ≡ spec.inputs_of fields.now) }
{
    let mut out = Vec::new(alloc);
    for at in 0..fields.len() {
        note_field(alloc, &mut out, at as u32, &fields[at])?;
    }
    Ok(out)
}
