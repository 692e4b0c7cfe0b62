//! A field as the tables write it: what is as it is without a property isn't told.

use bit_base::text::Text;
use field_policies::policy::{ReadEffect, WriteEffect};
use field_policies::signal::Shown;
use rdl_fields::named::{
    Hardware, Inputs, NamedCounter, NamedExpr, NamedExtra, NamedField, NamedGate, NamedIntr,
    Software, Spot, Start,
};
use std::alloc::{AllocError, Global};
use std::vec::Vec;

/// A number in decimal.
pub fn push_number(alloc: Global, out: &mut Vec<u8>, number: u64) -> Result<(), AllocError> {
    let text = number.to_string(alloc)?;
    Ok(out.extend_from_slice(text.as_bytes())?)
}

fn push_if(out: &mut Vec<u8>, has: bool, word: &[u8]) -> Result<(), AllocError> {
    if has {
        out.extend_from_slice(word)?;
    }
    Ok(())
}

fn push_path(out: &mut Vec<u8>, path: &Text, mark: &[u8]) -> Result<(), AllocError> {
    out.extend_from_slice(path.as_bytes())?;
    Ok(out.extend_from_slice(mark)?)
}

fn push_expr(out: &mut Vec<u8>, name: &[u8], expr: &NamedExpr) -> Result<(), AllocError> {
    out.extend_from_slice(name)?;
    match expr {
        NamedExpr::Input => Ok(out.extend_from_slice(b"in")?),
        NamedExpr::Value(path) => push_path(out, path, b""),
        NamedExpr::Anded(path) => push_path(out, path, b"&"),
        NamedExpr::Ored(path) => push_path(out, path, b"|"),
        NamedExpr::Xored(path) => push_path(out, path, b"^"),
    }
}

fn push_given(out: &mut Vec<u8>, name: &[u8], expr: &Option<NamedExpr>) -> Result<(), AllocError> {
    match expr {
        None => Ok(()),
        Some(expr) => push_expr(out, name, expr),
    }
}

fn push_gate(
    out: &mut Vec<u8>,
    high: &[u8],
    low: &[u8],
    gate: &Option<NamedGate>,
) -> Result<(), AllocError> {
    match gate {
        None => Ok(()),
        Some(gate) => {
            let name = if gate.high { high } else { low };
            push_expr(out, name, &gate.expr)
        }
    }
}

fn push_spot(alloc: Global, out: &mut Vec<u8>, spot: Spot) -> Result<(), AllocError> {
    out.extend_from_slice(b" ")?;
    push_number(alloc, out, spot.register)?;
    out.extend_from_slice(b" ")?;
    push_number(alloc, out, spot.word)?;
    out.extend_from_slice(b" ")?;
    push_number(alloc, out, spot.lsb)?;
    out.extend_from_slice(b"+")?;
    push_number(alloc, out, spot.width.min(99) as u64)
}

fn write_word(write: WriteEffect) -> &'static [u8] {
    match write {
        WriteEffect::AsIs => b"".as_slice(),
        WriteEffect::OneSet => b" woset".as_slice(),
        WriteEffect::OneClear => b" woclr".as_slice(),
        WriteEffect::OneToggle => b" wot".as_slice(),
        WriteEffect::ZeroSet => b" wzs".as_slice(),
        WriteEffect::ZeroClear => b" wzc".as_slice(),
        WriteEffect::ZeroToggle => b" wzt".as_slice(),
        WriteEffect::Clear => b" wclr".as_slice(),
        WriteEffect::Set => b" wset".as_slice(),
    }
}

fn read_word(read: ReadEffect) -> &'static [u8] {
    match read {
        ReadEffect::Keep => b"".as_slice(),
        ReadEffect::Clear => b" rclr".as_slice(),
        ReadEffect::Set => b" rset".as_slice(),
    }
}

fn push_software(out: &mut Vec<u8>, software: &Software) -> Result<(), AllocError> {
    out.extend_from_slice(b" ")?;
    push_if(out, software.readable, b"r")?;
    push_if(out, software.writable, b"w")?;
    push_if(out, software.once, b"1")?;
    out.extend_from_slice(read_word(software.read))?;
    out.extend_from_slice(write_word(software.write))?;
    push_gate(out, b" swwe:", b" swwel:", &software.gate)
}

fn push_start(alloc: Global, out: &mut Vec<u8>, start: Start) -> Result<(), AllocError> {
    push_if(out, start.wire, b" wire")?;
    push_if(out, !start.known, b" ?")?;
    out.extend_from_slice(b" =")?;
    push_number(alloc, out, start.reset)
}

fn push_hardware(out: &mut Vec<u8>, hardware: &Hardware) -> Result<(), AllocError> {
    push_if(out, hardware.has_data, b" data")?;
    push_gate(out, b" we:", b" wel:", &hardware.data_gate)?;
    push_given(out, b" hwset:", &hardware.set)?;
    push_given(out, b" hwclr:", &hardware.clear)?;
    push_gate(out, b" hwenable:", b" hwmask:", &hardware.bit_gate)?;
    push_if(out, hardware.goes_first, b" hw")?;
    push_if(out, hardware.pulse, b" pulse")
}

fn push_counter(
    alloc: Global,
    out: &mut Vec<u8>,
    counter: &NamedCounter,
) -> Result<(), AllocError> {
    push_given(out, b" incr:", &counter.incr)?;
    push_given(out, b" decr:", &counter.decr)?;
    out.extend_from_slice(b" +")?;
    push_number(alloc, out, counter.up)?;
    push_if(out, counter.up_stops, b"!")?;
    out.extend_from_slice(b" -")?;
    push_number(alloc, out, counter.down)?;
    push_if(out, counter.down_stops, b"!")
}

fn push_intr(out: &mut Vec<u8>, intr: &NamedIntr) -> Result<(), AllocError> {
    out.extend_from_slice(b" intr")?;
    push_if(out, intr.sticky, b" sticky")?;
    push_gate(out, b" enable:", b" mask:", &intr.filter)
}

fn push_extra(alloc: Global, out: &mut Vec<u8>, extra: &NamedExtra) -> Result<(), AllocError> {
    match extra {
        NamedExtra::Plain => Ok(()),
        NamedExtra::Counter(counter) => push_counter(alloc, out, counter),
        NamedExtra::Intr(intr) => push_intr(out, intr),
    }
}

fn push_inputs(out: &mut Vec<u8>, inputs: Inputs) -> Result<(), AllocError> {
    out.extend_from_slice(b" <")?;
    push_if(out, inputs.has_data, b" data")?;
    push_if(out, inputs.we, b" we")?;
    push_if(out, inputs.wel, b" wel")?;
    push_if(out, inputs.hwset, b" hwset")?;
    push_if(out, inputs.hwclr, b" hwclr")?;
    push_if(out, inputs.swwe, b" swwe")?;
    push_if(out, inputs.swwel, b" swwel")?;
    push_if(out, inputs.incr, b" incr")?;
    push_if(out, inputs.decr, b" decr")
}

fn push_shown(out: &mut Vec<u8>, shown: Shown) -> Result<(), AllocError> {
    out.extend_from_slice(b" >")?;
    push_if(out, shown.value, b" value")?;
    push_if(out, shown.swmod, b" swmod")?;
    push_if(out, shown.swacc, b" swacc")?;
    push_if(out, shown.anded, b" anded")?;
    push_if(out, shown.ored, b" ored")?;
    push_if(out, shown.xored, b" xored")?;
    push_if(out, shown.overflow, b" overflow")?;
    push_if(out, shown.underflow, b" underflow")?;
    push_if(out, shown.intr, b" intr")
}

/// Its path, the addresses of its register and of its bus word, its lowest bit there and its bits; what
/// software may do; what it starts with; what hardware may do; its inputs behind `<`, its outputs
/// behind `>`.
pub fn push_field(alloc: Global, out: &mut Vec<u8>, field: &NamedField) -> Result<(), AllocError> {
    push_path(out, &field.path, b"")?;
    push_spot(alloc, out, field.spot)?;
    push_software(out, &field.software)?;
    push_start(alloc, out, field.start)?;
    push_hardware(out, &field.hardware)?;
    push_extra(alloc, out, &field.extra)?;
    push_inputs(out, field.inputs)?;
    push_shown(out, field.shown)
}
