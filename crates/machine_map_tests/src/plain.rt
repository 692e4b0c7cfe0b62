//! The plain machine of a map: its state and what it gives as bits.

ghost use Rattle.std.specs.Prelude.{◌≡◌, ◌<◌, ◌^◌, Some, slice_get, IfOk, length};
ghost use Rattle.reg_machine.specs.Conditions.{AreInputs, IsState};

use crate::built::push_number;
use apb_rules::event::BusEvent;
use field_policies::field::Field;
use field_policies::map::RegMap;
use field_policies::signal::OutSignal;
use output_gates::outputs::SIGNALS;
use reg_machine::machine::Machine;
use std::alloc::{AllocError, Global};
use std::vec::Vec;

/// How many bits a field stores: none of a wire.
fn value_bits(field: &Field) -> u32 {
    if field.wire { 0 } else { field.width }
}

/// How many bits a state has.
pub fn state_bits(map: &RegMap) -> u32 {
    let mut bits = 0u32;
    for field in map.fields.as_slice() {
        bits = bits
            .wrapping_add(value_bits(field))
            .wrapping_add(field.once as u32)
            .wrapping_add(!field.starts_known as u32);
    }
    bits
}

/// How many bits the hardware inputs have.
pub fn input_bits(map: &RegMap) -> u32 {
    let mut bits = 0u32;
    for input in map.inputs.as_slice() {
        bits = bits.wrapping_add(input.width);
    }
    bits
}

/// The number's lowest bits.
pub fn low(number: u32, width: u32) -> u32
    ensures { result < 2 ^ width }
{
    if width < 32 {
        number % (1u32 << width)
    } else {
        number
    }
}

/// What a field stores of a number: its lowest bits, and 0 of a wire.
fn stored_low(field: &Field, number: u32) -> u32
    ensures { result < 2 ^ field.now.width }
{
    if field.wire {
        0
    } else {
        low(number, field.width)
    }
}

/// The number without its lowest bits.
pub fn high(number: u32, width: u32) -> u32 {
    if width < 32 { number >> width } else { 0 }
}

/// The machine in the state of these bits.
pub fn machine_at(alloc: Global, map: &RegMap, state: u32) -> Result<Machine, AllocError>
    ensures { IfOk result (λ m. IsState map.now.fields.items m.values.items m.used.items m.known.items) }
{
    let mut values = Vec::new(alloc);
    let mut used = Vec::new(alloc);
    let mut known = Vec::new(alloc);
    let mut rest = state;
    for n in 0..map.fields.len() {
        let field = &map.fields[n];
        let value = stored_low(field, rest);
        values.push(value)?;
        rest = high(rest, value_bits(field));
        used.push(field.once & (rest % 2 == 1))?;
        rest = high(rest, field.once as u32);
        known.push(field.starts_known | (rest % 2 == 1))?;
        rest = high(rest, !field.starts_known as u32);
    }
    Ok(Machine {
        values,
        used,
        known,
    })
}

/// The numbers at the hardware inputs, of these bits.
pub fn numbers_at(alloc: Global, map: &RegMap, hw: u32) -> Result<Vec<u32>, AllocError>
    ensures { IfOk result (λ ns. AreInputs map.now.inputs.items ns.items) }
{
    let mut numbers = Vec::new(alloc);
    let mut rest = hw;
    for k in 0..map.inputs.len() {
        let width = map.inputs[k].width;
        numbers.push(low(rest, width))?;
        rest = high(rest, width);
    }
    Ok(numbers)
}

/// Adds the bits of a state, field by field.
pub fn push_state(bits: &mut Vec<bool>, map: &RegMap, machine: &Machine) -> Result<(), AllocError> {
    for n in 0..map.fields.len() {
        let field = &map.fields[n];
        let value = machine.values.get(n).copied().unwrap_or(0);
        push_number(bits, value, value_bits(field))?;
        if field.once {
            bits.push(machine.used.get(n).copied().unwrap_or(false))?;
        }
        if !field.starts_known {
            bits.push(machine.known.get(n).copied().unwrap_or(false))?;
        }
    }
    Ok(())
}

/// Adds what the field of this number gives at each output that it shows.
fn push_outputs(
    bits: &mut Vec<bool>,
    map: &RegMap,
    machine: &Machine,
    event: BusEvent,
    hw: &[u32],
    n: u32,
) -> Result<(), AllocError>
    requires there { n < length map.now.fields.items }
    requires state { IsState map.now.fields.items machine.now.values.items machine.now.used.items machine.now.known.items }
    requires hw { AreInputs map.now.inputs.items hw.now }
{
    let field = &map.fields[n as usize];
    for signal in SIGNALS {
        if field.shown.has(signal) {
            let width = match signal {
                OutSignal::Value => field.width,
                _ => 1,
            };
            push_number(bits, machine.output(map, event, hw, n, signal), width)?;
        }
    }
    Ok(())
}

/// What the plain machine gives: its state after the edge, its answer, which bits of it count, the
/// error, its outputs, and whether each field is known.
pub fn plain_bits(
    alloc: Global,
    map: &RegMap,
    machine: &mut Machine,
    event: BusEvent,
    hw: &[u32],
) -> Result<Vec<bool>, AllocError>
    requires state { IsState map.now.fields.items machine.old.values.items machine.old.used.items machine.old.known.items }
    requires hw { AreInputs map.now.inputs.items hw.now }
{
    let answer = machine.answer(map, true, event, hw);
    let mut shown = Vec::new(alloc);
    for n in 0..map.fields.len() {
        push_outputs(&mut shown, map, machine, event, hw, n as u32)?;
    }
    for known in machine.known.as_slice() {
        shown.push(*known)?;
    }
    machine.step(map, event, hw);
    let mut bits = Vec::new(alloc);
    push_state(&mut bits, map, machine)?;
    push_number(&mut bits, answer.payload, map.bus_width)?;
    push_number(&mut bits, answer.counts, map.bus_width)?;
    bits.push(answer.error)?;
    bits.extend_from_slice(shown.as_slice())?;
    Ok(bits)
}
