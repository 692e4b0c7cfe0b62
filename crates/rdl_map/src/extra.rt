//! Counters and interrupts by numbers.

ghost use Rattle.std.specs.Prelude.{◌≡◌, ◌<◌, ◌++◌, length, is_some, None, IfOk, IfSome, OnOk};
ghost use Rattle.rdl_map.specs.Given.{given_gate, small};
ghost use Rattle.rdl_map.specs.Extras as spec;

use crate::gate::{given_expr, given_gate};
use crate::signal::InputNumbers;
use field_policies::extra::{Counter, Extra, Intr};
use rdl_fields::named::{NamedCounter, NamedExtra, NamedField, NamedIntr};
use std::alloc::{AllocError, Global};
use std::vec::Vec;

/// A number, where it has 32 bits.
pub fn small(number: u64) -> Option<u32>
    ensures { result ≡ small number }
{
    if number < 4_294_967_296 {
        Some(number as u32)
    } else {
        None
    }
}

fn counter_of(
    fields: &[NamedField],
    numbers: InputNumbers,
    counter: &NamedCounter,
) -> Option<Counter>
    requires { length fields.now < 4294967296 }
    ensures counter { IfSome result (λ c. spec.IsCounterOf fields.now numbers counter.now c) }
    ensures told { is_some result ≡ spec.is_counter_told fields.now numbers counter.now }
{
    let incr = given_expr(fields, numbers.incr, &counter.incr)?;
    let decr = given_expr(fields, numbers.decr, &counter.decr)?;
    let up = small(counter.up)?;
    let down = small(counter.down)?;
    Some(Counter {
        incr,
        decr,
        up,
        down,
        up_stops: counter.up_stops,
        down_stops: counter.down_stops,
    })
}

fn is_intr(extra: &NamedExtra) -> bool
    ensures { result ≡ spec.is_intr extra.now }
{
    matches!(extra, NamedExtra::Intr(_))
}

fn interrupts(register: u64, field: &NamedField) -> bool
    ensures { result ≡ spec.interrupts register field.now }
{
    is_intr(&field.extra) && field.spot.register == register
}

fn note_if(out: &mut Vec<u32>, has: bool, number: u32) -> Result<(), AllocError>
    ensures { OnOk result (out.new.items ≡ out.old.items ++ spec.number_when has number) }
{
    if has {
        out.push(number)?;
    }
    Ok(())
}

// The numbers of the interrupt fields of the register at an address.
fn interrupts_of(
    alloc: Global,
    fields: &[NamedField],
    register: u64,
) -> Result<Vec<u32>, AllocError>
    requires { length fields.now < 4294967296 }
    ensures { IfOk result (λ ns. ns.items ≡ spec.interrupts_from 0 register fields.now) }
{
    let mut out = Vec::new(alloc);
    for at in 0..fields.len() {
        note_if(&mut out, interrupts(register, &fields[at]), at as u32)?;
    }
    Ok(out)
}

fn begins_with(number: u32, numbers: &[u32]) -> bool
    ensures { result ≡ spec.begins_with number numbers.now }
{
    match numbers {
        [] => false,
        [first, ..] => *first == number,
    }
}

/// Whether the field of a number is the first interrupt field of the register at an address.
pub fn is_first(
    alloc: Global,
    fields: &[NamedField],
    number: u32,
    register: u64,
) -> Result<bool, AllocError>
    requires { length fields.now < 4294967296 }
    ensures { IfOk result (λ b. b ≡ spec.is_first fields.now number register) }
{
    let numbers = interrupts_of(alloc, fields, register)?;
    Ok(begins_with(number, numbers.as_slice()))
}

fn members_at(
    alloc: Global,
    fields: &[NamedField],
    number: u32,
    register: u64,
) -> Result<Vec<u32>, AllocError>
    requires { length fields.now < 4294967296 }
    ensures { IfOk result (λ ns. ns.items ≡ spec.members_at fields.now number register) }
{
    let first = is_first(alloc, fields, number, register)?;
    if first {
        interrupts_of(alloc, fields, register)
    } else {
        Ok(Vec::new(alloc))
    }
}

fn intr_of(
    alloc: Global,
    fields: &[NamedField],
    number: u32,
    register: u64,
    intr: &NamedIntr,
) -> Result<Option<Intr>, AllocError>
    requires { length fields.now < 4294967296 }
    ensures intr { IfOk result (λ o. IfSome o (λ i. spec.IsIntrOf fields.now number register intr.now i)) }
    ensures told { IfOk result (λ o. is_some o ≡ is_some (given_gate fields.now None None intr.now.filter)) }
{
    let Some(filter) = given_gate(fields, None, None, &intr.filter) else {
        return Ok(None);
    };
    let members = members_at(alloc, fields, number, register)?;
    Ok(Some(Intr {
        sticky: intr.sticky,
        filter,
        members,
    }))
}

/// What a field is beside its access properties, none where what is named isn't there or a number has
/// over 32 bits.
pub fn extra_of(
    alloc: Global,
    fields: &[NamedField],
    numbers: InputNumbers,
    number: u32,
    register: u64,
    extra: &NamedExtra,
) -> Result<Option<Extra>, AllocError>
    requires { length fields.now < 4294967296 }
    ensures extra { IfOk result (λ o. IfSome o (λ e. spec.IsExtraOf fields.now numbers number register extra.now e)) }
    ensures told { IfOk result (λ o. is_some o ≡ spec.is_extra_told fields.now numbers extra.now) }
{
    match extra {
        NamedExtra::Plain => Ok(Some(Extra::Plain)),
        NamedExtra::Counter(counter) => match counter_of(fields, numbers, counter) {
            None => Ok(None),
            Some(counter) => Ok(Some(Extra::Counter(counter))),
        },
        NamedExtra::Intr(intr) => match intr_of(alloc, fields, number, register, intr)? {
            None => Ok(None),
            Some(intr) => Ok(Some(Extra::Intr(intr))),
        },
    }
}
