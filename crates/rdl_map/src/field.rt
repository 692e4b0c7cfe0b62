//! A field of a register map, by what the description says of it.

ghost use Rattle.std.specs.Prelude.{◌≡◌, ◌≤◌, ◌<◌, length, is_some, IfOk, IfSome};
ghost use Rattle.rdl_map.specs.Given.{small, word_number};
ghost use Rattle.rdl_map.specs.Extras.{is_intr};
ghost use Rattle.rdl_map.specs.Fields as spec;

use crate::extra::{extra_of, is_first, small};
use crate::gate::{Gates, gates_of};
use crate::signal::{InputNumbers, numbers_from};
use field_policies::extra::Extra;
use field_policies::field::Field;
use field_policies::signal::Shown;
use rdl_fields::named::{NamedExtra, NamedField};
use std::alloc::{AllocError, Global};

/// Where a field stands in the map.
#[derive(Clone, Copy, Drop)]
pub struct Position {
    pub word: u32,
    pub lsb: u32,
    pub width: u32,
    pub reset: u32,
}

// The number of the bus word at an address, of fewer than 2^32.
fn word_number(words: &[u32], address: u64) -> Option<u32>
    requires { length words.now < 4294967296 }
    ensures { result ≡ word_number words.now address }
{
    for at in 0..words.len() {
        if u64::from(words[at]) == address {
            return Some(at as u32);
        }
    }
    None
}

fn small_width(width: u128) -> Option<u32>
    ensures { result ≡ small width }
{
    if width < 4_294_967_296 {
        Some(width as u32)
    } else {
        None
    }
}

// Where a field stands and what it starts with, where the word is there and all numbers have 32 bits.
fn position_of(words: &[u32], field: &NamedField) -> Option<Position>
    requires { length words.now < 4294967296 }
    ensures position { IfSome result (λ p. spec.IsPositionOf words.now field.now p) }
    ensures told { is_some result ≡ spec.is_position_told words.now field.now }
{
    let word = word_number(words, field.spot.word)?;
    let lsb = small(field.spot.lsb)?;
    let width = small_width(field.spot.width)?;
    let reset = small(field.start.reset)?;
    Some(Position {
        word,
        lsb,
        width,
        reset,
    })
}

fn is_intr(extra: &NamedExtra) -> bool
    ensures { result ≡ is_intr extra.now }
{
    matches!(extra, NamedExtra::Intr(_))
}

fn with_intr(shown: Shown, intr: bool) -> Shown
    ensures { result ≡ record shown { intr = intr } }
{
    Shown { intr, ..shown }
}

fn shown_of(
    alloc: Global,
    fields: &[NamedField],
    number: u32,
    field: &NamedField,
) -> Result<Shown, AllocError>
    requires { length fields.now < 4294967296 }
    ensures { IfOk result (λ s. s ≡ spec.shown_of fields.now number field.now) }
{
    let first = is_first(alloc, fields, number, field.spot.register)?;
    Ok(with_intr(field.shown, is_intr(&field.extra) && first))
}

// The field with these parts.
fn built(
    alloc: Global,
    given: &NamedField,
    position: Position,
    data_in: Option<u32>,
    gates: Gates,
    extra: Extra,
    shown: Shown,
) -> Result<Field, AllocError>
    ensures { IfOk result (λ f. spec.IsBuiltOf given.now position data_in gates extra shown f) }
{
    let path = given.path.copy(alloc)?;
    Ok(Field {
        path,
        word: position.word,
        lsb: position.lsb,
        width: position.width,
        wire: given.start.wire,
        reset: position.reset,
        starts_known: given.start.known,
        readable: given.software.readable,
        writable: given.software.writable,
        once: given.software.once,
        read: given.software.read,
        write: given.software.write,
        sw_gate: gates.sw_gate,
        data_in,
        data_gate: gates.data_gate,
        set: gates.set,
        clear: gates.clear,
        bit_gate: gates.bit_gate,
        hw_first: given.hardware.goes_first,
        pulse: given.hardware.pulse,
        extra,
        shown,
    })
}

// The field of a number, with these numbers of its inputs.
fn field_with(
    alloc: Global,
    words: &[u32],
    fields: &[NamedField],
    number: u32,
    numbers: InputNumbers,
    given: &NamedField,
) -> Result<Option<Field>, AllocError>
    requires words { length words.now < 4294967296 }
    requires fields { length fields.now < 4294967296 }
    ensures field { IfOk result (λ o. IfSome o (λ f. spec.IsFieldWith words.now fields.now number numbers given.now f)) }
    ensures told { IfOk result (λ o. is_some o ≡ spec.is_told_with words.now fields.now numbers given.now) }
{
    let Some(position) = position_of(words, given) else {
        return Ok(None);
    };
    let Some(gates) = gates_of(fields, numbers, given) else {
        return Ok(None);
    };
    let register = given.spot.register;
    let Some(extra) = extra_of(alloc, fields, numbers, number, register, &given.extra)? else {
        return Ok(None);
    };
    let shown = shown_of(alloc, fields, number, given)?;
    let field = built(alloc, given, position, numbers.data_in, gates, extra, shown)?;
    Ok(Some(field))
}

/// The field of a number, with so many hardware inputs before its own: none where what it names isn't
/// there, or a number has over 32 bits.
pub fn field_of(
    alloc: Global,
    words: &[u32],
    fields: &[NamedField],
    number: u32,
    base: u32,
    given: &NamedField,
) -> Result<Option<Field>, AllocError>
    requires words { length words.now < 4294967296 }
    requires fields { length fields.now < 4294967296 }
    requires base { base ≤ 4294967286 }
    ensures field { IfOk result (λ o. IfSome o (λ f. spec.IsFieldOf words.now fields.now number base given.now f)) }
    ensures told { IfOk result (λ o. is_some o ≡ spec.is_told words.now fields.now base given.now) }
{
    field_with(
        alloc,
        words,
        fields,
        number,
        numbers_from(base, given.inputs),
        given,
    )
}
