//! The register map of a description.

ghost use Rattle.std.specs.Prelude.{◌≡◌, ◌≤◌, ◌<◌, true, length, is_some, IfOk, IfSome};
ghost use Rattle.std.specs.List.{list_all};
ghost use Rattle.rdl_map.specs.Fields.{AreFrom, are_told};
ghost use Rattle.rdl_map.specs.Maps as spec;

use crate::field::field_of;
use crate::signal::count_of;
use field_policies::field::Field;
use field_policies::signal::HwInput;
use rdl_fields::named::NamedField;
use rdl_fields::register::fields_of;
use rdl_layout::register::{Register, notes_of};
use rdl_numbers::input::inputs_of;
use rdl_numbers::order::{sort_fields, sorted_words};
use rdl_tree::tree::RdlFile;
use std::alloc::{AllocError, Global};
use std::vec::Vec;

/// The parts of a register map.
#[derive(Drop)]
pub struct Parts {
    /// Bits of a bus word.
    pub bus_width: u64,
    /// The byte address of each bus word.
    pub words: Vec<u32>,
    pub fields: Vec<Field>,
    /// The hardware inputs, field by field in the order of `InSignal`.
    pub inputs: Vec<HwInput>,
}

fn bus_of(registers: &[Register]) -> u64
    ensures { result ≡ spec.bus_of registers.now }
{
    match registers {
        [] => 32,
        [first, ..] => first.access,
    }
}

// Fields one by one; none where one of them can't be told.
fn numbered_fields(
    alloc: Global,
    words: &[u32],
    fields: &[NamedField],
) -> Result<Option<Vec<Field>>, AllocError>
    requires words { length words.now < 4294967296 }
    requires fields { length fields.now < 134217728 }
    ensures fields { IfOk result (λ o. IfSome o (λ fs. AreFrom words.now fields.now 0 0 fields.now fs.items)) }
    ensures told { IfOk result (λ o. is_some o ≡ are_told words.now fields.now 0 fields.now) }
{
    let mut out = Vec::new(alloc);
    let mut base = 0;
    for at in 0..fields.len() {
        let given = &fields[at];
        let Some(field) = field_of(alloc, words, fields, at as u32, base, given)? else {
            return Ok(None);
        };
        out.push(field)?;
        base += count_of(given.inputs);
    }
    Ok(Some(out))
}

fn is_narrow(field: &NamedField) -> bool
    ensures { result ≡ spec.is_narrow field.now }
{
    field.spot.width < 4_294_967_296
}

// Whether all fields have fewer than 2^32 bits.
fn are_narrow(fields: &[NamedField]) -> bool
    ensures { result ≡ list_all spec.is_narrow fields.now }
{
    fields.iter().all(|field| is_narrow(field))
}

// The map with these words and fields; none where a field can't be told.
#[tactic(auto, using(crate::proofs::Narrow::all_narrow))]
fn map_of(
    alloc: Global,
    bus_width: u64,
    words: Vec<u32>,
    fields: &[NamedField],
) -> Result<Option<Parts>, AllocError>
    requires words { length words.items < 4294967296 }
    requires fields { length fields.now < 134217728 }
    requires narrow { list_all spec.is_narrow fields.now ≡ true }
    ensures map { IfOk result (λ o. IfSome o (λ m. spec.IsBuiltOf bus_width words.items fields.now m)) }
    ensures told { IfOk result (λ o. is_some o ≡ are_told words.items fields.now 0 fields.now) }
{
    let Some(numbered) = numbered_fields(alloc, words.as_slice(), fields)? else {
        return Ok(None);
    };
    let inputs = inputs_of(alloc, fields)?;
    Ok(Some(Parts {
        bus_width,
        words,
        fields: numbered,
        inputs,
    }))
}

// The map with these words and fields, where there are few enough of them and none is too wide.
fn checked_map(
    alloc: Global,
    bus_width: u64,
    words: Vec<u32>,
    fields: &[NamedField],
) -> Result<Option<Parts>, AllocError>
    ensures map { IfOk result (λ o. IfSome o (λ m. spec.IsBuiltOf bus_width words.items fields.now m)) }
    ensures told { IfOk result (λ o. is_some o ≡ spec.is_map_told words.items fields.now) }
{
    let few = words.len() < 4_294_967_296 && fields.len() < 134_217_728;
    if few && are_narrow(fields) {
        map_of(alloc, bus_width, words, fields)
    } else {
        Ok(None)
    }
}

/// The register map of a description, none where its parts can't all be told: a reference names no
/// field, a word or a number has over 32 bits.
pub fn parts_of(alloc: Global, file: &RdlFile) -> Result<Option<Parts>, AllocError>
    ensures { IfOk result (λ o. spec.IsMapAnswer file.now o) }
{
    let notes = notes_of(alloc, file)?;
    let bus_width = bus_of(notes.registers.as_slice());
    let words = sorted_words(alloc, notes.registers.as_slice())?;
    let mut fields = fields_of(alloc, file)?;
    sort_fields(alloc, &mut fields)?;
    checked_map(alloc, bus_width, words, fields.as_slice())
}
