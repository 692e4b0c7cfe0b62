//! What a description is refused for.

ghost use Rattle.std.specs.Prelude.{◌≡◌, min, IfOk, IfErr};
ghost use Rattle.rdl_text.specs.Refusals.{IsFault};
ghost use Rattle.rdl_effects.specs.Limits.{has_too_many};
ghost use Rattle.rdl_effects.specs.Refusals.{IsConflict};
ghost use Rattle.rdl_words.specs.Words.{spots_of};
ghost use Rattle.rdl_words.specs.Clashes.{IsClash};
ghost use Rattle.rdl_elab.specs.Firsts.{IsFirstOf, earlier_of};
ghost use Rattle.rdl_elab.specs.OneAnswer.{HasOneAnswer};
ghost use Rattle.rdl_elab.specs.Refusals as spec;

use crate::unlike::first_unlike;
use bit_base::place::{Place, first_of};
use rdl_effects::effect::{Effect, first_conflict};
use rdl_effects::limit::has_too_many;
use rdl_layout::register::{Notes, Register, notes_of};
use rdl_text::text::{Check, first_fault};
use rdl_tree::fault::{RdlCode, RdlFault};
use rdl_tree::tree::RdlFile;
use rdl_words::clash::{first_clash, words_of};
use std::alloc::{AllocError, Global};

// Of two places that may be missing the one that stands before the other.
fn earlier_of(a: Option<Place>, b: Option<Place>) -> Option<Place>
    ensures { result ≡ earlier_of a b }
{
    match (a, b) {
        (None, b) => b,
        (Some(p), None) => Some(p),
        (Some(p), Some(q)) => Some(p.earlier(q)),
    }
}

// The first fault that a check finds in the text.
fn first_in_text(alloc: Global, file: &RdlFile, check: Check) -> Result<Option<Place>, AllocError>
    ensures { IfOk result (λ found. IsFirstOf (IsFault check file.now) found) }
{
    let found = first_fault(alloc, file, check)?;
    Ok(found)
}

// The first place that effective values are refused for.
fn first_in_effect(
    alloc: Global,
    file: &RdlFile,
    effect: Effect,
) -> Result<Option<Place>, AllocError>
    ensures { IfOk result (λ found. IsFirstOf (IsConflict effect file.now) found) }
{
    let found = first_conflict(alloc, file, effect)?;
    Ok(found)
}

// The first bus word that two registers have in common.
fn first_shared(alloc: Global, registers: &[Register]) -> Result<Option<Place>, AllocError>
    ensures { IfOk result (λ found. IsFirstOf (IsClash (spots_of registers.now)) found) }
{
    let found = first_clash(alloc, registers)?;
    Ok(found)
}

fn first_name(alloc: Global, file: &RdlFile) -> Result<Option<Place>, AllocError>
    ensures { IfOk result (λ found. IsFirstOf (spec.IsName file.now) found) }
{
    first_in_text(alloc, file, Check::Names)
}

fn first_property(alloc: Global, file: &RdlFile, many: bool) -> Result<Option<Place>, AllocError>
    requires { many ≡ has_too_many file.now }
    ensures { IfOk result (λ found. IsFirstOf (spec.IsProperty file.now) found) }
{
    let text = first_in_text(alloc, file, Check::Properties)?;
    if many {
        return Ok(text);
    }
    let effect = first_in_effect(alloc, file, Effect::Properties)?;
    Ok(earlier_of(text, effect))
}

// What is found on a walk over the instances, none where there are too many.
fn noted(alloc: Global, file: &RdlFile, many: bool) -> Result<Option<Notes>, AllocError>
    requires { many ≡ has_too_many file.now }
    ensures { IfOk result (λ notes. spec.AreNotes file.now notes) }
{
    if many {
        Ok(None)
    } else {
        Ok(Some(notes_of(alloc, file)?))
    }
}

// The first value that is refused where there aren't too many instances.
fn first_value_of(alloc: Global, file: &RdlFile, notes: &Notes) -> Result<Option<Place>, AllocError>
    requires { spec.AreSome file.now notes.now }
    ensures { IfOk result (λ found. IsFirstOf (spec.IsValue file.now) found) }
{
    let text = first_in_text(alloc, file, Check::Values)?;
    let effect = first_in_effect(alloc, file, Effect::Values)?;
    let unlike = first_unlike(alloc, notes.registers.as_slice())?;
    Ok(earlier_of(text, earlier_of(effect, unlike)))
}

fn first_value(
    alloc: Global,
    file: &RdlFile,
    notes: &Option<Notes>,
) -> Result<Option<Place>, AllocError>
    requires { spec.AreNotes file.now notes.now }
    ensures { IfOk result (λ found. IsFirstOf (spec.IsValue file.now) found) }
{
    match notes {
        None => {
            let text = first_in_text(alloc, file, Check::Values)?;
            Ok(text)
        }
        Some(notes) => first_value_of(alloc, file, notes),
    }
}

// The first place that is refused where there aren't too many instances.
fn first_place_of(alloc: Global, file: &RdlFile, notes: &Notes) -> Result<Option<Place>, AllocError>
    requires { spec.AreSome file.now notes.now }
    ensures { IfOk result (λ found. IsFirstOf (spec.IsPlace file.now) found) }
{
    let misplaced = first_of(notes.misplaced.as_slice());
    let clash = first_shared(alloc, notes.registers.as_slice())?;
    Ok(earlier_of(misplaced, clash))
}

fn first_place(
    alloc: Global,
    file: &RdlFile,
    notes: &Option<Notes>,
) -> Result<Option<Place>, AllocError>
    requires { spec.AreNotes file.now notes.now }
    ensures { IfOk result (λ found. IsFirstOf (spec.IsPlace file.now) found) }
{
    match notes {
        None => Ok(None),
        Some(notes) => first_place_of(alloc, file, notes),
    }
}

// The bits of the fields of registers, counted up to 4,097.
fn bits_of(registers: &[Register]) -> u64
    ensures { result ≡ min (spec.bits_in registers.now) 4097 }
{
    let mut so_far = 0;
    for register in registers {
        so_far = (so_far + register.bits.min(4097)).min(4097);
    }
    so_far
}

// Whether registers have over 1,024 bus words or over 4,096 bits of fields.
fn is_large(alloc: Global, registers: &[Register]) -> Result<bool, AllocError>
    ensures { IfOk result (λ b. b ≡ spec.is_large registers.now) }
{
    let words = words_of(alloc, registers)?;
    let bits = bits_of(registers);
    Ok((words.len() > 1024) | (bits > 4096))
}

const WHOLE: Place = Place {
    file: 0,
    line: 0,
    column: 0,
};

fn whole_if(large: bool) -> Option<Place>
    ensures { result ≡ spec.whole_if large }
{
    if large { Some(WHOLE) } else { None }
}

fn first_size(
    alloc: Global,
    file: &RdlFile,
    notes: &Option<Notes>,
) -> Result<Option<Place>, AllocError>
    requires { spec.AreNotes file.now notes.now }
    ensures { IfOk result (λ found. IsFirstOf (spec.IsSize file.now) found) }
{
    match notes {
        None => Ok(whole_if(true)),
        Some(notes) => {
            let large = is_large(alloc, notes.registers.as_slice())?;
            Ok(whole_if(large))
        }
    }
}

/// Refuses a description by the least code whose condition holds, names before properties before
/// values before places before sizes, at the first of its places.
pub fn check_rdl(alloc: Global, file: &RdlFile) -> Result<(), RdlFault>
    ensures fine { IfOk result (λ _. spec.IsFine file.now) }
    ensures refused { IfErr result (λ fault. spec.Refuses file.now fault) }
{
    let names = first_name(alloc, file)?;
    if let Some(place) = names {
        return Err(RdlFault::At {
            code: RdlCode::RdlName,
            place,
        });
    }
    let many = has_too_many(alloc, file)?;
    let properties = first_property(alloc, file, many)?;
    if let Some(place) = properties {
        return Err(RdlFault::At {
            code: RdlCode::RdlProperty,
            place,
        });
    }
    let notes = noted(alloc, file, many)?;
    let values = first_value(alloc, file, &notes)?;
    if let Some(place) = values {
        return Err(RdlFault::At {
            code: RdlCode::RdlValue,
            place,
        });
    }
    let places = first_place(alloc, file, &notes)?;
    if let Some(place) = places {
        return Err(RdlFault::At {
            code: RdlCode::RdlPlace,
            place,
        });
    }
    let sizes = first_size(alloc, file, &notes)?;
    if let Some(place) = sizes {
        return Err(RdlFault::At {
            code: RdlCode::RdlSize,
            place,
        });
    }
    Ok(())
}

/// A law: two answers of `check_rdl` to one description are equal, but for want of memory.
pub fn one_answer()
    ensures { HasOneAnswer }
{}
