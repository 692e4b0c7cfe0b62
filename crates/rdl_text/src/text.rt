//! What the text of a description is refused for.

ghost use Rattle.std.specs.Prelude.{◌≡◌, ◌↔◌, ◌⊎◌, ◌++◌, ◌∷◌, [], Some, None, Contains, IfOk, IfErr, OnOk};
ghost use Rattle.std.specs.Option.{option_map};
ghost use Rattle.bit_base.specs.declared.place.Place.{Place};
ghost use Rattle.rdl_tree.specs.declared.tree.RdlItem.{out-RdlItem};
ghost use Rattle.rdl_text.specs.Chains.{nows};
ghost use Rattle.rdl_text.specs.Inside.{Inside, definition_in};
ghost use Rattle.rdl_text.specs.OneAnswer.{HasOneAnswer};
ghost use Rattle.rdl_text.specs.Refusals as spec;

use crate::assignment::note_misassigned;
use crate::form::note_misvalued;
use crate::instance::Body;
use crate::names::{has_top, note_if, note_misnamed};
use crate::scope::chain_of;
use bit_base::place::{Place, first_of};
use rdl_tree::fault::{RdlCode, RdlFault};
use rdl_tree::tree::{RdlDef, RdlFile, RdlItem};
use std::alloc::{AllocError, Global};
use std::vec::Vec;

/// What is looked at: each has a code of its own.
#[derive(Clone, Copy, Debug, PartialEq, Eq, Drop)]
pub enum Check {
    /// Names, by `RdlName`.
    Names,
    /// Which properties are assigned, by `RdlProperty`.
    Properties,
    /// The form of values, by `RdlValue`.
    Values,
}

// Notes the refusals of one item of a body, with these before it.
fn note_item<'a>(
    alloc: Global,
    out: &mut Vec<Place>,
    check: Check,
    outer: &[&'a [RdlItem]],
    kind: Body,
    items: &'a [RdlItem],
    before: &'a [RdlItem],
    item: &'a RdlItem,
) -> Result<(), AllocError>
    ensures { OnOk result (out.new.items ≡ out.old.items ++ spec.refused_by check (nows outer.now) kind items.now before.now (out-RdlItem item.now)) }
{
    match check {
        Check::Names => note_misnamed(alloc, out, outer, kind, items, before, item),
        Check::Properties => note_misassigned(alloc, out, outer, kind, before, item),
        Check::Values => note_misvalued(alloc, out, outer, before, item),
    }
}

// Notes the refusals of the items of a body.
fn note_own<'a>(
    alloc: Global,
    out: &mut Vec<Place>,
    check: Check,
    outer: &[&'a [RdlItem]],
    kind: Body,
    items: &'a [RdlItem],
) -> Result<(), AllocError>
    ensures { OnOk result (out.new.items ≡ out.old.items ++ spec.refused_from check (nows outer.now) kind items.now [] items.now) }
{
    for at in 0..items.len() {
        note_item(
            alloc,
            out,
            check,
            outer,
            kind,
            items,
            &items[..at],
            &items[at],
        )?;
    }
    Ok(())
}

// The definition that the item is.
fn definition_in(item: &RdlItem) -> Option<&RdlDef>
    ensures { option_map (λ d. d.now) result ≡ definition_in (out-RdlItem item.now) }
{
    match item {
        RdlItem::Def(definition) => Some(definition),
        _ => None,
    }
}

// Notes the refusals of the body of an item, where it is a definition.
#[cycle(bodies)]
fn note_inside<'a>(
    alloc: Global,
    out: &mut Vec<Place>,
    check: Check,
    item: &'a RdlItem,
    outer: &[&'a [RdlItem]],
    before: &'a [RdlItem],
) -> Result<(), AllocError>
    ensures { OnOk result ((p : Place) → Contains out.new.items p ↔ (Contains out.old.items p ⊎ Inside check (nows outer.now) before.now (out-RdlItem item.now) p)) }
{
    match definition_in(item) {
        Some(definition) => {
            let chain = chain_of(alloc, outer, before)?;
            let kind = Body::of(&definition.kind);
            let items = definition.items.as_slice();
            note_body(alloc, out, check, items, chain.as_slice(), kind)
        }
        None => Ok(()),
    }
}

// Notes the refusals of a body and of those of its definitions.
#[cycle(bodies)]
fn note_body<'a>(
    alloc: Global,
    out: &mut Vec<Place>,
    check: Check,
    items: &'a [RdlItem],
    outer: &[&'a [RdlItem]],
    kind: Body,
) -> Result<(), AllocError>
    ensures { OnOk result ((p : Place) → Contains out.new.items p ↔ (Contains out.old.items p ⊎ spec.IsRefused check (nows outer.now) kind items.now p)) }
{
    note_own(alloc, out, check, outer, kind, items)?;
    for at in 0..items.len() {
        note_inside(alloc, out, check, &items[at], outer, &items[..at])?;
    }
    Ok(())
}

// Whether a top is asked for, and there is none.
fn lacks_top(check: Check, items: &[RdlItem]) -> bool
    ensures { result ≡ spec.lacks_top check items.now }
{
    match check {
        Check::Names => !has_top(items),
        Check::Properties | Check::Values => false,
    }
}

// The places of a description's faults.
fn faults(alloc: Global, file: &RdlFile, check: Check) -> Result<Vec<Place>, AllocError>
    ensures { IfOk result (λ places. (p : Place) → Contains places.items p ↔ spec.IsFault check file.now p) }
{
    let mut out = Vec::new(alloc);
    note_body(
        alloc,
        &mut out,
        check,
        file.items.as_slice(),
        &[],
        Body::File,
    )?;
    note_if(&mut out, lacks_top(check, file.items.as_slice()), file.end)?;
    Ok(out)
}

/// The place of the first fault that a check finds in a description's text.
pub fn first_fault(alloc: Global, file: &RdlFile, check: Check) -> Result<Option<Place>, AllocError>
    ensures first { IfOk result (λ found. (p : Place) → found ≡ Some p → spec.IsFirstFault check file.now p) }
    ensures none { IfOk result (λ found. found ≡ None → spec.HasNone check file.now) }
{
    let places = faults(alloc, file, check)?;
    Ok(first_of(places.as_slice()))
}

/// Refuses a description by what its text alone shows: by the least code that has a fault, names
/// before properties before the form of values, at the first of its faults.
pub fn check_text(alloc: Global, file: &RdlFile) -> Result<(), RdlFault>
    ensures fine { IfOk result (λ _. spec.IsFine file.now) }
    ensures refused { IfErr result (λ fault. spec.Refuses file.now fault) }
{
    let names = first_fault(alloc, file, Check::Names)?;
    if let Some(place) = names {
        return Err(RdlFault::At {
            code: RdlCode::RdlName,
            place,
        });
    }
    let properties = first_fault(alloc, file, Check::Properties)?;
    if let Some(place) = properties {
        return Err(RdlFault::At {
            code: RdlCode::RdlProperty,
            place,
        });
    }
    let values = first_fault(alloc, file, Check::Values)?;
    if let Some(place) = values {
        return Err(RdlFault::At {
            code: RdlCode::RdlValue,
            place,
        });
    }
    Ok(())
}

/// A law: two answers of `check_text` to one description are equal, but for want of memory.
pub fn one_answer()
    ensures { HasOneAnswer }
{}
