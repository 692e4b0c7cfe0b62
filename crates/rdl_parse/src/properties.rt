//! Paths, properties and their values.

ghost use Rattle.parsing.specs.Reads.{Reads};
ghost use Rattle.rdl_parse.specs.Grammar as spec;

use crate::cursor::Cursor;
use parsing::stop::Stop;
use rdl_tree::token::RdlTokenKind;
use rdl_tree::tree::{
    RdlAssigned, RdlIndex, RdlNextStep, RdlPath, RdlProp, RdlSignal, RdlStep, RdlValue,
};
use sqlite_items::Items;
use std::alloc::Global;

/// `"[" NUM "]"`
#[tactic(auto, unfolding(crate::specs::Grammar::index))]
fn index(alloc: Global, tokens: &mut Cursor<'_>) -> Result<RdlIndex, Stop>
    ensures { Reads (spec.index tokens.old) result tokens.new }
{
    let open = tokens.text(alloc, b"[")?;
    let number = tokens.kind(alloc, RdlTokenKind::Num)?;
    let close = tokens.text(alloc, b"]")?;
    Ok(RdlIndex {
        open,
        number,
        close,
    })
}

/// `["[" NUM "]"]`
#[tactic(auto, unfolding(crate::specs::Grammar::any_index))]
pub fn any_index(alloc: Global, tokens: &mut Cursor<'_>) -> Result<Option<RdlIndex>, Stop>
    ensures { Reads (spec.any_index tokens.old) result tokens.new }
{
    if !tokens.sees_text(b"[") {
        return Ok(None);
    }
    Ok(Some(index(alloc, tokens)?))
}

/// `NAME ["[" NUM "]"]`
#[tactic(auto, unfolding(crate::specs::Grammar::step))]
fn step(alloc: Global, tokens: &mut Cursor<'_>) -> Result<RdlStep, Stop>
    ensures { Reads (spec.step tokens.old) result tokens.new }
{
    let name = tokens.name(alloc)?;
    let index = any_index(alloc, tokens)?;
    Ok(RdlStep { name, index })
}

/// `"." step`
#[tactic(auto, unfolding(crate::specs::Grammar::next_step))]
fn next_step(alloc: Global, tokens: &mut Cursor<'_>) -> Result<RdlNextStep, Stop>
    ensures { Reads (spec.next_step tokens.old) result tokens.new }
{
    let dot = tokens.text(alloc, b".")?;
    let step = step(alloc, tokens)?;
    Ok(RdlNextStep { dot, step })
}

/// `{"." step}`
#[tactic(auto, using(parsing::proofs::Turns::many_start, parsing::proofs::Turns::many_ends, parsing::proofs::Turns::many_over, parsing::proofs::Turns::many_turns, parsing::proofs::Turns::many_fails), unfolding(crate::specs::Grammar::next_steps))]
pub fn next_steps(alloc: Global, tokens: &mut Cursor<'_>) -> Result<Items<RdlNextStep>, Stop>
    ensures { Reads (spec.next_steps tokens.old) result tokens.new }
{
    let mut found = Items::new(alloc);
    for _turn in 0..tokens.len() {
        if !tokens.sees_text(b".") {
            return Ok(found);
        }
        found.push(next_step(alloc, tokens)?)?;
    }
    Ok(found)
}

/// `step {"." step}`
#[tactic(auto, unfolding(crate::specs::Grammar::path))]
fn path(alloc: Global, tokens: &mut Cursor<'_>) -> Result<RdlPath, Stop>
    ensures { Reads (spec.path tokens.old) result tokens.new }
{
    let first = step(alloc, tokens)?;
    let more = next_steps(alloc, tokens)?;
    Ok(RdlPath { first, more })
}

/// `"->" NAME`
#[tactic(auto, unfolding(crate::specs::Grammar::signal))]
fn signal(alloc: Global, tokens: &mut Cursor<'_>) -> Result<RdlSignal, Stop>
    ensures { Reads (spec.signal tokens.old) result tokens.new }
{
    let arrow = tokens.text(alloc, b"->")?;
    let name = tokens.name(alloc)?;
    Ok(RdlSignal { arrow, name })
}

/// `["->" NAME]`
#[tactic(auto, unfolding(crate::specs::Grammar::any_signal))]
fn any_signal(alloc: Global, tokens: &mut Cursor<'_>) -> Result<Option<RdlSignal>, Stop>
    ensures { Reads (spec.any_signal tokens.old) result tokens.new }
{
    if !tokens.sees_text(b"->") {
        return Ok(None);
    }
    Ok(Some(signal(alloc, tokens)?))
}

/// `path ["->" NAME]`
#[tactic(auto, unfolding(crate::specs::Grammar::reference))]
fn reference(alloc: Global, tokens: &mut Cursor<'_>) -> Result<RdlValue, Stop>
    ensures { Reads (spec.reference tokens.old) result tokens.new }
{
    let path = path(alloc, tokens)?;
    let signal = any_signal(alloc, tokens)?;
    Ok(RdlValue::Reference(path, signal))
}

/// `NUM | STRING | "true" | "false" | path ["->" NAME]`
#[tactic(auto, unfolding(crate::specs::Grammar::value_of))]
fn value_of(alloc: Global, tokens: &mut Cursor<'_>) -> Result<RdlValue, Stop>
    ensures { Reads (spec.value_of tokens.old) result tokens.new }
{
    if tokens.sees_kind(RdlTokenKind::Num) {
        return Ok(RdlValue::Num(tokens.kind(alloc, RdlTokenKind::Num)?));
    }
    if tokens.sees_kind(RdlTokenKind::Str) {
        return Ok(RdlValue::Str(tokens.kind(alloc, RdlTokenKind::Str)?));
    }
    if tokens.sees_text(b"true") {
        return Ok(RdlValue::True(tokens.text(alloc, b"true")?));
    }
    if tokens.sees_text(b"false") {
        return Ok(RdlValue::False(tokens.text(alloc, b"false")?));
    }
    reference(alloc, tokens)
}

/// `"=" value`
#[tactic(auto, unfolding(crate::specs::Grammar::assigned))]
fn assigned(alloc: Global, tokens: &mut Cursor<'_>) -> Result<RdlAssigned, Stop>
    ensures { Reads (spec.assigned tokens.old) result tokens.new }
{
    let equals = tokens.text(alloc, b"=")?;
    let value = value_of(alloc, tokens)?;
    Ok(RdlAssigned { equals, value })
}

/// `["=" value]`
#[tactic(auto, unfolding(crate::specs::Grammar::any_assigned))]
pub fn any_assigned(alloc: Global, tokens: &mut Cursor<'_>) -> Result<Option<RdlAssigned>, Stop>
    ensures { Reads (spec.any_assigned tokens.old) result tokens.new }
{
    if !tokens.sees_text(b"=") {
        return Ok(None);
    }
    Ok(Some(assigned(alloc, tokens)?))
}

/// `NAME ["=" value]`
#[tactic(auto, unfolding(crate::specs::Grammar::prop))]
pub fn prop(alloc: Global, tokens: &mut Cursor<'_>) -> Result<RdlProp, Stop>
    ensures { Reads (spec.prop tokens.old) result tokens.new }
{
    let name = tokens.name(alloc)?;
    let value = any_assigned(alloc, tokens)?;
    Ok(RdlProp { name, value })
}
