//! Instances, and the entries of enumerations.

ghost use Rattle.parsing.specs.Reads.{Reads};
ghost use Rattle.rdl_parse.specs.Grammar as spec;

use crate::cursor::Cursor;
use crate::properties::prop;
use parsing::stop::Stop;
use rdl_tree::token::{RdlToken, RdlTokenKind};
use rdl_tree::tree::{
    RdlEntry, RdlEntryBody, RdlEntryProp, RdlEnum, RdlInst, RdlInsts, RdlMarked, RdlNextInst,
    RdlRange,
};
use sqlite_items::Items;
use std::alloc::Global;

/// `mark NUM`
#[tactic(auto, unfolding(crate::specs::Grammar::marked))]
fn marked(alloc: Global, tokens: &mut Cursor<'_>, mark: &[u8]) -> Result<RdlMarked, Stop>
    ensures { Reads (spec.marked mark.now tokens.old) result tokens.new }
{
    let mark = tokens.text(alloc, mark)?;
    let number = tokens.kind(alloc, RdlTokenKind::Num)?;
    Ok(RdlMarked { mark, number })
}

/// `[mark NUM]`
#[tactic(auto, unfolding(crate::specs::Grammar::any_marked))]
fn any_marked(
    alloc: Global,
    tokens: &mut Cursor<'_>,
    mark: &[u8],
) -> Result<Option<RdlMarked>, Stop>
    ensures { Reads (spec.any_marked mark.now tokens.old) result tokens.new }
{
    if !tokens.sees_text(mark) {
        return Ok(None);
    }
    Ok(Some(marked(alloc, tokens, mark)?))
}

/// `"[" NUM [":" NUM] "]"`
#[tactic(auto, unfolding(crate::specs::Grammar::range))]
fn range(alloc: Global, tokens: &mut Cursor<'_>) -> Result<RdlRange, Stop>
    ensures { Reads (spec.range tokens.old) result tokens.new }
{
    let open = tokens.text(alloc, b"[")?;
    let first = tokens.kind(alloc, RdlTokenKind::Num)?;
    let second = any_marked(alloc, tokens, b":")?;
    let close = tokens.text(alloc, b"]")?;
    Ok(RdlRange {
        open,
        first,
        second,
        close,
    })
}

/// `["[" NUM [":" NUM] "]"]`
#[tactic(auto, unfolding(crate::specs::Grammar::any_range))]
fn any_range(alloc: Global, tokens: &mut Cursor<'_>) -> Result<Option<RdlRange>, Stop>
    ensures { Reads (spec.any_range tokens.old) result tokens.new }
{
    if !tokens.sees_text(b"[") {
        return Ok(None);
    }
    Ok(Some(range(alloc, tokens)?))
}

/// `NAME ["[" NUM [":" NUM] "]"] ["=" NUM] ["@" NUM] ["+=" NUM] ["%=" NUM]`
#[tactic(auto, unfolding(crate::specs::Grammar::inst))]
fn inst(alloc: Global, tokens: &mut Cursor<'_>) -> Result<RdlInst, Stop>
    ensures { Reads (spec.inst tokens.old) result tokens.new }
{
    let name = tokens.name(alloc)?;
    let range = any_range(alloc, tokens)?;
    let reset = any_marked(alloc, tokens, b"=")?;
    let address = any_marked(alloc, tokens, b"@")?;
    let stride = any_marked(alloc, tokens, b"+=")?;
    let alignment = any_marked(alloc, tokens, b"%=")?;
    Ok(RdlInst {
        name,
        range,
        reset,
        address,
        stride,
        alignment,
    })
}

/// `"," inst`
#[tactic(auto, unfolding(crate::specs::Grammar::next_inst))]
fn next_inst(alloc: Global, tokens: &mut Cursor<'_>) -> Result<RdlNextInst, Stop>
    ensures { Reads (spec.next_inst tokens.old) result tokens.new }
{
    let comma = tokens.text(alloc, b",")?;
    let inst = inst(alloc, tokens)?;
    Ok(RdlNextInst { comma, inst })
}

/// `{"," inst}`
#[tactic(auto, using(parsing::proofs::Turns::many_start, parsing::proofs::Turns::many_ends, parsing::proofs::Turns::many_over, parsing::proofs::Turns::many_turns, parsing::proofs::Turns::many_fails), unfolding(crate::specs::Grammar::next_insts))]
fn next_insts(alloc: Global, tokens: &mut Cursor<'_>) -> Result<Items<RdlNextInst>, Stop>
    ensures { Reads (spec.next_insts tokens.old) result tokens.new }
{
    let mut found = Items::new(alloc);
    for _turn in 0..tokens.len() {
        if !tokens.sees_text(b",") {
            return Ok(found);
        }
        found.push(next_inst(alloc, tokens)?)?;
    }
    Ok(found)
}

/// `inst {"," inst}`
#[tactic(auto, unfolding(crate::specs::Grammar::insts))]
pub fn insts(alloc: Global, tokens: &mut Cursor<'_>) -> Result<RdlInsts, Stop>
    ensures { Reads (spec.insts tokens.old) result tokens.new }
{
    let first = inst(alloc, tokens)?;
    let more = next_insts(alloc, tokens)?;
    Ok(RdlInsts { first, more })
}

/// The instances of a definition with this name: without a name it has some.
#[tactic(auto, unfolding(crate::specs::Grammar::insts_after))]
pub fn insts_after(
    alloc: Global,
    tokens: &mut Cursor<'_>,
    name: &Option<RdlToken>,
) -> Result<Option<RdlInsts>, Stop>
    ensures { Reads (spec.insts_after name.now tokens.old) result tokens.new }
{
    if name.is_some() && !tokens.sees_name() {
        return Ok(None);
    }
    Ok(Some(insts(alloc, tokens)?))
}

/// `prop ";"`
#[tactic(auto, unfolding(crate::specs::Grammar::entry_prop))]
fn entry_prop(alloc: Global, tokens: &mut Cursor<'_>) -> Result<RdlEntryProp, Stop>
    ensures { Reads (spec.entry_prop tokens.old) result tokens.new }
{
    let prop = prop(alloc, tokens)?;
    let semi = tokens.text(alloc, b";")?;
    Ok(RdlEntryProp { prop, semi })
}

/// `{prop ";"}`
#[tactic(auto, using(parsing::proofs::Turns::many_start, parsing::proofs::Turns::many_ends, parsing::proofs::Turns::many_over, parsing::proofs::Turns::many_turns, parsing::proofs::Turns::many_fails), unfolding(crate::specs::Grammar::entry_props))]
fn entry_props(alloc: Global, tokens: &mut Cursor<'_>) -> Result<Items<RdlEntryProp>, Stop>
    ensures { Reads (spec.entry_props tokens.old) result tokens.new }
{
    let mut found = Items::new(alloc);
    for _turn in 0..tokens.len() {
        if !tokens.sees_name() {
            return Ok(found);
        }
        found.push(entry_prop(alloc, tokens)?)?;
    }
    Ok(found)
}

/// `"{" {prop ";"} "}"`
#[tactic(auto, unfolding(crate::specs::Grammar::entry_body))]
fn entry_body(alloc: Global, tokens: &mut Cursor<'_>) -> Result<RdlEntryBody, Stop>
    ensures { Reads (spec.entry_body tokens.old) result tokens.new }
{
    let open = tokens.text(alloc, b"{")?;
    let props = entry_props(alloc, tokens)?;
    let close = tokens.text(alloc, b"}")?;
    Ok(RdlEntryBody { open, props, close })
}

/// `["{" {prop ";"} "}"]`
#[tactic(auto, unfolding(crate::specs::Grammar::any_body))]
fn any_body(alloc: Global, tokens: &mut Cursor<'_>) -> Result<Option<RdlEntryBody>, Stop>
    ensures { Reads (spec.any_body tokens.old) result tokens.new }
{
    if !tokens.sees_text(b"{") {
        return Ok(None);
    }
    Ok(Some(entry_body(alloc, tokens)?))
}

/// `NAME ["=" NUM] ["{" {prop ";"} "}"] ";"`
#[tactic(auto, unfolding(crate::specs::Grammar::entry))]
fn entry(alloc: Global, tokens: &mut Cursor<'_>) -> Result<RdlEntry, Stop>
    ensures { Reads (spec.entry tokens.old) result tokens.new }
{
    let name = tokens.name(alloc)?;
    let value = any_marked(alloc, tokens, b"=")?;
    let body = any_body(alloc, tokens)?;
    let semi = tokens.text(alloc, b";")?;
    Ok(RdlEntry {
        name,
        value,
        body,
        semi,
    })
}

/// `{entry}`
#[tactic(auto, using(parsing::proofs::Turns::many_start, parsing::proofs::Turns::many_ends, parsing::proofs::Turns::many_over, parsing::proofs::Turns::many_turns, parsing::proofs::Turns::many_fails), unfolding(crate::specs::Grammar::entries))]
fn entries(alloc: Global, tokens: &mut Cursor<'_>) -> Result<Items<RdlEntry>, Stop>
    ensures { Reads (spec.entries tokens.old) result tokens.new }
{
    let mut found = Items::new(alloc);
    for _turn in 0..tokens.len() {
        if !tokens.sees_name() {
            return Ok(found);
        }
        found.push(entry(alloc, tokens)?)?;
    }
    Ok(found)
}

/// `"enum" NAME "{" {entry} "}" ";"`
#[tactic(auto, unfolding(crate::specs::Grammar::enumeration))]
pub fn enumeration(alloc: Global, tokens: &mut Cursor<'_>) -> Result<RdlEnum, Stop>
    ensures { Reads (spec.enumeration tokens.old) result tokens.new }
{
    let word = tokens.text(alloc, b"enum")?;
    let name = tokens.name(alloc)?;
    let open = tokens.text(alloc, b"{")?;
    let entries = entries(alloc, tokens)?;
    let close = tokens.text(alloc, b"}")?;
    let semi = tokens.text(alloc, b";")?;
    Ok(RdlEnum {
        word,
        name,
        open,
        entries,
        close,
        semi,
    })
}
