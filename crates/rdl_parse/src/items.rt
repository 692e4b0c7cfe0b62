//! Items and definitions, which hold items.

ghost use Rattle.std.specs.Prelude.{◌≡◌};
ghost use Rattle.parsing.specs.Parser.{sees};
ghost use Rattle.parsing.specs.Reads.{Reads};
ghost use Rattle.rdl_parse.specs.Grammar as spec;

use crate::cursor::Cursor;
use crate::instances::{enumeration, insts, insts_after};
use crate::properties::{any_assigned, any_index, next_steps, prop};
use parsing::stop::Stop;
use rdl_tree::token::RdlToken;
use rdl_tree::tree::{
    RdlAssigned, RdlDef, RdlIndex, RdlInsts, RdlItem, RdlKind, RdlNextStep, RdlPath, RdlProp,
    RdlStep, RdlUse,
};
use sqlite_items::Items;
use std::alloc::Global;

/// `"addrmap" | "regfile" | "reg" | "field"`
#[tactic(auto, unfolding(crate::specs::Grammar::kind))]
fn kind(alloc: Global, tokens: &mut Cursor<'_>) -> Result<RdlKind, Stop>
    ensures { Reads (spec.kind tokens.old) result tokens.new }
{
    if tokens.sees_text(b"addrmap") {
        return Ok(RdlKind::Addrmap(tokens.text(alloc, b"addrmap")?));
    }
    if tokens.sees_text(b"regfile") {
        return Ok(RdlKind::Regfile(tokens.text(alloc, b"regfile")?));
    }
    if tokens.sees_text(b"reg") {
        return Ok(RdlKind::Reg(tokens.text(alloc, b"reg")?));
    }
    Ok(RdlKind::Field(tokens.text(alloc, b"field")?))
}

/// `[NAME]`
#[tactic(auto, unfolding(crate::specs::Grammar::any_name))]
fn any_name(alloc: Global, tokens: &mut Cursor<'_>) -> Result<Option<RdlToken>, Stop>
    ensures { Reads (spec.any_name tokens.old) result tokens.new }
{
    if !tokens.sees_name() {
        return Ok(None);
    }
    Ok(Some(tokens.name(alloc)?))
}

/// `"default" prop ";"`
#[tactic(auto, unfolding(crate::specs::Grammar::default_prop))]
fn default_prop(alloc: Global, tokens: &mut Cursor<'_>) -> Result<RdlItem, Stop>
    ensures { Reads (spec.default_prop tokens.old) result tokens.new }
{
    let word = tokens.text(alloc, b"default")?;
    let prop = prop(alloc, tokens)?;
    let semi = tokens.text(alloc, b";")?;
    Ok(RdlItem::Default(word, prop, semi))
}

#[tactic(auto, unfolding(crate::specs::Grammar::is_path_tail))]
fn sees_path_tail(tokens: &Cursor<'_>) -> bool
    ensures { result ≡ sees spec.is_path_tail tokens.now }
{
    tokens.sees_text(b"[") || tokens.sees_text(b".") || tokens.sees_text(b"->")
}

/// What comes after the name that an item begins with.
#[derive(Drop)]
enum Tail {
    /// Instances of a type and `;`.
    Use(RdlInsts, RdlToken),
    /// The rest of a path, `->`, a property and `;`.
    Path(Option<RdlIndex>, Items<RdlNextStep>, RdlToken, RdlProp, RdlToken),
    /// The rest of a property and `;`.
    Prop(Option<RdlAssigned>, RdlToken),
}

/// `inst {"," inst} ";"`
#[tactic(auto, unfolding(crate::specs::Grammar::use_tail))]
fn use_tail(alloc: Global, tokens: &mut Cursor<'_>) -> Result<Tail, Stop>
    ensures { Reads (spec.use_tail tokens.old) result tokens.new }
{
    let insts = insts(alloc, tokens)?;
    let semi = tokens.text(alloc, b";")?;
    Ok(Tail::Use(insts, semi))
}

/// `["[" NUM "]"] {"." step} "->" prop ";"`
#[tactic(auto, unfolding(crate::specs::Grammar::path_tail))]
fn path_tail(alloc: Global, tokens: &mut Cursor<'_>) -> Result<Tail, Stop>
    ensures { Reads (spec.path_tail tokens.old) result tokens.new }
{
    let index = any_index(alloc, tokens)?;
    let more = next_steps(alloc, tokens)?;
    let arrow = tokens.text(alloc, b"->")?;
    let prop = prop(alloc, tokens)?;
    let semi = tokens.text(alloc, b";")?;
    Ok(Tail::Path(index, more, arrow, prop, semi))
}

/// `["=" value] ";"`
#[tactic(auto, unfolding(crate::specs::Grammar::prop_tail))]
fn prop_tail(alloc: Global, tokens: &mut Cursor<'_>) -> Result<Tail, Stop>
    ensures { Reads (spec.prop_tail tokens.old) result tokens.new }
{
    let value = any_assigned(alloc, tokens)?;
    let semi = tokens.text(alloc, b";")?;
    Ok(Tail::Prop(value, semi))
}

#[tactic(auto, unfolding(crate::specs::Grammar::after_name))]
fn after_name(alloc: Global, tokens: &mut Cursor<'_>) -> Result<Tail, Stop>
    ensures { Reads (spec.after_name tokens.old) result tokens.new }
{
    if tokens.sees_name() {
        return use_tail(alloc, tokens);
    }
    if sees_path_tail(tokens) {
        return path_tail(alloc, tokens);
    }
    prop_tail(alloc, tokens)
}

fn named_item(name: RdlToken, tail: Tail) -> RdlItem
    ensures { result ≡ spec.named_item name tail }
{
    match tail {
        Tail::Use(insts, semi) => RdlItem::Use(RdlUse { name, insts, semi }),
        Tail::Path(index, more, arrow, prop, semi) => {
            let first = RdlStep { name, index };
            RdlItem::Dynamic(RdlPath { first, more }, arrow, prop, semi)
        }
        Tail::Prop(value, semi) => RdlItem::Prop(RdlProp { name, value }, semi),
    }
}

/// `use | prop ";" | path "->" prop ";"`
#[tactic(auto, unfolding(crate::specs::Grammar::named))]
fn named(alloc: Global, tokens: &mut Cursor<'_>) -> Result<RdlItem, Stop>
    ensures { Reads (spec.named tokens.old) result tokens.new }
{
    let name = tokens.name(alloc)?;
    let tail = after_name(alloc, tokens)?;
    Ok(named_item(name, tail))
}

#[tactic(auto, unfolding(crate::specs::Grammar::is_kind_word))]
fn sees_kind_word(tokens: &Cursor<'_>) -> bool
    ensures { result ≡ sees spec.is_kind_word tokens.now }
{
    tokens.sees_text(b"addrmap")
        || tokens.sees_text(b"regfile")
        || tokens.sees_text(b"reg")
        || tokens.sees_text(b"field")
}

#[tactic(auto, unfolding(crate::specs::Grammar::begins_item))]
fn sees_item(tokens: &Cursor<'_>) -> bool
    ensures { result ≡ sees spec.begins_item tokens.now }
{
    sees_kind_word(tokens)
        || tokens.sees_text(b"default")
        || tokens.sees_text(b"enum")
        || tokens.sees_name()
}

/// `[inst {"," inst}] ";"`, after a definition with this name.
#[tactic(auto, unfolding(crate::specs::Grammar::ending))]
fn ending(
    alloc: Global,
    tokens: &mut Cursor<'_>,
    name: &Option<RdlToken>,
) -> Result<(Option<RdlInsts>, RdlToken), Stop>
    ensures { Reads (spec.ending name.now tokens.old) result tokens.new }
{
    let insts = insts_after(alloc, tokens, name)?;
    let semi = tokens.text(alloc, b";")?;
    Ok((insts, semi))
}

/// `kind [NAME] "{" {item} "}" [inst {"," inst}] ";"`, with so much room for the items.
#[cycle(items)]
#[tactic(auto, unfolding(crate::specs::Grammar::definition))]
fn definition(alloc: Global, tokens: &mut Cursor<'_>, room: usize) -> Result<RdlDef, Stop>
    ensures { Reads (spec.definition (spec.items room) tokens.old) result tokens.new }
{
    let kind = kind(alloc, tokens)?;
    let name = any_name(alloc, tokens)?;
    let open = tokens.text(alloc, b"{")?;
    let items = items(alloc, tokens, room)?;
    let close = tokens.text(alloc, b"}")?;
    let (insts, semi) = ending(alloc, tokens, &name)?;
    Ok(RdlDef {
        kind,
        name,
        open,
        items,
        close,
        insts,
        semi,
    })
}

/// `def | use | "default" prop ";" | prop ";" | path "->" prop ";" | enum`
#[cycle(items)]
#[tactic(auto, unfolding(crate::specs::Grammar::item_of))]
fn item(alloc: Global, tokens: &mut Cursor<'_>, room: usize) -> Result<RdlItem, Stop>
    ensures { Reads (spec.item_of (spec.items room) tokens.old) result tokens.new }
{
    if sees_kind_word(tokens) {
        return Ok(RdlItem::Def(definition(alloc, tokens, room)?));
    }
    if tokens.sees_text(b"default") {
        return default_prop(alloc, tokens);
    }
    if tokens.sees_text(b"enum") {
        return Ok(RdlItem::Enum(enumeration(alloc, tokens)?));
    }
    named(alloc, tokens)
}

/// `{item}`, down to so many levels.
#[cycle(items)]
#[tactic(auto, using(parsing::proofs::Turns::many_ends, parsing::proofs::Turns::many_over, parsing::proofs::Turns::many_turns, parsing::proofs::Turns::many_fails), unfolding(crate::specs::Grammar::items))]
pub fn items(alloc: Global, tokens: &mut Cursor<'_>, room: usize) -> Result<Items<RdlItem>, Stop>
    ensures { Reads (spec.items room tokens.old) result tokens.new }
{
    if room == 0 {
        return Err(Stop::Sunk);
    }
    let mut found = Items::new(alloc);
    for _turn in 0..tokens.len() {
        if !sees_item(tokens) {
            return Ok(found);
        }
        found.push(item(alloc, tokens, room - 1)?)?;
    }
    Ok(found)
}

/// `{item}` and the end, down to so many levels.
#[tactic(auto, unfolding(crate::specs::Grammar::whole))]
pub fn whole(alloc: Global, tokens: &mut Cursor<'_>, room: usize) -> Result<Items<RdlItem>, Stop>
    ensures { Reads (spec.whole room tokens.old) result tokens.new }
{
    let found = items(alloc, tokens, room)?;
    tokens.finish()?;
    Ok(found)
}
