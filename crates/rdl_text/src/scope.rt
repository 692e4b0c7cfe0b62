//! Names of types and of enumerations, and what they mean.

ghost use Rattle.std.specs.Prelude.{◌≡◌, ◌++◌, ◌∷◌, [], IfOk};
ghost use Rattle.rdl_tree.specs.declared.tree.RdlItem.{out-RdlItem};
ghost use Rattle.rdl_text.specs.Chains.{nows};
ghost use Rattle.rdl_text.specs.Lists.{or_else};
ghost use Rattle.rdl_text.specs.Types.{is_named, named_by, named_in, meaning_of, type_of};

use rdl_tree::token::RdlToken;
use rdl_tree::tree::{RdlDef, RdlItem};
use std::alloc::{AllocError, Global};
use std::marker::Model;
use std::vec::Vec;

/// A definition, with what stands before it in the text: for each body around it, outermost first,
/// the items before it.
#[derive(Drop)]
pub struct Component<'a> {
    pub definition: &'a RdlDef,
    pub chain: Vec<&'a [RdlItem]>,
}

impl<'a> Model for Component<'a> {
    ghost use Rattle.std.specs.Prelude.{map};
    ghost use Rattle.std.specs.Coded.{codes};
    ghost use Rattle.rdl_tree.specs.contracts.tree.RdlItem as e;
    ghost use Rattle.rdl_tree.specs.contracts.tree.RdlDef as d;
    ghost use Rattle.rdl_text.specs.Components.{Component};

    ghost Value = { Component };

    ghost view = { λ c. record { definition = c.definition.now; chain = map (λ b. b.now) c.chain.items } };

    ghost coded = { Prim.hlevel (codes, e.the_row.coded, d.the_row.coded) };
}

/// What a name means.
#[derive(Drop)]
pub enum Meaning<'a> {
    /// A type: the component that its instances have.
    Type(Component<'a>),
    /// An enumeration.
    Values,
}

fn is_named(name: &[u8], token: &Option<RdlToken>) -> bool
    ensures { result ≡ is_named name.now token.now }
{
    match token {
        Some(token) => token.is_text(name),
        None => false,
    }
}

/// The chain of what stands behind these items of a body.
pub fn chain_of<'a>(
    alloc: Global,
    outer: &[&'a [RdlItem]],
    before: &'a [RdlItem],
) -> Result<Vec<&'a [RdlItem]>, AllocError>
    ensures { IfOk result (λ chain. nows chain.items ≡ nows outer.now ++ before.now ∷ []) }
{
    let mut chain = outer.to_vec(alloc)?;
    chain.push(before)?;
    Ok(chain)
}

/// The component of a definition with these items before it in its body.
pub fn component_of<'a>(
    alloc: Global,
    outer: &[&'a [RdlItem]],
    before: &'a [RdlItem],
    definition: &'a RdlDef,
) -> Result<Component<'a>, AllocError>
    ensures { IfOk result (λ c. c ≡ record { definition = definition.now; chain = nows outer.now ++ before.now ∷ [] }) }
{
    let chain = chain_of(alloc, outer, before)?;
    Ok(Component { definition, chain })
}

// What one item, with these before it in its body, makes the name mean.
fn named_by<'a>(
    alloc: Global,
    outer: &[&'a [RdlItem]],
    before: &'a [RdlItem],
    name: &[u8],
    item: &'a RdlItem,
) -> Result<Option<Meaning<'a>>, AllocError>
    ensures { IfOk result (λ m. m ≡ named_by (nows outer.now) before.now name.now (out-RdlItem item.now)) }
{
    match item {
        RdlItem::Def(definition) => {
            if is_named(name, &definition.name) {
                Ok(Some(Meaning::Type(component_of(alloc, outer, before, definition)?)))
            } else {
                Ok(None)
            }
        }
        RdlItem::Enum(values) => {
            if values.name.is_text(name) {
                Ok(Some(Meaning::Values))
            } else {
                Ok(None)
            }
        }
        _ => Ok(None),
    }
}

// What the latest of these items of a body that does makes the name mean.
fn named_in<'a>(
    alloc: Global,
    outer: &[&'a [RdlItem]],
    name: &[u8],
    items: &'a [RdlItem],
) -> Result<Option<Meaning<'a>>, AllocError>
    ensures { IfOk result (λ m. m ≡ named_in (nows outer.now) [] name.now items.now) }
{
    let mut found = None;
    for at in 0..items.len() {
        let here = named_by(alloc, outer, &items[..at], name, &items[at])?;
        found = or_else(here, found);
    }
    Ok(found)
}

fn or_else<'a>(first: Option<Meaning<'a>>, other: Option<Meaning<'a>>) -> Option<Meaning<'a>>
    ensures { result ≡ or_else first.entry other.entry }
{
    match first {
        None => other,
        Some(meaning) => Some(meaning),
    }
}

/// What the name means where this stands before it.
pub fn meaning_of<'a>(
    alloc: Global,
    chain: &[&'a [RdlItem]],
    name: &[u8],
) -> Result<Option<Meaning<'a>>, AllocError>
    ensures { IfOk result (λ m. m ≡ meaning_of (nows chain.now) name.now) }
{
    let mut found = None;
    for at in 0..chain.len() {
        let here = named_in(alloc, &chain[..at], name, chain[at])?;
        found = or_else(here, found);
    }
    Ok(found)
}

/// The component of a type's name, where that is a type.
pub fn type_of<'a>(
    alloc: Global,
    chain: &[&'a [RdlItem]],
    name: &[u8],
) -> Result<Option<Component<'a>>, AllocError>
    ensures { IfOk result (λ c. c ≡ type_of (nows chain.now) name.now) }
{
    match meaning_of(alloc, chain, name)? {
        Some(Meaning::Type(component)) => Ok(Some(component)),
        Some(Meaning::Values) => Ok(None),
        None => Ok(None),
    }
}
