//! Which names are refused.

ghost use Rattle.std.specs.Prelude.{◌≡◌, ◌++◌, ◌∷◌, [], ◌||◌, IfOk, OnOk};
ghost use Rattle.rdl_tree.specs.declared.tree.RdlItem.{out-RdlItem};
ghost use Rattle.rdl_tree.specs.declared.tree.RdlDef.{out-RdlDef};
ghost use Rattle.rdl_text.specs.Chains.{nows};
ghost use Rattle.std.specs.Option.{option_map};
ghost use Rattle.rdl_tree.specs.Tree.{is_text, flat_kind};
ghost use Rattle.rdl_text.specs.Names as spec;
ghost use Rattle.rdl_text.specs.Properties.{row_of};

use crate::instance::{Body, kind_of, lead, used_type};
use crate::property::{Owner, row_of};
use crate::reference::reference_in;
use crate::scope::Component;
use bit_base::place::Place;
use rdl_tree::token::RdlToken;
use rdl_tree::tree::{
    RdlDef, RdlInst, RdlInsts, RdlItem, RdlKind, RdlNextInst, RdlPath, RdlProp, RdlUse,
};
use std::alloc::{AllocError, Global};
use std::vec::Vec;

/// Notes the place where the test holds.
pub fn note_if(out: &mut Vec<Place>, test: bool, place: Place) -> Result<(), AllocError>
    ensures { OnOk result (out.new.items ≡ out.old.items ++ spec.place_if test place) }
{
    if test {
        out.push(place)?;
    }
    Ok(())
}

// Whether the item defines the name.
fn defines(name: &[u8], item: &RdlItem) -> bool
    ensures { result ≡ spec.defines name.now (out-RdlItem item.now) }
{
    match item {
        RdlItem::Def(definition) => match &definition.name {
            Some(token) => token.is_text(name),
            None => false,
        },
        RdlItem::Enum(values) => values.name.is_text(name),
        _ => false,
    }
}

// Whether one of the items defines the name.
fn is_defined(before: &[RdlItem], name: &[u8]) -> bool
    ensures { result ≡ spec.is_defined before.now name.now }
{
    before.iter().any(|item| defines(name, item))
}

fn is_defined_again(before: &[RdlItem], name: &Option<RdlToken>) -> bool
    ensures { result ≡ spec.is_defined_again before.now name.now }
{
    match name {
        None => false,
        Some(token) => is_defined(before, token.text.as_bytes()),
    }
}

// Whether one of the instances has the name.
fn is_among(name: &[u8], insts: &[RdlNextInst]) -> bool
    ensures { result ≡ spec.is_among name.now insts.now }
{
    insts.iter().any(|next| next.inst.name.is_text(name))
}

fn has_inst(name: &[u8], insts: &RdlInsts) -> bool
    ensures { result ≡ spec.has_inst name.now insts.now }
{
    insts.first.name.is_text(name) || is_among(name, insts.more.as_slice())
}

// Whether the item instantiates the name.
fn instantiates(name: &[u8], item: &RdlItem) -> bool
    ensures { result ≡ spec.instantiates name.now (out-RdlItem item.now) }
{
    match item {
        RdlItem::Def(definition) => match &definition.insts {
            Some(insts) => has_inst(name, insts),
            None => false,
        },
        RdlItem::Use(uses) => has_inst(name, &uses.insts),
        _ => false,
    }
}

// Whether one of the items instantiates the name.
fn is_instantiated(before: &[RdlItem], name: &[u8]) -> bool
    ensures { result ≡ spec.is_instantiated before.now name.now }
{
    before.iter().any(|item| instantiates(name, item))
}

// Whether an instance before it has the name of this one.
fn is_repeated(before: &[RdlItem], first: &RdlInst, seen: &[RdlNextInst], name: &[u8]) -> bool
    ensures { result ≡ (spec.is_instantiated before.now name.now || is_text name.now first.now.name || spec.is_among name.now seen.now) }
{
    is_instantiated(before, name) || first.name.is_text(name) || is_among(name, seen)
}

// Notes the instances behind the first whose name one before them has.
fn note_repeated_next(
    out: &mut Vec<Place>,
    before: &[RdlItem],
    first: &RdlInst,
    insts: &[RdlNextInst],
) -> Result<(), AllocError>
    ensures { OnOk result (out.new.items ≡ out.old.items ++ spec.repeated_next before.now first.now [] insts.now) }
{
    for at in 0..insts.len() {
        let name = &insts[at].inst.name;
        let test = is_repeated(before, first, &insts[..at], name.text.as_bytes());
        note_if(out, test, name.place)?;
    }
    Ok(())
}

// Notes the instances whose name one before them has.
fn note_repeated(
    out: &mut Vec<Place>,
    before: &[RdlItem],
    insts: &RdlInsts,
) -> Result<(), AllocError>
    ensures { OnOk result (out.new.items ≡ out.old.items ++ spec.repeated before.now insts.now) }
{
    let first = &insts.first;
    let test = is_instantiated(before, first.name.text.as_bytes());
    note_if(out, test, first.name.place)?;
    note_repeated_next(out, before, first, insts.more.as_slice())
}

fn note_repeated_any(
    out: &mut Vec<Place>,
    before: &[RdlItem],
    insts: &Option<RdlInsts>,
) -> Result<(), AllocError>
    ensures { OnOk result (out.new.items ≡ out.old.items ++ spec.repeated_any before.now insts.now) }
{
    match insts {
        None => Ok(()),
        Some(insts) => note_repeated(out, before, insts),
    }
}

fn is_file(kind: Body) -> bool
    ensures { result ≡ spec.is_file kind }
{
    matches!(kind, Body::File)
}

// Whether the body can't hold the type's instances, or there is no such type.
fn is_misused(kind: Body, component: &Option<Component<'_>>) -> bool
    ensures { result ≡ spec.is_misused kind component.now }
{
    match component {
        None => true,
        Some(component) => !kind.holds(kind_of(component)),
    }
}

/// Whether components of this kind have the property.
pub fn owns(owner: Owner, kind: Body) -> bool
    ensures { result ≡ spec.owns owner kind }
{
    match owner {
        Owner::All => true,
        Owner::Addrmap => matches!(kind, Body::Addrmap),
        Owner::Reg => matches!(kind, Body::Reg),
        Owner::Field => matches!(kind, Body::Field),
    }
}

fn is_of_field(component: &Option<Component<'_>>) -> bool
    ensures { result ≡ spec.is_of_field component.now }
{
    match component {
        None => false,
        Some(component) => kind_of(component).is_field(),
    }
}

// Whether the reference, where there is one, leads to no field.
fn is_lost<'a>(
    alloc: Global,
    outer: &[&'a [RdlItem]],
    items: &'a [RdlItem],
    path: Option<&RdlPath>,
) -> Result<bool, AllocError>
    ensures { IfOk result (λ b. b ≡ spec.is_lost (nows outer.now) items.now (option_map (λ p. p.now) path.entry)) }
{
    match path {
        None => Ok(false),
        Some(path) => {
            let component = lead(alloc, outer, items, path)?;
            Ok(!is_of_field(&component))
        }
    }
}

// Whether components of this kind don't have the property, or its reference leads to no field.
fn is_misassigned<'a>(
    alloc: Global,
    outer: &[&'a [RdlItem]],
    items: &'a [RdlItem],
    prop: &RdlProp,
    kind: Body,
) -> Result<bool, AllocError>
    ensures { IfOk result (λ b. b ≡ spec.is_misassigned (nows outer.now) items.now prop.now kind (row_of prop.now.name.text)) }
{
    match row_of(prop.name.text.as_bytes()) {
        None => Ok(false),
        Some(row) => {
            let lost = is_lost(alloc, outer, items, reference_in(row.form, &prop.value))?;
            Ok(!owns(row.owner, kind) || lost)
        }
    }
}

// Whether the assignment's path leads nowhere or to the wrong kind of thing.
fn is_misled<'a>(
    alloc: Global,
    outer: &[&'a [RdlItem]],
    items: &'a [RdlItem],
    path: &RdlPath,
    prop: &RdlProp,
) -> Result<bool, AllocError>
    ensures { IfOk result (λ b. b ≡ spec.is_misled (nows outer.now) items.now path.now prop.now) }
{
    match lead(alloc, outer, items, path)? {
        None => Ok(true),
        Some(component) => is_misassigned(alloc, outer, items, prop, kind_of(&component)),
    }
}

// The place of the word that names a kind.
fn place_of(kind: &RdlKind) -> Place
    ensures { result ≡ (flat_kind kind.now).place }
{
    match kind {
        RdlKind::Addrmap(word) => word.place,
        RdlKind::Regfile(word) => word.place,
        RdlKind::Reg(word) => word.place,
        RdlKind::Field(word) => word.place,
    }
}

// Whether the definition's instances stand in a body that can't hold them.
fn is_out_of_place(kind: Body, definition: &RdlDef) -> bool
    ensures { result ≡ spec.is_out_of_place kind (out-RdlDef definition.now) }
{
    definition.insts.is_some() && !kind.holds(Body::of(&definition.kind))
}

fn note_def(
    out: &mut Vec<Place>,
    kind: Body,
    before: &[RdlItem],
    definition: &RdlDef,
) -> Result<(), AllocError>
    ensures { OnOk result (out.new.items ≡ out.old.items ++ spec.misnamed_def kind before.now (out-RdlDef definition.now)) }
{
    let test = is_defined_again(before, &definition.name) || is_out_of_place(kind, definition);
    note_if(out, test, place_of(&definition.kind))?;
    note_repeated_any(out, before, &definition.insts)
}

fn note_use<'a>(
    alloc: Global,
    out: &mut Vec<Place>,
    outer: &[&'a [RdlItem]],
    kind: Body,
    before: &'a [RdlItem],
    uses: &RdlUse,
) -> Result<(), AllocError>
    ensures { OnOk result (out.new.items ≡ out.old.items ++ spec.misnamed_use (nows outer.now) kind before.now uses.now) }
{
    let component = used_type(alloc, outer, before, uses.name.text.as_bytes())?;
    let test = is_misused(kind, &component);
    note_if(out, test, uses.name.place)?;
    note_repeated(out, before, &uses.insts)
}

fn note_dynamic<'a>(
    alloc: Global,
    out: &mut Vec<Place>,
    outer: &[&'a [RdlItem]],
    kind: Body,
    items: &'a [RdlItem],
    path: &RdlPath,
    prop: &RdlProp,
) -> Result<(), AllocError>
    ensures { OnOk result (out.new.items ≡ out.old.items ++ spec.place_if (spec.is_file kind || spec.is_misled (nows outer.now) items.now path.now prop.now) path.now.first.name.place) }
{
    let misled = is_misled(alloc, outer, items, path, prop)?;
    note_if(out, is_file(kind) || misled, path.first.name.place)
}

/// Notes the refusals of one item of a body, with these before it.
pub fn note_misnamed<'a>(
    alloc: Global,
    out: &mut Vec<Place>,
    outer: &[&'a [RdlItem]],
    kind: Body,
    items: &'a [RdlItem],
    before: &'a [RdlItem],
    item: &'a RdlItem,
) -> Result<(), AllocError>
    ensures { OnOk result (out.new.items ≡ out.old.items ++ spec.misnamed_by (nows outer.now) kind items.now before.now (out-RdlItem item.now)) }
{
    match item {
        RdlItem::Def(definition) => note_def(out, kind, before, definition),
        RdlItem::Use(uses) => note_use(alloc, out, outer, kind, before, uses),
        RdlItem::Enum(values) => note_if(
            out,
            is_defined(before, values.name.text.as_bytes()),
            values.word.place,
        ),
        RdlItem::Prop(prop, _) => note_if(out, is_file(kind), prop.name.place),
        RdlItem::Dynamic(path, _, prop, _) => {
            note_dynamic(alloc, out, outer, kind, items, path, prop)
        }
        RdlItem::Default(..) => Ok(()),
    }
}

/// Whether the item can be the description's top: an address map with a name.
pub fn can_be_top(item: &RdlItem) -> bool
    ensures { result ≡ spec.can_be_top (out-RdlItem item.now) }
{
    match item {
        RdlItem::Def(definition) => {
            definition.name.is_some() && matches!(definition.kind, RdlKind::Addrmap(_))
        }
        _ => false,
    }
}

/// Whether one of the items can be the description's top.
pub fn has_top(items: &[RdlItem]) -> bool
    ensures { result ≡ spec.has_top items.now }
{
    items.iter().any(|item| can_be_top(item))
}
