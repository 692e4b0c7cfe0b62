//! Which assignments are refused.

ghost use Rattle.std.specs.Prelude.{◌≡◌, length, ◌++◌, ◌∷◌, [], IfOk, OnOk};
ghost use Rattle.rdl_tree.specs.declared.tree.RdlItem.{out-RdlItem};
ghost use Rattle.rdl_tree.specs.declared.tree.RdlDef.{out-RdlDef};
ghost use Rattle.rdl_text.specs.Chains.{nows};
ghost use Rattle.rdl_text.specs.Types.{type_of};
ghost use Rattle.rdl_text.specs.Instances.{body_of};
ghost use Rattle.rdl_text.specs.Assignments as spec;

use crate::instance::{Body, kind_of, used_type};
use crate::names::{note_if, owns};
use crate::property::{Property, Row, row_of};
use crate::scope::Component;
use bit_base::place::Place;
use rdl_tree::tree::{
    RdlDef, RdlEntry, RdlEntryBody, RdlEntryProp, RdlIndex, RdlInsts, RdlItem, RdlMarked,
    RdlNextInst, RdlNextStep, RdlPath, RdlProp, RdlStep, RdlUse,
};
use std::alloc::{AllocError, Global};
use std::vec::Vec;

/// Whether the property is assigned by this name.
pub fn is_property(property: Property, prop: &RdlProp) -> bool
    ensures { result ≡ spec.is_property property prop.now }
{
    match row_of(prop.name.text.as_bytes()) {
        None => false,
        Some(row) => row.property == property,
    }
}

fn assigns(property: Property, item: &RdlItem) -> bool
    ensures { result ≡ spec.assigns property (out-RdlItem item.now) }
{
    match item {
        RdlItem::Prop(prop, _) => is_property(property, prop),
        _ => false,
    }
}

// Whether one of the items assigns the property.
fn is_assigned(items: &[RdlItem], property: Property) -> bool
    ensures { result ≡ spec.is_assigned items.now property }
{
    items.iter().any(|item| assigns(property, item))
}

fn defaults(property: Property, item: &RdlItem) -> bool
    ensures { result ≡ spec.defaults property (out-RdlItem item.now) }
{
    match item {
        RdlItem::Default(_, prop, _) => is_property(property, prop),
        _ => false,
    }
}

// Whether one of the items gives the property a default.
fn is_defaulted(items: &[RdlItem], property: Property) -> bool
    ensures { result ≡ spec.is_defaulted items.now property }
{
    items.iter().any(|item| defaults(property, item))
}

fn is_same_index(a: &Option<RdlIndex>, b: &Option<RdlIndex>) -> bool
    ensures { result ≡ spec.is_same_index a.now b.now }
{
    match (a, b) {
        (None, None) => true,
        (Some(a), Some(b)) => a.number.value == b.number.value,
        _ => false,
    }
}

fn is_same_step(a: &RdlStep, b: &RdlStep) -> bool
    ensures { result ≡ spec.is_same_step a.now b.now }
{
    a.name.text == b.name.text && is_same_index(&a.index, &b.index)
}

// Whether as many steps are the same, one by one.
fn are_equal_steps(a: &[RdlNextStep], b: &[RdlNextStep]) -> bool
    requires { length a.now ≡ length b.now }
    ensures { result ≡ spec.are_same_steps a.now b.now }
{
    for at in 0..a.len() {
        if !is_same_step(&a[at].step, &b[at].step) {
            return false;
        }
    }
    true
}

#[tactic(auto, using(crate::proofs::Steps::unlike))]
fn are_same_steps(a: &[RdlNextStep], b: &[RdlNextStep]) -> bool
    ensures { result ≡ spec.are_same_steps a.now b.now }
{
    if a.len() == b.len() {
        are_equal_steps(a, b)
    } else {
        false
    }
}

fn is_same_path(a: &RdlPath, b: &RdlPath) -> bool
    ensures { result ≡ spec.is_same_path a.now b.now }
{
    is_same_step(&a.first, &b.first) && are_same_steps(a.more.as_slice(), b.more.as_slice())
}

fn targets(path: &RdlPath, property: Property, item: &RdlItem) -> bool
    ensures { result ≡ spec.targets path.now property (out-RdlItem item.now) }
{
    match item {
        RdlItem::Dynamic(other, _, prop, _) => {
            is_same_path(path, other) && is_property(property, prop)
        }
        _ => false,
    }
}

// Whether one of the items assigns the property to the path.
fn is_targeted(items: &[RdlItem], path: &RdlPath, property: Property) -> bool
    ensures { result ≡ spec.is_targeted items.now path.now property }
{
    items.iter().any(|item| targets(path, property, item))
}

// Whether components of this kind don't have the property, or an assignment of it stands before.
fn is_misassigned_here(kind: Body, before: &[RdlItem], row: Option<Row>) -> bool
    ensures { result ≡ spec.is_misassigned_here kind before.now row }
{
    match row {
        None => true,
        Some(row) => !owns(row.owner, kind) || is_assigned(before, row.property),
    }
}

fn is_misdefaulted(before: &[RdlItem], row: Option<Row>) -> bool
    ensures { result ≡ spec.is_misdefaulted before.now row }
{
    match row {
        None => true,
        Some(row) => is_defaulted(before, row.property),
    }
}

fn is_mistargeted(before: &[RdlItem], path: &RdlPath, row: Option<Row>) -> bool
    ensures { result ≡ spec.is_mistargeted before.now path.now row }
{
    match row {
        None => true,
        Some(row) => is_targeted(before, path, row.property),
    }
}

/// Whether entries of an enumeration have the property.
pub fn is_label(property: Property) -> bool
    ensures { result ≡ spec.is_label property }
{
    matches!(property, Property::Name | Property::Desc)
}

fn is_among_props(property: Property, props: &[RdlEntryProp]) -> bool
    ensures { result ≡ spec.is_among_props property props.now }
{
    props.iter().any(|entry| is_property(property, &entry.prop))
}

// Whether entries don't have the property, or an assignment of it stands before.
fn is_mislabelled(seen: &[RdlEntryProp], row: Option<Row>) -> bool
    ensures { result ≡ spec.is_mislabelled seen.now row }
{
    match row {
        None => true,
        Some(row) => !is_label(row.property) || is_among_props(row.property, seen),
    }
}

fn note_mislabelled_props(out: &mut Vec<Place>, props: &[RdlEntryProp]) -> Result<(), AllocError>
    ensures { OnOk result (out.new.items ≡ out.old.items ++ spec.mislabelled_props [] props.now) }
{
    for at in 0..props.len() {
        let name = &props[at].prop.name;
        let test = is_mislabelled(&props[..at], row_of(name.text.as_bytes()));
        note_if(out, test, name.place)?;
    }
    Ok(())
}

fn note_mislabelled_body(
    out: &mut Vec<Place>,
    body: &Option<RdlEntryBody>,
) -> Result<(), AllocError>
    ensures { OnOk result (out.new.items ≡ out.old.items ++ spec.mislabelled_body body.now) }
{
    match body {
        None => Ok(()),
        Some(body) => note_mislabelled_props(out, body.props.as_slice()),
    }
}

// Notes the wrong properties of the entries of an enumeration.
fn note_mislabelled(out: &mut Vec<Place>, entries: &[RdlEntry]) -> Result<(), AllocError>
    ensures { OnOk result (out.new.items ≡ out.old.items ++ spec.mislabelled entries.now) }
{
    for entry in entries {
        note_mislabelled_body(out, &entry.body)?;
    }
    Ok(())
}

fn note_misreset(
    out: &mut Vec<Place>,
    wrong: bool,
    reset: &Option<RdlMarked>,
) -> Result<(), AllocError>
    ensures { OnOk result (out.new.items ≡ out.old.items ++ spec.misreset wrong reset.now) }
{
    match reset {
        None => Ok(()),
        Some(reset) => note_if(out, wrong, reset.mark.place),
    }
}

fn note_misreset_next(
    out: &mut Vec<Place>,
    wrong: bool,
    insts: &[RdlNextInst],
) -> Result<(), AllocError>
    ensures { OnOk result (out.new.items ≡ out.old.items ++ spec.misreset_next wrong insts.now) }
{
    for next in insts {
        note_misreset(out, wrong, &next.inst.reset)?;
    }
    Ok(())
}

fn note_misreset_all(out: &mut Vec<Place>, wrong: bool, insts: &RdlInsts) -> Result<(), AllocError>
    ensures { OnOk result (out.new.items ≡ out.old.items ++ spec.misreset_all wrong insts.now) }
{
    note_misreset(out, wrong, &insts.first.reset)?;
    note_misreset_next(out, wrong, insts.more.as_slice())
}

// Whether an instance can't give the component its reset.
fn takes_no_reset(kind: Body, items: &[RdlItem]) -> bool
    ensures { result ≡ spec.takes_no_reset kind items.now }
{
    !kind.is_field() || is_assigned(items, Property::Reset)
}

fn note_misreset_of(out: &mut Vec<Place>, definition: &RdlDef) -> Result<(), AllocError>
    ensures { OnOk result (out.new.items ≡ out.old.items ++ spec.misreset_of (body_of (out-RdlDef definition.now).kind) (out-RdlDef definition.now).items (out-RdlDef definition.now).insts) }
{
    match &definition.insts {
        None => Ok(()),
        Some(insts) => {
            let wrong = takes_no_reset(Body::of(&definition.kind), definition.items.as_slice());
            note_misreset_all(out, wrong, insts)
        }
    }
}

fn note_misreset_use(
    out: &mut Vec<Place>,
    insts: &RdlInsts,
    component: &Option<Component<'_>>,
) -> Result<(), AllocError>
    ensures { OnOk result (out.new.items ≡ out.old.items ++ spec.misreset_use insts.now component.now) }
{
    match component {
        None => Ok(()),
        Some(component) => {
            let items = component.definition.items.as_slice();
            let wrong = takes_no_reset(kind_of(component), items);
            note_misreset_all(out, wrong, insts)
        }
    }
}

fn note_misused<'a>(
    alloc: Global,
    out: &mut Vec<Place>,
    outer: &[&'a [RdlItem]],
    before: &'a [RdlItem],
    uses: &RdlUse,
) -> Result<(), AllocError>
    ensures { OnOk result (out.new.items ≡ out.old.items ++ spec.misreset_use uses.now.insts (type_of (nows outer.now ++ before.now ∷ []) uses.now.name.text)) }
{
    let component = used_type(alloc, outer, before, uses.name.text.as_bytes())?;
    note_misreset_use(out, &uses.insts, &component)
}

/// Notes the refusals of the assignments of one item of a body, with these before it.
pub fn note_misassigned<'a>(
    alloc: Global,
    out: &mut Vec<Place>,
    outer: &[&'a [RdlItem]],
    kind: Body,
    before: &'a [RdlItem],
    item: &'a RdlItem,
) -> Result<(), AllocError>
    ensures { OnOk result (out.new.items ≡ out.old.items ++ spec.misassigned_by (nows outer.now) kind before.now (out-RdlItem item.now)) }
{
    match item {
        RdlItem::Def(definition) => note_misreset_of(out, definition),
        RdlItem::Use(uses) => note_misused(alloc, out, outer, before, uses),
        RdlItem::Default(word, prop, _) => {
            let row = row_of(prop.name.text.as_bytes());
            note_if(out, is_misdefaulted(before, row), word.place)
        }
        RdlItem::Prop(prop, _) => {
            let row = row_of(prop.name.text.as_bytes());
            note_if(out, is_misassigned_here(kind, before, row), prop.name.place)
        }
        RdlItem::Dynamic(path, _, prop, _) => {
            let row = row_of(prop.name.text.as_bytes());
            note_if(
                out,
                is_mistargeted(before, path, row),
                path.first.name.place,
            )
        }
        RdlItem::Enum(values) => note_mislabelled(out, values.entries.as_slice()),
    }
}
