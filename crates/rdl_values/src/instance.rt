//! The instances of a component's body.

ghost use Rattle.std.specs.Prelude.{◌≡◌, ◌++◌, ◌∷◌, [], IfOk, OnOk};
ghost use Rattle.rdl_tree.specs.declared.tree.RdlItem.{out-RdlItem};
ghost use Rattle.rdl_tree.specs.declared.tree.RdlItem.TheOpen.{RdlItem-F};
ghost use Rattle.rdl_text.specs.Chains.{nows};
ghost use Rattle.rdl_text.specs.Lists.{or_else};
ghost use Rattle.rdl_text.specs.Types.{type_of};
ghost use Rattle.rdl_values.specs.Instances as spec;

use rdl_text::instance::{kind_of, used_type};
use rdl_text::names::can_be_top;
use rdl_text::scope::{Component, component_of};
use rdl_tree::tree::{RdlDef, RdlFile, RdlInst, RdlInsts, RdlItem, RdlNextInst, RdlRange};
use std::alloc::{AllocError, Global};
use std::marker::Model;
use std::vec::Vec;

/// An instance, with the component that it has.
#[derive(Drop)]
pub struct Instance<'a> {
    pub inst: &'a RdlInst,
    pub component: Component<'a>,
}

impl<'a> Model for Instance<'a> {
    ghost use Rattle.std.specs.Coded.{codes};
    ghost use Rattle.rdl_tree.specs.contracts.tree.RdlItem as e;
    ghost use Rattle.rdl_tree.specs.contracts.tree.RdlDef as d;
    ghost use Rattle.rdl_values.specs.OneInstance.{Instance};

    ghost Value = { Instance };

    ghost view = { λ i. record { inst = i.inst.now; component = i.component } };

    ghost coded = { Prim.hlevel (codes, e.the_row.coded, d.the_row.coded) };
}

// The same component again.
fn copy_of<'a>(alloc: Global, component: &Component<'a>) -> Result<Component<'a>, AllocError>
    ensures { IfOk result (λ c. c ≡ component.now) }
{
    let chain = component.chain.as_slice().to_vec(alloc)?;
    Ok(Component {
        definition: component.definition,
        chain,
    })
}

// The instance with the component.
fn with<'a>(
    alloc: Global,
    component: &Component<'a>,
    inst: &'a RdlInst,
) -> Result<Instance<'a>, AllocError>
    ensures { IfOk result (λ i. i ≡ record { inst = inst.now; component = component.now }) }
{
    let component = copy_of(alloc, component)?;
    Ok(Instance { inst, component })
}

// Notes the instances that stand behind the first of a list.
fn note_next<'a>(
    alloc: Global,
    out: &mut Vec<Instance<'a>>,
    component: &Component<'a>,
    insts: &'a [RdlNextInst],
) -> Result<(), AllocError>
    ensures { OnOk result (out.new.items ≡ out.old.items ++ spec.next_with component.now insts.now) }
{
    for next in insts {
        out.push(with(alloc, component, &next.inst)?)?;
    }
    Ok(())
}

// Notes the instances of a list.
fn note_all<'a>(
    alloc: Global,
    out: &mut Vec<Instance<'a>>,
    component: &Component<'a>,
    insts: &'a RdlInsts,
) -> Result<(), AllocError>
    ensures { OnOk result (out.new.items ≡ out.old.items ++ spec.all_with component.now insts.now) }
{
    out.push(with(alloc, component, &insts.first)?)?;
    note_next(alloc, out, component, insts.more.as_slice())
}

// Notes the instances of a definition, with these items before it in its body.
fn note_defined<'a>(
    alloc: Global,
    out: &mut Vec<Instance<'a>>,
    outer: &[&'a [RdlItem]],
    before: &'a [RdlItem],
    definition: &'a RdlDef,
) -> Result<(), AllocError>
    ensures { OnOk result (out.new.items ≡ out.old.items ++ spec.instances_by (nows outer.now) before.now (RdlItem-F.Def definition.now)) }
{
    match &definition.insts {
        None => Ok(()),
        Some(insts) => {
            let component = component_of(alloc, outer, before, definition)?;
            note_all(alloc, out, &component, insts)
        }
    }
}

// Notes the instances of a use, with these items before it in its body.
fn note_used<'a>(
    alloc: Global,
    out: &mut Vec<Instance<'a>>,
    outer: &[&'a [RdlItem]],
    before: &'a [RdlItem],
    name: &[u8],
    insts: &'a RdlInsts,
) -> Result<(), AllocError>
    ensures { OnOk result (out.new.items ≡ out.old.items ++ spec.used_with (type_of (nows outer.now ++ before.now ∷ []) name.now) insts.now) }
{
    match used_type(alloc, outer, before, name)? {
        None => Ok(()),
        Some(component) => note_all(alloc, out, &component, insts),
    }
}

// Notes the instances of one item, with these before it in its body.
fn note_item<'a>(
    alloc: Global,
    out: &mut Vec<Instance<'a>>,
    outer: &[&'a [RdlItem]],
    before: &'a [RdlItem],
    item: &'a RdlItem,
) -> Result<(), AllocError>
    ensures { OnOk result (out.new.items ≡ out.old.items ++ spec.instances_by (nows outer.now) before.now (out-RdlItem item.now)) }
{
    match item {
        RdlItem::Def(definition) => note_defined(alloc, out, outer, before, definition),
        RdlItem::Use(uses) => note_used(
            alloc,
            out,
            outer,
            before,
            uses.name.text.as_bytes(),
            &uses.insts,
        ),
        _ => Ok(()),
    }
}

// The instances of these items of a body.
fn instances_in<'a>(
    alloc: Global,
    outer: &[&'a [RdlItem]],
    items: &'a [RdlItem],
) -> Result<Vec<Instance<'a>>, AllocError>
    ensures { IfOk result (λ is. is.items ≡ spec.instances_from (nows outer.now) [] items.now) }
{
    let mut out = Vec::new(alloc);
    for at in 0..items.len() {
        note_item(alloc, &mut out, outer, &items[..at], &items[at])?;
    }
    Ok(out)
}

/// The instances of a component's body, in the order of the text.
pub fn instances_of<'a>(
    alloc: Global,
    component: &Component<'a>,
) -> Result<Vec<Instance<'a>>, AllocError>
    ensures { IfOk result (λ is. is.items ≡ spec.instances_of component.now) }
{
    let definition = component.definition;
    instances_in(
        alloc,
        component.chain.as_slice(),
        definition.items.as_slice(),
    )
}

fn elements_in(range: &Option<RdlRange>) -> u64
    ensures { result ≡ spec.elements_in range.now }
{
    match range {
        None => 1,
        Some(range) => range.first.value,
    }
}

/// The number of elements of an array, 1 of anything else.
pub fn count_of(instance: &Instance<'_>) -> u64
    ensures { result ≡ spec.count_of instance.now }
{
    if kind_of(&instance.component).is_field() {
        1
    } else {
        elements_in(&instance.inst.range)
    }
}

// The component of an item with these before it, where it can be the top.
fn top_by<'a>(
    alloc: Global,
    before: &'a [RdlItem],
    item: &'a RdlItem,
) -> Result<Option<Component<'a>>, AllocError>
    ensures { IfOk result (λ c. c ≡ spec.top_by before.now (out-RdlItem item.now)) }
{
    match item {
        RdlItem::Def(definition) => {
            if can_be_top(item) {
                Ok(Some(component_of(alloc, &[], before, definition)?))
            } else {
                Ok(None)
            }
        }
        _ => Ok(None),
    }
}

fn or_else<'a>(first: Option<Component<'a>>, other: Option<Component<'a>>) -> Option<Component<'a>>
    ensures { result ≡ or_else first.entry other.entry }
{
    match first {
        None => other,
        Some(component) => Some(component),
    }
}

fn top_in<'a>(alloc: Global, items: &'a [RdlItem]) -> Result<Option<Component<'a>>, AllocError>
    ensures { IfOk result (λ c. c ≡ spec.top_from [] items.now) }
{
    let mut found = None;
    for at in 0..items.len() {
        let here = top_by(alloc, &items[..at], &items[at])?;
        found = or_else(here, found);
    }
    Ok(found)
}

/// The top of a description: the last address map with a name that is defined in the description
/// itself.
pub fn top_of<'a>(alloc: Global, file: &'a RdlFile) -> Result<Option<Component<'a>>, AllocError>
    ensures { IfOk result (λ c. c ≡ spec.top_of file.now) }
{
    top_in(alloc, file.items.as_slice())
}
