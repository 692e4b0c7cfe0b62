//! Instances, and the paths that lead to them.

ghost use Rattle.std.specs.Prelude.{◌≡◌, ◌++◌, ◌∷◌, [], Some, IfOk};
ghost use Rattle.std.specs.Option.{option_map};
ghost use Rattle.rdl_tree.specs.declared.tree.RdlItem.{out-RdlItem};
ghost use Rattle.rdl_text.specs.Chains.{nows};
ghost use Rattle.rdl_text.specs.Instances.{body_of, kind_of, is_field, holds, inst_in, inst_of, next_inst, names_element, entered, entered_by, step_from, step_on, lead};
ghost use Rattle.rdl_text.specs.Types.{type_of};

use crate::scope::{Component, chain_of, component_of, type_of};
use rdl_tree::tree::{
    RdlIndex, RdlInst, RdlInsts, RdlItem, RdlKind, RdlNextInst, RdlPath, RdlRange, RdlStep,
};
use std::alloc::{AllocError, Global};

/// What a body is of: a component of some kind, or the description itself.
#[derive(Clone, Copy, Debug, PartialEq, Eq, Drop)]
pub enum Body {
    File,
    Addrmap,
    Regfile,
    Reg,
    Field,
}

impl Body {
    /// The body of a component of this kind.
    pub fn of(kind: &RdlKind) -> Body
        ensures { result ≡ body_of kind.now }
    {
        match kind {
            RdlKind::Addrmap(_) => Body::Addrmap,
            RdlKind::Regfile(_) => Body::Regfile,
            RdlKind::Reg(_) => Body::Reg,
            RdlKind::Field(_) => Body::Field,
        }
    }

    pub fn is_field(self) -> bool
        ensures { result ≡ is_field self }
    {
        matches!(self, Body::Field)
    }

    /// Whether instances of the other kind may stand in it.
    pub fn holds(self, other: Body) -> bool
        ensures { result ≡ holds self other }
    {
        match self {
            Body::Addrmap => matches!(other, Body::Addrmap | Body::Regfile | Body::Reg),
            Body::Regfile => matches!(other, Body::Regfile | Body::Reg),
            Body::Reg => matches!(other, Body::Field),
            Body::File | Body::Field => false,
        }
    }
}

/// The kind of a component.
pub fn kind_of(component: &Component<'_>) -> Body
    ensures { result ≡ kind_of component.now }
{
    Body::of(&component.definition.kind)
}

// The instance of this name among those that stand behind the first of a list.
fn next_inst<'a>(name: &[u8], insts: &'a [RdlNextInst]) -> Option<&'a RdlInst>
    ensures { option_map (λ i. i.now) result ≡ next_inst name.now insts.now }
{
    for next in insts {
        if next.inst.name.is_text(name) {
            return Some(&next.inst);
        }
    }
    None
}

// The instance of this name in a list.
fn inst_in<'a>(name: &[u8], insts: &'a RdlInsts) -> Option<&'a RdlInst>
    ensures { option_map (λ i. i.now) result ≡ inst_in name.now insts.now }
{
    if insts.first.name.is_text(name) {
        return Some(&insts.first);
    }
    next_inst(name, insts.more.as_slice())
}

// The instance of this name in a list that may be missing.
fn inst_of<'a>(name: &[u8], insts: &'a Option<RdlInsts>) -> Option<&'a RdlInst>
    ensures { option_map (λ i. i.now) result ≡ inst_of name.now insts.now }
{
    match insts {
        None => None,
        Some(insts) => inst_in(name, insts),
    }
}

// Whether a step with this index names an instance with this range, or an element of it.
fn names_element(of_field: bool, range: &Option<RdlRange>, index: &Option<RdlIndex>) -> bool
    ensures { result ≡ names_element of_field range.now index.now }
{
    match (range, index) {
        (None, None) => true,
        (None, Some(_)) => false,
        (Some(_), None) => of_field,
        (Some(range), Some(index)) => !of_field && index.number.value < range.first.value,
    }
}

// The component, where the step names an instance of it, or an element.
fn entered<'a>(
    step: &RdlStep,
    inst: &RdlInst,
    component: Option<Component<'a>>,
) -> Option<Component<'a>>
    ensures { result ≡ entered step.now (Some inst.now) component.entry }
{
    match component {
        None => None,
        Some(component) => {
            let of_field = kind_of(&component).is_field();
            if names_element(of_field, &inst.range, &step.index) {
                Some(component)
            } else {
                None
            }
        }
    }
}

// The component that the step leads to by one item, with these before it in its body.
fn entered_by<'a>(
    alloc: Global,
    outer: &[&'a [RdlItem]],
    before: &'a [RdlItem],
    step: &RdlStep,
    item: &'a RdlItem,
) -> Result<Option<Component<'a>>, AllocError>
    ensures { IfOk result (λ c. c ≡ entered_by (nows outer.now) before.now step.now (out-RdlItem item.now)) }
{
    match item {
        RdlItem::Def(definition) => match inst_of(step.name.text.as_bytes(), &definition.insts) {
            None => Ok(None),
            Some(inst) => {
                let component = component_of(alloc, outer, before, definition)?;
                Ok(entered(step, inst, Some(component)))
            }
        },
        RdlItem::Use(uses) => match inst_in(step.name.text.as_bytes(), &uses.insts) {
            None => Ok(None),
            Some(inst) => {
                let component = used_type(alloc, outer, before, uses.name.text.as_bytes())?;
                Ok(entered(step, inst, component))
            }
        },
        _ => Ok(None),
    }
}

/// The component of the type of this name, behind these items of a body.
pub fn used_type<'a>(
    alloc: Global,
    outer: &[&'a [RdlItem]],
    before: &'a [RdlItem],
    name: &[u8],
) -> Result<Option<Component<'a>>, AllocError>
    ensures { IfOk result (λ c. c ≡ type_of (nows outer.now ++ before.now ∷ []) name.now) }
{
    let chain = chain_of(alloc, outer, before)?;
    type_of(alloc, chain.as_slice(), name)
}

// The component that the step leads to from a body.
fn step_from<'a>(
    alloc: Global,
    outer: &[&'a [RdlItem]],
    items: &'a [RdlItem],
    step: &RdlStep,
) -> Result<Option<Component<'a>>, AllocError>
    ensures { IfOk result (λ c. c ≡ step_from (nows outer.now) [] step.now items.now) }
{
    for at in 0..items.len() {
        let here = entered_by(alloc, outer, &items[..at], step, &items[at])?;
        if let Some(component) = here {
            return Ok(Some(component));
        }
    }
    Ok(None)
}

fn step_on<'a>(
    alloc: Global,
    at: Option<Component<'a>>,
    step: &RdlStep,
) -> Result<Option<Component<'a>>, AllocError>
    ensures { IfOk result (λ c. c ≡ step_on step.now at.entry) }
{
    match at {
        None => Ok(None),
        Some(component) => {
            let definition = component.definition;
            step_from(
                alloc,
                component.chain.as_slice(),
                definition.items.as_slice(),
                step,
            )
        }
    }
}

/// The component that the path leads to from a body, with these bodies around it.
pub fn lead<'a>(
    alloc: Global,
    outer: &[&'a [RdlItem]],
    items: &'a [RdlItem],
    path: &RdlPath,
) -> Result<Option<Component<'a>>, AllocError>
    ensures { IfOk result (λ c. c ≡ lead (nows outer.now) items.now path.now) }
{
    let mut at = step_from(alloc, outer, items, &path.first)?;
    for next in path.more.as_slice() {
        at = step_on(alloc, at, &next.step)?;
    }
    Ok(at)
}
