//! Frames: an instance on the way to another, with the assignments that can reach what stands there.

ghost use Rattle.std.specs.Prelude.{◌≡◌, ◌++◌, ◌∷◌, [], IfOk, OnOk};
ghost use Rattle.rdl_tree.specs.declared.tree.RdlItem.{out-RdlItem};
ghost use Rattle.rdl_text.specs.Chains.{nows};
ghost use Rattle.rdl_values.specs.Frames as spec;

use crate::instance::Instance;
use rdl_text::instance::{Body, kind_of};
use rdl_tree::tree::{RdlInst, RdlItem, RdlPath, RdlProp};
use std::alloc::{AllocError, Global};
use std::marker::Model;
use std::vec::Vec;

/// An assignment to a path.
#[derive(Drop)]
pub struct Target<'a> {
    pub path: &'a RdlPath,
    pub prop: &'a RdlProp,
}

impl<'a> Model for Target<'a> {
    ghost use Rattle.rdl_values.specs.OneFrame.{Target};

    ghost Value = { Target };

    ghost view = { λ t. record { path = t.path.now; prop = t.prop.now } };
}

/// An element of an instance on the way from the top, with the assignments that can reach what
/// stands there.
#[derive(Drop)]
pub struct Frame<'a> {
    pub inst: &'a RdlInst,
    /// The kind of the instance's component.
    pub kind: Body,
    /// Which element of an array it is, 0 where it is none.
    pub index: u64,
    /// The assignments to paths in the body in which the instance stands.
    pub targets: &'a [Target<'a>],
    /// The assignments of its component's body.
    pub own: &'a [&'a RdlProp],
    /// The defaults in force for that body, the nearest last.
    pub defaults: &'a [&'a RdlProp],
}

impl<'a> Model for Frame<'a> {
    ghost use Rattle.rdl_text.specs.Chains.{nows};
    ghost use Rattle.rdl_values.specs.OneFrame.{Frame};

    ghost Value = { Frame };

    ghost view = { λ f. record { inst = f.inst.now; kind = f.kind; index = f.index; targets = f.targets.now; own = nows f.own.now; defaults = nows f.defaults.now } };
}

// Notes the assignment to a path that the item is.
fn note_target<'a>(out: &mut Vec<Target<'a>>, item: &'a RdlItem) -> Result<(), AllocError>
    ensures { OnOk result (out.new.items ≡ out.old.items ++ spec.target_by (out-RdlItem item.now)) }
{
    match item {
        RdlItem::Dynamic(path, _, prop, _) => Ok(out.push(Target { path, prop })?),
        _ => Ok(()),
    }
}

/// The assignments to paths in a body.
pub fn targets_of<'a>(alloc: Global, items: &'a [RdlItem]) -> Result<Vec<Target<'a>>, AllocError>
    ensures { IfOk result (λ ts. ts.items ≡ spec.targets_of items.now) }
{
    let mut out = Vec::new(alloc);
    for item in items {
        note_target(&mut out, item)?;
    }
    Ok(out)
}

// Notes the assignment that the item is.
fn note_own<'a>(out: &mut Vec<&'a RdlProp>, item: &'a RdlItem) -> Result<(), AllocError>
    ensures { OnOk result (nows out.new.items ≡ nows out.old.items ++ spec.own_by (out-RdlItem item.now)) }
{
    match item {
        RdlItem::Prop(prop, _) => Ok(out.push(prop)?),
        _ => Ok(()),
    }
}

/// The assignments of a body.
pub fn own_of<'a>(alloc: Global, items: &'a [RdlItem]) -> Result<Vec<&'a RdlProp>, AllocError>
    ensures { IfOk result (λ ps. nows ps.items ≡ spec.own_of items.now) }
{
    let mut out = Vec::new(alloc);
    for item in items {
        note_own(&mut out, item)?;
    }
    Ok(out)
}

// Notes the default that the item is.
fn note_default<'a>(out: &mut Vec<&'a RdlProp>, item: &'a RdlItem) -> Result<(), AllocError>
    ensures { OnOk result (nows out.new.items ≡ nows out.old.items ++ spec.default_by (out-RdlItem item.now)) }
{
    match item {
        RdlItem::Default(_, prop, _) => Ok(out.push(prop)?),
        _ => Ok(()),
    }
}

// Notes the defaults of these items of a body.
fn note_defaults<'a>(out: &mut Vec<&'a RdlProp>, items: &'a [RdlItem]) -> Result<(), AllocError>
    ensures { OnOk result (nows out.new.items ≡ nows out.old.items ++ spec.defaults_in items.now) }
{
    for item in items {
        note_default(out, item)?;
    }
    Ok(())
}

/// The defaults in force behind what stands before a body, the nearest last.
pub fn defaults_of<'a>(
    alloc: Global,
    chain: &[&'a [RdlItem]],
) -> Result<Vec<&'a RdlProp>, AllocError>
    ensures { IfOk result (λ ps. nows ps.items ≡ spec.defaults_of (nows chain.now)) }
{
    let mut out = Vec::new(alloc);
    for at in 0..chain.len() {
        note_defaults(&mut out, chain[at])?;
    }
    Ok(out)
}

fn again<'a>(frame: &Frame<'a>) -> Frame<'a>
    ensures { result ≡ frame.now }
{
    Frame {
        inst: frame.inst,
        kind: frame.kind,
        index: frame.index,
        targets: frame.targets,
        own: frame.own,
        defaults: frame.defaults,
    }
}

/// The trail to a frame behind these.
pub fn trail_to<'a>(
    alloc: Global,
    up: &[Frame<'a>],
    frame: Frame<'a>,
) -> Result<Vec<Frame<'a>>, AllocError>
    ensures { IfOk result (λ t. t.items ≡ up.now ++ frame.entry ∷ []) }
{
    let mut trail = Vec::new(alloc);
    for at in 0..up.len() {
        trail.push(again(&up[at]))?;
    }
    trail.push(frame)?;
    Ok(trail)
}
