//! What effective values are refused for.

ghost use Rattle.std.specs.Prelude.{◌≡◌, ◌++◌, ◌∷◌, [], Some, None, IfOk, OnOk};
ghost use Rattle.bit_base.specs.declared.place.Place.{Place};
ghost use Rattle.rdl_tree.specs.declared.tree.RdlDef.{out-RdlDef};
ghost use Rattle.rdl_text.specs.Chains.{nows};
ghost use Rattle.rdl_values.specs.Frames.{frame_of, own_of, defaults_of};
ghost use Rattle.rdl_values.specs.Instances.{count_of};
ghost use Rattle.rdl_values.specs.Values.{here_of};
ghost use Rattle.rdl_values.specs.Walks.{over, over_elements, over_instances};
ghost use Rattle.rdl_effects.specs.Bodies as spec;
ghost use Rattle.rdl_effects.specs.Refusals.{over_top, conflicts_of, HasNone, IsFirstConflict};

use crate::field::{is_misvalued, is_torn};
use crate::reference::is_misreferred;
use crate::register::is_narrow;
use bit_base::place::{Place, first_of};
use rdl_text::instance::{Body, kind_of};
use rdl_text::names::note_if;
use rdl_text::scope::Component;
use rdl_tree::tree::{RdlFile, RdlProp};
use rdl_values::frame::{Frame, Target, defaults_of, own_of, targets_of, trail_to};
use rdl_values::instance::{Instance, count_of, instances_of, top_of};
use rdl_values::value::here_of;
use std::alloc::{AllocError, Global};
use std::vec::Vec;

/// What is looked at: each has a code of its own.
#[derive(Clone, Copy, Debug, PartialEq, Eq, Drop)]
pub enum Effect {
    /// Properties that exclude each other, by `RdlProperty`.
    Properties,
    /// Values that don't fit, by `RdlValue`.
    Values,
}

fn is_torn_of(kind: Body, trail: &[Frame<'_>]) -> bool
    ensures { result ≡ spec.is_torn_of kind trail.now }
{
    match kind {
        Body::Field => is_torn(trail),
        _ => false,
    }
}

fn is_misvalued_of(kind: Body, trail: &[Frame<'_>]) -> bool
    ensures { result ≡ spec.is_misvalued_of kind trail.now }
{
    match kind {
        Body::Field => is_misvalued(trail),
        Body::Reg => is_narrow(trail),
        _ => false,
    }
}

fn is_refused_of(effect: Effect, kind: Body, trail: &[Frame<'_>]) -> bool
    ensures { result ≡ spec.is_refused_of effect kind trail.now }
{
    match effect {
        Effect::Properties => is_torn_of(kind, trail),
        Effect::Values => is_misvalued_of(kind, trail),
    }
}

// Notes the instance at the end of the trail where it is refused.
fn note_here(out: &mut Vec<Place>, effect: Effect, trail: &[Frame<'_>]) -> Result<(), AllocError>
    ensures { OnOk result (out.new.items ≡ out.old.items ++ spec.refused_here effect trail.now (here_of trail.now)) }
{
    match here_of(trail) {
        None => Ok(()),
        Some(frame) => {
            let refused = is_refused_of(effect, frame.kind, trail);
            note_if(out, refused, frame.inst.name.place)
        }
    }
}

// Notes those of these assignments to paths that have a wrong reference.
fn note_misreferred(
    alloc: Global,
    out: &mut Vec<Place>,
    trail: &[Frame<'_>],
    component: &Component<'_>,
    targets: &[Target<'_>],
) -> Result<(), AllocError>
    ensures { OnOk result (out.new.items ≡ out.old.items ++ spec.misreferred trail.now component.now targets.now) }
{
    for target in targets {
        let wrong = is_misreferred(alloc, trail, component, target.path, target.prop)?;
        note_if(out, wrong, target.path.first.name.place)?;
    }
    Ok(())
}

fn note_body(
    alloc: Global,
    out: &mut Vec<Place>,
    effect: Effect,
    trail: &[Frame<'_>],
    component: &Component<'_>,
) -> Result<(), AllocError>
    ensures { OnOk result (out.new.items ≡ out.old.items ++ spec.refused_in effect trail.now component.now) }
{
    match effect {
        Effect::Properties => Ok(()),
        Effect::Values => {
            let targets = targets_of(alloc, component.definition.items.as_slice())?;
            note_misreferred(alloc, out, trail, component, targets.as_slice())
        }
    }
}

// Notes what is refused at the end of the trail.
fn note_refused(
    alloc: Global,
    out: &mut Vec<Place>,
    effect: Effect,
    trail: &[Frame<'_>],
    component: &Component<'_>,
) -> Result<(), AllocError>
    ensures { OnOk result (out.new.items ≡ out.old.items ++ spec.refused_at effect trail.now component.now) }
{
    note_here(out, effect, trail)?;
    note_body(alloc, out, effect, trail, component)
}

// Notes what is refused at an element of an instance, and inside of it.
#[cycle(walk)]
fn note_element<'x>(
    alloc: Global,
    out: &mut Vec<Place>,
    effect: Effect,
    up: &[Frame<'x>],
    frame: Frame<'x>,
    component: &Component<'_>,
    room: u32,
) -> Result<(), AllocError>
    ensures { OnOk result (out.new.items ≡ out.old.items ++ over (spec.refused_at effect) room (up.now ++ frame.entry ∷ []) component.now) }
{
    let trail = trail_to(alloc, up, frame)?;
    note_all(alloc, out, effect, trail.as_slice(), component, room)
}

// Notes what is refused at the elements of an instance, and inside of them.
#[cycle(walk)]
fn note_elements<'x>(
    alloc: Global,
    out: &mut Vec<Place>,
    effect: Effect,
    up: &[Frame<'x>],
    targets: &'x [Target<'x>],
    own: &'x [&'x RdlProp],
    defaults: &'x [&'x RdlProp],
    instance: &'x Instance<'x>,
    room: u32,
) -> Result<(), AllocError>
    requires own { nows own.now ≡ own_of (out-RdlDef instance.now.component.definition).items }
    requires defaults { nows defaults.now ≡ defaults_of instance.now.component.chain }
    ensures { OnOk result (out.new.items ≡ out.old.items ++ over_elements (over (spec.refused_at effect) room) up.now targets.now instance.now (count_of instance.now)) }
{
    for index in 0..count_of(instance) {
        let frame = Frame {
            inst: instance.inst,
            kind: kind_of(&instance.component),
            index,
            targets,
            own,
            defaults,
        };
        note_element(alloc, out, effect, up, frame, &instance.component, room)?;
    }
    Ok(())
}

#[cycle(walk)]
fn note_instance(
    alloc: Global,
    out: &mut Vec<Place>,
    effect: Effect,
    up: &[Frame<'_>],
    targets: &[Target<'_>],
    instance: &Instance<'_>,
    room: u32,
) -> Result<(), AllocError>
    ensures { OnOk result (out.new.items ≡ out.old.items ++ over_elements (over (spec.refused_at effect) room) up.now targets.now instance.now (count_of instance.now)) }
{
    let own = own_of(alloc, instance.component.definition.items.as_slice())?;
    let defaults = defaults_of(alloc, instance.component.chain.as_slice())?;
    note_elements(
        alloc,
        out,
        effect,
        &*up,
        &*targets,
        own.as_slice(),
        defaults.as_slice(),
        &*instance,
        room,
    )
}

#[cycle(walk)]
fn note_instances(
    alloc: Global,
    out: &mut Vec<Place>,
    effect: Effect,
    up: &[Frame<'_>],
    targets: &[Target<'_>],
    instances: &[Instance<'_>],
    room: u32,
) -> Result<(), AllocError>
    ensures { OnOk result (out.new.items ≡ out.old.items ++ over_instances (over (spec.refused_at effect) room) up.now targets.now instances.now) }
{
    for instance in instances {
        note_instance(alloc, out, effect, up, targets, instance, room)?;
    }
    Ok(())
}

// Notes what is refused at the end of the trail, and inside of it as deep as there is room.
#[cycle(walk)]
fn note_all(
    alloc: Global,
    out: &mut Vec<Place>,
    effect: Effect,
    trail: &[Frame<'_>],
    component: &Component<'_>,
    room: u32,
) -> Result<(), AllocError>
    ensures { OnOk result (out.new.items ≡ out.old.items ++ over (spec.refused_at effect) room trail.now component.now) }
{
    note_refused(alloc, out, effect, trail, component)?;
    if room == 0 {
        return Ok(());
    }
    let targets = targets_of(alloc, component.definition.items.as_slice())?;
    let instances = instances_of(alloc, component)?;
    note_instances(
        alloc,
        out,
        effect,
        trail,
        targets.as_slice(),
        instances.as_slice(),
        room - 1,
    )
}

fn conflicts_below(
    alloc: Global,
    effect: Effect,
    top: &Option<Component<'_>>,
) -> Result<Vec<Place>, AllocError>
    ensures { IfOk result (λ places. places.items ≡ over_top (spec.refused_at effect) top.now) }
{
    let mut out = Vec::new(alloc);
    match top {
        None => Ok(out),
        Some(top) => {
            note_all(alloc, &mut out, effect, &[], top, 65)?;
            Ok(out)
        }
    }
}

// The places of what effective values are refused for.
fn conflicts_of(alloc: Global, file: &RdlFile, effect: Effect) -> Result<Vec<Place>, AllocError>
    ensures { IfOk result (λ places. places.items ≡ conflicts_of effect file.now) }
{
    let top = top_of(alloc, file)?;
    conflicts_below(alloc, effect, &top)
}

/// The place of the first instance below a description's top, or of the first assignment to a path
/// there, that the effective values are refused for.
pub fn first_conflict(
    alloc: Global,
    file: &RdlFile,
    effect: Effect,
) -> Result<Option<Place>, AllocError>
    ensures first { IfOk result (λ found. (p : Place) → found ≡ Some p → IsFirstConflict effect file.now p) }
    ensures none { IfOk result (λ found. found ≡ None → HasNone effect file.now) }
{
    let places = conflicts_of(alloc, file, effect)?;
    Ok(first_of(places.as_slice()))
}
