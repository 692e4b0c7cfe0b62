//! Where the instances of a body stand, and how large components are.

ghost use Rattle.std.specs.Prelude.{◌≡◌, ◌≤◌, ◌++◌, ◌∷◌, [], IfOk};
ghost use Rattle.rdl_tree.specs.declared.tree.RdlDef.{out-RdlDef};
ghost use Rattle.rdl_text.specs.Chains.{nows};
ghost use Rattle.rdl_text.specs.Instances.{kind_of};
ghost use Rattle.rdl_values.specs.Frames.{frame_of, own_of, defaults_of};
ghost use Rattle.rdl_values.specs.Instances.{count_of};
ghost use Rattle.rdl_layout.specs.Sizes.{capped, stride_of};
ghost use Rattle.rdl_layout.specs.Laid as spec;

use crate::size::{Extent, capped, reach, start_of, stride_of};
use rdl_effects::register::regwidth_at;
use rdl_text::instance::{Body, kind_of};
use rdl_text::scope::Component;
use rdl_tree::tree::RdlProp;
use rdl_values::frame::{Frame, Target, defaults_of, own_of, targets_of, trail_to};
use rdl_values::instance::{Instance, count_of, instances_of};
use std::alloc::{AllocError, Global};

// The size of an element of an instance, which these assignments reach.
#[cycle(size)]
fn element_size_in<'x>(
    alloc: Global,
    up: &[Frame<'x>],
    targets: &'x [Target<'x>],
    own: &'x [&'x RdlProp],
    defaults: &'x [&'x RdlProp],
    instance: &'x Instance<'x>,
    index: u64,
    room: u32,
) -> Result<u64, AllocError>
    requires own { nows own.now ≡ own_of (out-RdlDef instance.now.component.definition).items }
    requires defaults { nows defaults.now ≡ defaults_of instance.now.component.chain }
    ensures size { IfOk result (λ n. n ≡ spec.element_size (spec.size_in room) up.now targets.now instance.now index) }
    ensures bound { IfOk result (λ n. n ≤ 4294967297) }
{
    let frame = Frame {
        inst: instance.inst,
        kind: kind_of(&instance.component),
        index,
        targets,
        own,
        defaults,
    };
    let trail = trail_to(alloc, up, frame)?;
    size_in(alloc, trail.as_slice(), &instance.component, room)
}

// The size of an element of an instance.
#[cycle(size)]
fn element_size(
    alloc: Global,
    up: &[Frame<'_>],
    targets: &[Target<'_>],
    instance: &Instance<'_>,
    index: u64,
    room: u32,
) -> Result<u64, AllocError>
    ensures size { IfOk result (λ n. n ≡ spec.element_size (spec.size_in room) up.now targets.now instance.now index) }
    ensures bound { IfOk result (λ n. n ≤ 4294967297) }
{
    let own = own_of(alloc, instance.component.definition.items.as_slice())?;
    let defaults = defaults_of(alloc, instance.component.chain.as_slice())?;
    element_size_in(
        alloc,
        &*up,
        &*targets,
        own.as_slice(),
        defaults.as_slice(),
        &*instance,
        index,
        room,
    )
}

// The greatest end of the elements of an instance that stands there.
#[cycle(size)]
fn greatest(
    alloc: Global,
    up: &[Frame<'_>],
    targets: &[Target<'_>],
    instance: &Instance<'_>,
    start: u64,
    stride: u64,
    room: u32,
) -> Result<u64, AllocError>
    requires start { start ≤ 4294967297 }
    requires stride { stride ≤ 4294967297 }
    ensures size { IfOk result (λ n. n ≡ spec.greatest (spec.size_in room) up.now targets.now instance.now start stride (count_of instance.now)) }
    ensures bound { IfOk result (λ n. n ≤ 4294967297) }
{
    let mut end = start;
    for index in 0..count_of(instance) {
        let size = element_size(alloc, up, targets, instance, index, room)?;
        end = end.max(reach(start, stride, index, size));
    }
    Ok(end)
}

/// Where an instance stands behind the end of the one before, in the component at the end of the
/// trail.
#[cycle(size)]
pub fn extent_of(
    alloc: Global,
    up: &[Frame<'_>],
    targets: &[Target<'_>],
    next: u64,
    instance: &Instance<'_>,
    room: u32,
) -> Result<Extent, AllocError>
    requires { next ≤ 4294967297 }
    ensures extent { IfOk result (λ e. e ≡ spec.extent_of (spec.size_in room) up.now targets.now next instance.now) }
    ensures start { IfOk result (λ e. e.start ≤ 4294967297) }
    ensures stride { IfOk result (λ e. e.stride ≤ 4294967297) }
    ensures end { IfOk result (λ e. e.end ≤ 4294967297) }
{
    let size = element_size(alloc, up, targets, instance, 0, room)?;
    let kind = kind_of(&instance.component);
    let inst = instance.inst;
    let start = start_of(kind, &inst.address, &inst.alignment, next, size);
    let stride = stride_of(&inst.stride, size);
    let end = greatest(alloc, up, targets, instance, start, stride, room)?;
    Ok(Extent { start, stride, end })
}

// The greatest end of the instances of the component at the end of the trail.
#[cycle(size)]
fn greatest_end(
    alloc: Global,
    up: &[Frame<'_>],
    targets: &[Target<'_>],
    instances: &[Instance<'_>],
    room: u32,
) -> Result<u64, AllocError>
    ensures size { IfOk result (λ n. n ≡ spec.greatest_end (spec.size_in room) up.now targets.now 0 instances.now) }
    ensures bound { IfOk result (λ n. n ≤ 4294967297) }
{
    let mut end = 0;
    let mut next = 0;
    for instance in instances {
        if !kind_of(&instance.component).is_field() {
            next = extent_of(alloc, up, targets, next, instance, room)?.end;
            end = end.max(next);
        }
    }
    Ok(end)
}

// The greatest end of what stands in the component at the end of the trail.
#[cycle(size)]
fn inner_size(
    alloc: Global,
    trail: &[Frame<'_>],
    component: &Component<'_>,
    room: u32,
) -> Result<u64, AllocError>
    ensures size { IfOk result (λ n. n ≡ spec.inner_size room trail.now component.now) }
    ensures bound { IfOk result (λ n. n ≤ 4294967297) }
{
    if room == 0 {
        return Ok(0);
    }
    let targets = targets_of(alloc, component.definition.items.as_slice())?;
    let instances = instances_of(alloc, component)?;
    greatest_end(
        alloc,
        trail,
        targets.as_slice(),
        instances.as_slice(),
        room - 1,
    )
}

/// The size in bytes of the component at the end of a trail, nested as deep as there is room.
#[cycle(size)]
#[tactic(auto, using(crate::proofs::Nested::size_is))]
pub fn size_in(
    alloc: Global,
    trail: &[Frame<'_>],
    component: &Component<'_>,
    room: u32,
) -> Result<u64, AllocError>
    ensures size { IfOk result (λ n. n ≡ spec.size_in room trail.now component.now) }
    ensures bound { IfOk result (λ n. n ≤ 4294967297) }
{
    match kind_of(component) {
        Body::Reg => Ok(capped(regwidth_at(trail) / 8)),
        _ => inner_size(alloc, trail, component, room),
    }
}
