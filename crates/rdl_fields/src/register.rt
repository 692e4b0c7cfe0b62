//! The fields of a description, register by register.

ghost use Rattle.std.specs.Prelude.{◌≡◌, ◌≤◌, ◌++◌, ◌∷◌, [], IfOk, OnOk};
ghost use Rattle.rdl_tree.specs.declared.tree.RdlDef.{out-RdlDef};
ghost use Rattle.rdl_text.specs.Chains.{nows};
ghost use Rattle.rdl_text.specs.Instances.{kind_of};
ghost use Rattle.rdl_values.specs.Frames.{frame_of, own_of, defaults_of};
ghost use Rattle.rdl_values.specs.Instances.{count_of};
ghost use Rattle.rdl_layout.specs.Laid.{size_in};
ghost use Rattle.rdl_layout.specs.Walks.{address_of, over, over_elements, over_inside, over_instances};
ghost use Rattle.rdl_fields.specs.Fields.{field_at};
ghost use Rattle.rdl_fields.specs.Registers as spec;

use crate::field::field_at;
use crate::named::NamedField;
use rdl_effects::register::accesswidth_at;
use rdl_layout::bits::{Bits, bits_of};
use rdl_layout::laid::extent_of;
use rdl_layout::size::{Extent, reach};
use rdl_text::instance::{Body, kind_of};
use rdl_text::scope::Component;
use rdl_tree::tree::{RdlFile, RdlProp};
use rdl_values::frame::{Frame, Target, defaults_of, own_of, targets_of, trail_to};
use rdl_values::instance::{Instance, count_of, instances_of, top_of};
use std::alloc::{AllocError, Global};
use std::vec::Vec;

// A field of the register at the end of the trail, which these assignments reach.
fn field_by<'x>(
    alloc: Global,
    register: u64,
    access: u64,
    trail: &[Frame<'x>],
    targets: &'x [Target<'x>],
    own: &'x [&'x RdlProp],
    defaults: &'x [&'x RdlProp],
    instance: &'x Instance<'x>,
    low: u64,
) -> Result<NamedField, AllocError>
    requires register { register ≤ 4294967297 }
    requires low { low ≤ 129 }
    requires own { nows own.now ≡ own_of (out-RdlDef instance.now.component.definition).items }
    requires defaults { nows defaults.now ≡ defaults_of instance.now.component.chain }
    ensures { IfOk result (λ f. f ≡ field_at register access low (trail.now ++ frame_of targets.now instance.now 0 ∷ [])) }
{
    let frame = Frame {
        inst: instance.inst,
        kind: kind_of(&instance.component),
        index: 0,
        targets,
        own,
        defaults,
    };
    let trail = trail_to(alloc, trail, frame)?;
    field_at(alloc, register, access, low, trail.as_slice())
}

// A field of the register at the end of the trail, with this lowest bit.
fn field_in(
    alloc: Global,
    register: u64,
    access: u64,
    trail: &[Frame<'_>],
    targets: &[Target<'_>],
    instance: &Instance<'_>,
    low: u64,
) -> Result<NamedField, AllocError>
    requires register { register ≤ 4294967297 }
    requires low { low ≤ 129 }
    ensures { IfOk result (λ f. f ≡ field_at register access low (trail.now ++ frame_of targets.now instance.now 0 ∷ [])) }
{
    let own = own_of(alloc, instance.component.definition.items.as_slice())?;
    let defaults = defaults_of(alloc, instance.component.chain.as_slice())?;
    field_by(
        alloc,
        register,
        access,
        &*trail,
        &*targets,
        own.as_slice(),
        defaults.as_slice(),
        &*instance,
        low,
    )
}

// Notes the fields of the register at the end of the trail.
fn note_fields(
    alloc: Global,
    out: &mut Vec<NamedField>,
    register: u64,
    access: u64,
    trail: &[Frame<'_>],
    targets: &[Target<'_>],
    instances: &[Instance<'_>],
) -> Result<(), AllocError>
    requires { register ≤ 4294967297 }
    ensures { OnOk result (out.new.items ≡ out.old.items ++ spec.fields_in register access trail.now targets.now 0 instances.now) }
{
    let mut next = 0;
    for instance in instances {
        let bits = bits_of(alloc, trail, targets, next, instance)?;
        let field = field_in(alloc, register, access, trail, targets, instance, bits.low)?;
        out.push(field)?;
        next = bits.end;
    }
    Ok(())
}

// Notes the fields of the component at the end of the trail, where it is a register.
fn note_here(
    alloc: Global,
    out: &mut Vec<NamedField>,
    address: u64,
    trail: &[Frame<'_>],
    component: &Component<'_>,
) -> Result<(), AllocError>
    requires { address ≤ 4294967297 }
    ensures { OnOk result (out.new.items ≡ out.old.items ++ spec.fields_at address trail.now component.now) }
{
    match kind_of(component) {
        Body::Reg => {
            let targets = targets_of(alloc, component.definition.items.as_slice())?;
            let instances = instances_of(alloc, component)?;
            note_fields(
                alloc,
                out,
                address,
                accesswidth_at(trail),
                trail,
                targets.as_slice(),
                instances.as_slice(),
            )
        }
        _ => Ok(()),
    }
}

// The address of an element, in a component at an address.
fn address_of(base: u64, extent: Extent, index: u64) -> u64
    requires base { base ≤ 4294967297 }
    requires start { extent.start ≤ 4294967297 }
    requires stride { extent.stride ≤ 4294967297 }
    ensures address { result ≡ address_of base extent index }
    ensures bound { result ≤ 4294967297 }
{
    reach(reach(base, extent.start, 1, 0), extent.stride, index, 0)
}

// Notes the fields of an element of an instance, which these assignments reach.
#[cycle(walk)]
fn note_element<'x>(
    alloc: Global,
    out: &mut Vec<NamedField>,
    address: u64,
    up: &[Frame<'x>],
    targets: &'x [Target<'x>],
    own: &'x [&'x RdlProp],
    defaults: &'x [&'x RdlProp],
    instance: &'x Instance<'x>,
    index: u64,
    room: u32,
) -> Result<(), AllocError>
    requires address { address ≤ 4294967297 }
    requires own { nows own.now ≡ own_of (out-RdlDef instance.now.component.definition).items }
    requires defaults { nows defaults.now ≡ defaults_of instance.now.component.chain }
    ensures { OnOk result (out.new.items ≡ out.old.items ++ over spec.fields_at room address (up.now ++ frame_of targets.now instance.now index ∷ []) instance.now.component) }
{
    let frame = Frame {
        inst: instance.inst,
        kind: kind_of(&instance.component),
        index,
        targets,
        own,
        defaults,
    };
    let trail = trail_to(alloc, up, frame)?;
    note_all(
        alloc,
        out,
        address,
        trail.as_slice(),
        &instance.component,
        room,
    )
}

// Notes the fields of the elements of an instance, which these assignments reach.
#[cycle(walk)]
fn note_elements<'x>(
    alloc: Global,
    out: &mut Vec<NamedField>,
    base: u64,
    up: &[Frame<'x>],
    targets: &'x [Target<'x>],
    own: &'x [&'x RdlProp],
    defaults: &'x [&'x RdlProp],
    instance: &'x Instance<'x>,
    extent: Extent,
    room: u32,
) -> Result<(), AllocError>
    requires base { base ≤ 4294967297 }
    requires start { extent.start ≤ 4294967297 }
    requires stride { extent.stride ≤ 4294967297 }
    requires own { nows own.now ≡ own_of (out-RdlDef instance.now.component.definition).items }
    requires defaults { nows defaults.now ≡ defaults_of instance.now.component.chain }
    ensures { OnOk result (out.new.items ≡ out.old.items ++ over_elements (over spec.fields_at room) base up.now targets.now instance.now extent (count_of instance.now)) }
{
    for index in 0..count_of(instance) {
        let address = address_of(base, extent, index);
        note_element(
            alloc, out, address, up, targets, own, defaults, instance, index, room,
        )?;
    }
    Ok(())
}

// Notes the fields of the elements of an instance.
#[cycle(walk)]
fn note_instance(
    alloc: Global,
    out: &mut Vec<NamedField>,
    base: u64,
    up: &[Frame<'_>],
    targets: &[Target<'_>],
    instance: &Instance<'_>,
    extent: Extent,
    room: u32,
) -> Result<(), AllocError>
    requires base { base ≤ 4294967297 }
    requires start { extent.start ≤ 4294967297 }
    requires stride { extent.stride ≤ 4294967297 }
    ensures { OnOk result (out.new.items ≡ out.old.items ++ over_elements (over spec.fields_at room) base up.now targets.now instance.now extent (count_of instance.now)) }
{
    let own = own_of(alloc, instance.component.definition.items.as_slice())?;
    let defaults = defaults_of(alloc, instance.component.chain.as_slice())?;
    note_elements(
        alloc,
        out,
        base,
        &*up,
        &*targets,
        own.as_slice(),
        defaults.as_slice(),
        &*instance,
        extent,
        room,
    )
}

// Notes the fields of the instances of a body.
#[cycle(walk)]
fn note_instances(
    alloc: Global,
    out: &mut Vec<NamedField>,
    base: u64,
    up: &[Frame<'_>],
    targets: &[Target<'_>],
    instances: &[Instance<'_>],
    room: u32,
) -> Result<(), AllocError>
    requires { base ≤ 4294967297 }
    ensures { OnOk result (out.new.items ≡ out.old.items ++ over_instances (over spec.fields_at room) (size_in room) base up.now targets.now 0 instances.now) }
{
    let mut next = 0;
    for instance in instances {
        if !kind_of(&instance.component).is_field() {
            let extent = extent_of(alloc, up, targets, next, instance, room)?;
            note_instance(alloc, out, base, up, targets, instance, extent, room)?;
            next = extent.end;
        }
    }
    Ok(())
}

// Notes the fields of what stands in the component at the end of the trail.
#[cycle(walk)]
fn note_inside(
    alloc: Global,
    out: &mut Vec<NamedField>,
    base: u64,
    trail: &[Frame<'_>],
    component: &Component<'_>,
    room: u32,
) -> Result<(), AllocError>
    requires { base ≤ 4294967297 }
    ensures { OnOk result (out.new.items ≡ out.old.items ++ over_inside (over spec.fields_at room) (size_in room) base trail.now component.now) }
{
    let targets = targets_of(alloc, component.definition.items.as_slice())?;
    let instances = instances_of(alloc, component)?;
    note_instances(
        alloc,
        out,
        base,
        trail,
        targets.as_slice(),
        instances.as_slice(),
        room,
    )
}

// Notes the fields of the component at the end of the trail, and of what stands in it as deep as there
// is room.
#[cycle(walk)]
fn note_all(
    alloc: Global,
    out: &mut Vec<NamedField>,
    address: u64,
    trail: &[Frame<'_>],
    component: &Component<'_>,
    room: u32,
) -> Result<(), AllocError>
    requires { address ≤ 4294967297 }
    ensures { OnOk result (out.new.items ≡ out.old.items ++ over spec.fields_at room address trail.now component.now) }
{
    note_here(alloc, out, address, trail, component)?;
    if room == 0 {
        return Ok(());
    }
    note_inside(alloc, out, address, trail, component, room - 1)
}

fn fields_below(alloc: Global, top: &Option<Component<'_>>) -> Result<Vec<NamedField>, AllocError>
    ensures { IfOk result (λ fields. fields.items ≡ spec.fields_below top.now) }
{
    let mut out = Vec::new(alloc);
    match top {
        None => Ok(out),
        Some(top) => {
            note_all(alloc, &mut out, 0, &[], top, 65)?;
            Ok(out)
        }
    }
}

/// The fields of a description below its top, register by register in the order of the instances.
pub fn fields_of(alloc: Global, file: &RdlFile) -> Result<Vec<NamedField>, AllocError>
    ensures { IfOk result (λ fields. fields.items ≡ spec.fields_of file.now) }
{
    let top = top_of(alloc, file)?;
    fields_below(alloc, &top)
}
