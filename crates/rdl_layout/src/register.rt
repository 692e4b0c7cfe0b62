//! The registers of a description and their addresses.

ghost use Rattle.std.specs.Prelude.{◌≡◌, ◌≤◌, ◌++◌, ◌∷◌, [], IfOk, OnOk};
ghost use Rattle.rdl_tree.specs.declared.tree.RdlDef.{out-RdlDef};
ghost use Rattle.rdl_text.specs.Chains.{nows};
ghost use Rattle.rdl_values.specs.Frames.{frame_of, own_of, defaults_of};
ghost use Rattle.rdl_values.specs.Instances.{count_of};
ghost use Rattle.rdl_values.specs.Values.{here_of};
ghost use Rattle.rdl_layout.specs.Laid.{size_in};
ghost use Rattle.rdl_layout.specs.Walks.{address_of, over, over_elements, over_inside, over_instances};
ghost use Rattle.rdl_layout.specs.Misplaced.{misplaced_at};
ghost use Rattle.rdl_layout.specs.Registers as spec;
ghost use Rattle.rdl_layout.specs.Registers.{misplaced_below, misplaced_of};

use crate::bits::bits_at;
use crate::laid::extent_of;
use crate::misplaced::note_misplaced;
use crate::size::{Extent, reach};
use bit_base::place::Place;
use rdl_effects::register::{accesswidth_at, regwidth_at};
use rdl_text::instance::{Body, kind_of};
use rdl_text::scope::Component;
use rdl_tree::tree::{RdlFile, RdlProp};
use rdl_values::frame::{Frame, Target, defaults_of, own_of, targets_of, trail_to};
use rdl_values::instance::{Instance, count_of, instances_of, top_of};
use rdl_values::value::here_of;
use std::alloc::{AllocError, Global};
use std::vec::Vec;

/// A register.
#[derive(Clone, Copy, Debug, PartialEq, Eq, Drop)]
pub struct Register {
    /// The place of its instance in the text.
    pub place: Place,
    /// The address of its first byte; 2^32 + 1 for what lies beyond 2^32.
    pub address: u64,
    /// Its bits.
    pub width: u64,
    /// The bits of an access to it.
    pub access: u64,
    /// The bits of its fields, counted up to 4,097.
    pub bits: u64,
}

// Notes the register of this frame at the end of the trail, where it is one.
fn note_by(
    alloc: Global,
    out: &mut Vec<Register>,
    address: u64,
    trail: &[Frame<'_>],
    component: &Component<'_>,
    frame: &Frame<'_>,
) -> Result<(), AllocError>
    ensures { OnOk result (out.new.items ≡ out.old.items ++ spec.register_by frame.now.kind address trail.now component.now frame.now) }
{
    match frame.kind {
        Body::Reg => {
            let inst = frame.inst;
            let bits = bits_at(alloc, trail, component)?;
            out.push(Register {
                place: inst.name.place,
                address,
                width: regwidth_at(trail),
                access: accesswidth_at(trail),
                bits,
            })?;
            Ok(())
        }
        _ => Ok(()),
    }
}

// Notes the register at the end of the trail, where it is one.
fn note_here(
    alloc: Global,
    out: &mut Vec<Register>,
    address: u64,
    trail: &[Frame<'_>],
    component: &Component<'_>,
) -> Result<(), AllocError>
    ensures { OnOk result (out.new.items ≡ out.old.items ++ spec.register_here address trail.now component.now (here_of trail.now)) }
{
    match here_of(trail) {
        None => Ok(()),
        Some(frame) => note_by(alloc, out, address, trail, component, frame),
    }
}

/// What is found on a walk over the instances of a description.
#[derive(Drop)]
pub struct Notes {
    /// The registers.
    pub registers: Vec<Register>,
    /// The places of what is misplaced.
    pub misplaced: Vec<Place>,
}

// Notes what stands at the end of the trail, at this address.
fn note_one(
    alloc: Global,
    out: &mut Notes,
    address: u64,
    trail: &[Frame<'_>],
    component: &Component<'_>,
) -> Result<(), AllocError>
    requires { address ≤ 4294967297 }
    ensures registers { OnOk result (out.new.registers.items ≡ out.old.registers.items ++ spec.register_at address trail.now component.now) }
    ensures misplaced { OnOk result (out.new.misplaced.items ≡ out.old.misplaced.items ++ misplaced_at address trail.now component.now) }
{
    note_here(alloc, &mut out.registers, address, trail, component)?;
    note_misplaced(alloc, &mut out.misplaced, address, trail, component)
}

// The address of an element, in a component at an address.
fn address_of(base: u64, extent: Extent, index: u64) -> u64
    requires base { base ≤ 4294967297 }
    requires start { extent.start ≤ 4294967297 }
    requires stride { extent.stride ≤ 4294967297 }
    ensures address { result ≡ address_of base extent index }
    ensures bound { result ≤ 4294967297 }
{
    reach(reach(base, extent.start, 1, 0), extent.stride, index, 0)
}

// Notes an element of an instance, which these assignments reach.
#[cycle(walk)]
fn note_element<'x>(
    alloc: Global,
    out: &mut Notes,
    address: u64,
    up: &[Frame<'x>],
    targets: &'x [Target<'x>],
    own: &'x [&'x RdlProp],
    defaults: &'x [&'x RdlProp],
    instance: &'x Instance<'x>,
    index: u64,
    room: u32,
) -> Result<(), AllocError>
    requires address { address ≤ 4294967297 }
    requires own { nows own.now ≡ own_of (out-RdlDef instance.now.component.definition).items }
    requires defaults { nows defaults.now ≡ defaults_of instance.now.component.chain }
    ensures registers { OnOk result (out.new.registers.items ≡ out.old.registers.items ++ over spec.register_at room address (up.now ++ frame_of targets.now instance.now index ∷ []) instance.now.component) }
    ensures misplaced { OnOk result (out.new.misplaced.items ≡ out.old.misplaced.items ++ over misplaced_at room address (up.now ++ frame_of targets.now instance.now index ∷ []) instance.now.component) }
{
    let frame = Frame {
        inst: instance.inst,
        kind: kind_of(&instance.component),
        index,
        targets,
        own,
        defaults,
    };
    let trail = trail_to(alloc, up, frame)?;
    note_all(
        alloc,
        out,
        address,
        trail.as_slice(),
        &instance.component,
        room,
    )
}

// Notes the elements of an instance, which these assignments reach.
#[cycle(walk)]
fn note_elements<'x>(
    alloc: Global,
    out: &mut Notes,
    base: u64,
    up: &[Frame<'x>],
    targets: &'x [Target<'x>],
    own: &'x [&'x RdlProp],
    defaults: &'x [&'x RdlProp],
    instance: &'x Instance<'x>,
    extent: Extent,
    room: u32,
) -> Result<(), AllocError>
    requires base { base ≤ 4294967297 }
    requires start { extent.start ≤ 4294967297 }
    requires stride { extent.stride ≤ 4294967297 }
    requires own { nows own.now ≡ own_of (out-RdlDef instance.now.component.definition).items }
    requires defaults { nows defaults.now ≡ defaults_of instance.now.component.chain }
    ensures registers { OnOk result (out.new.registers.items ≡ out.old.registers.items ++ over_elements (over spec.register_at room) base up.now targets.now instance.now extent (count_of instance.now)) }
    ensures misplaced { OnOk result (out.new.misplaced.items ≡ out.old.misplaced.items ++ over_elements (over misplaced_at room) base up.now targets.now instance.now extent (count_of instance.now)) }
{
    for index in 0..count_of(instance) {
        let address = address_of(base, extent, index);
        note_element(
            alloc, out, address, up, targets, own, defaults, instance, index, room,
        )?;
    }
    Ok(())
}

// Notes the elements of an instance.
#[cycle(walk)]
fn note_instance(
    alloc: Global,
    out: &mut Notes,
    base: u64,
    up: &[Frame<'_>],
    targets: &[Target<'_>],
    instance: &Instance<'_>,
    extent: Extent,
    room: u32,
) -> Result<(), AllocError>
    requires base { base ≤ 4294967297 }
    requires start { extent.start ≤ 4294967297 }
    requires stride { extent.stride ≤ 4294967297 }
    ensures registers { OnOk result (out.new.registers.items ≡ out.old.registers.items ++ over_elements (over spec.register_at room) base up.now targets.now instance.now extent (count_of instance.now)) }
    ensures misplaced { OnOk result (out.new.misplaced.items ≡ out.old.misplaced.items ++ over_elements (over misplaced_at room) base up.now targets.now instance.now extent (count_of instance.now)) }
{
    let own = own_of(alloc, instance.component.definition.items.as_slice())?;
    let defaults = defaults_of(alloc, instance.component.chain.as_slice())?;
    note_elements(
        alloc,
        out,
        base,
        &*up,
        &*targets,
        own.as_slice(),
        defaults.as_slice(),
        &*instance,
        extent,
        room,
    )
}

// Notes the instances of a body.
#[cycle(walk)]
fn note_instances(
    alloc: Global,
    out: &mut Notes,
    base: u64,
    up: &[Frame<'_>],
    targets: &[Target<'_>],
    instances: &[Instance<'_>],
    room: u32,
) -> Result<(), AllocError>
    requires { base ≤ 4294967297 }
    ensures registers { OnOk result (out.new.registers.items ≡ out.old.registers.items ++ over_instances (over spec.register_at room) (size_in room) base up.now targets.now 0 instances.now) }
    ensures misplaced { OnOk result (out.new.misplaced.items ≡ out.old.misplaced.items ++ over_instances (over misplaced_at room) (size_in room) base up.now targets.now 0 instances.now) }
{
    let mut next = 0;
    for instance in instances {
        if !kind_of(&instance.component).is_field() {
            let extent = extent_of(alloc, up, targets, next, instance, room)?;
            note_instance(alloc, out, base, up, targets, instance, extent, room)?;
            next = extent.end;
        }
    }
    Ok(())
}

// Notes what stands in the component at the end of the trail.
#[cycle(walk)]
fn note_inside(
    alloc: Global,
    out: &mut Notes,
    base: u64,
    trail: &[Frame<'_>],
    component: &Component<'_>,
    room: u32,
) -> Result<(), AllocError>
    requires { base ≤ 4294967297 }
    ensures registers { OnOk result (out.new.registers.items ≡ out.old.registers.items ++ over_inside (over spec.register_at room) (size_in room) base trail.now component.now) }
    ensures misplaced { OnOk result (out.new.misplaced.items ≡ out.old.misplaced.items ++ over_inside (over misplaced_at room) (size_in room) base trail.now component.now) }
{
    let targets = targets_of(alloc, component.definition.items.as_slice())?;
    let instances = instances_of(alloc, component)?;
    note_instances(
        alloc,
        out,
        base,
        trail,
        targets.as_slice(),
        instances.as_slice(),
        room,
    )
}

// Notes the component at the end of the trail, and what stands in it as deep as there is room.
#[cycle(walk)]
fn note_all(
    alloc: Global,
    out: &mut Notes,
    address: u64,
    trail: &[Frame<'_>],
    component: &Component<'_>,
    room: u32,
) -> Result<(), AllocError>
    requires { address ≤ 4294967297 }
    ensures registers { OnOk result (out.new.registers.items ≡ out.old.registers.items ++ over spec.register_at room address trail.now component.now) }
    ensures misplaced { OnOk result (out.new.misplaced.items ≡ out.old.misplaced.items ++ over misplaced_at room address trail.now component.now) }
{
    note_one(alloc, out, address, trail, component)?;
    if room == 0 {
        return Ok(());
    }
    note_inside(alloc, out, address, trail, component, room - 1)
}

fn notes_below(alloc: Global, top: &Option<Component<'_>>) -> Result<Notes, AllocError>
    ensures registers { IfOk result (λ n. n.registers.items ≡ spec.registers_below top.now) }
    ensures misplaced { IfOk result (λ n. n.misplaced.items ≡ misplaced_below top.now) }
{
    let mut out = Notes {
        registers: Vec::new(alloc),
        misplaced: Vec::new(alloc),
    };
    match top {
        None => Ok(out),
        Some(top) => {
            note_all(alloc, &mut out, 0, &[], top, 65)?;
            Ok(out)
        }
    }
}

/// The registers of a description below its top, in the order of their instances, and the places of
/// what is misplaced there by itself.
pub fn notes_of(alloc: Global, file: &RdlFile) -> Result<Notes, AllocError>
    ensures registers { IfOk result (λ n. n.registers.items ≡ spec.registers_of file.now) }
    ensures misplaced { IfOk result (λ n. n.misplaced.items ≡ misplaced_of file.now) }
{
    let top = top_of(alloc, file)?;
    notes_below(alloc, &top)
}
