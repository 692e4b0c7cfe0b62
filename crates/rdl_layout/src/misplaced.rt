//! What is misplaced by itself.

ghost use Rattle.std.specs.Prelude.{◌≡◌, ◌≤◌, ◌++◌, IfOk, OnOk};
ghost use Rattle.std.specs.Option.{option_map};
ghost use Rattle.rdl_tree.specs.Tree.{flat_kind};
ghost use Rattle.rdl_text.specs.Instances.{kind_of};
ghost use Rattle.rdl_values.specs.Instances.{instances_of};
ghost use Rattle.rdl_layout.specs.Misplaced as spec;

use crate::bits::misplaced_in;
use crate::laid::size_in;
use crate::size::{BEYOND, reach};
use bit_base::place::Place;
use rdl_effects::register::{accesswidth_at, regwidth_at};
use rdl_text::instance::{Body, kind_of};
use rdl_text::names::note_if;
use rdl_text::scope::Component;
use rdl_tree::tree::RdlKind;
use rdl_values::frame::{Frame, targets_of};
use rdl_values::instance::instances_of;
use rdl_values::value::here_of;
use std::alloc::{AllocError, Global};
use std::vec::Vec;

// The place of a kind's word.
fn word_place(kind: &RdlKind) -> Place
    ensures { result ≡ (flat_kind kind.now).place }
{
    match kind {
        RdlKind::Addrmap(word) => word.place,
        RdlKind::Regfile(word) => word.place,
        RdlKind::Reg(word) => word.place,
        RdlKind::Field(word) => word.place,
    }
}

// The place of the instance at the end of the trail, or of the top's definition.
fn place_by(component: &Component<'_>, frame: Option<&Frame<'_>>) -> Place
    ensures { result ≡ spec.place_by component.now (option_map (λ f. f.now) frame.entry) }
{
    match frame {
        None => word_place(&component.definition.kind),
        Some(frame) => frame.inst.name.place,
    }
}

// Whether the trail leads to an instance, and not to the top.
fn is_instance(trail: &[Frame<'_>]) -> bool
    ensures { result ≡ spec.is_instance trail.now }
{
    match trail {
        [] => false,
        [_, ..] => true,
    }
}

fn is_beyond(address: u64, size: u64) -> bool
    requires address { address ≤ 4294967297 }
    requires size { size ≤ 4294967297 }
    ensures { result ≡ spec.is_beyond address size }
{
    reach(address, 0, 0, size) == BEYOND
}

fn is_off(address: u64, access: u64) -> bool
    ensures { result ≡ spec.is_off address access }
{
    let bytes = access / 8;
    if bytes == 0 {
        false
    } else {
        address % bytes != 0
    }
}

fn note_place(out: &mut Vec<Place>, place: Option<Place>) -> Result<(), AllocError>
    ensures { OnOk result (out.new.items ≡ out.old.items ++ spec.place_of place) }
{
    match place {
        None => Ok(()),
        Some(place) => Ok(out.push(place)?),
    }
}

// The place of the first misplaced field of the register at the end of the trail.
fn first_field(
    alloc: Global,
    trail: &[Frame<'_>],
    component: &Component<'_>,
) -> Result<Option<Place>, AllocError>
    ensures { IfOk result (λ p. p ≡ spec.first_field trail.now component.now) }
{
    let targets = targets_of(alloc, component.definition.items.as_slice())?;
    let instances = instances_of(alloc, component)?;
    misplaced_in(
        alloc,
        trail,
        targets.as_slice(),
        regwidth_at(trail),
        accesswidth_at(trail),
        instances.as_slice(),
    )
}

// Notes what is misplaced of a register and its fields.
fn note_register(
    alloc: Global,
    out: &mut Vec<Place>,
    address: u64,
    trail: &[Frame<'_>],
    component: &Component<'_>,
    place: Place,
) -> Result<(), AllocError>
    ensures { OnOk result (out.new.items ≡ out.old.items ++ spec.in_register (kind_of component.now) address trail.now component.now place) }
{
    match kind_of(component) {
        Body::Reg => {
            note_if(out, is_off(address, accesswidth_at(trail)), place)?;
            note_place(out, first_field(alloc, trail, component)?)
        }
        _ => Ok(()),
    }
}

// Whether nothing stands in a component.
fn is_bare(alloc: Global, component: &Component<'_>) -> Result<bool, AllocError>
    ensures { IfOk result (λ b. b ≡ spec.is_none_of (instances_of component.now)) }
{
    let instances = instances_of(alloc, component)?;
    match instances.as_slice() {
        [] => Ok(true),
        [_, ..] => Ok(false),
    }
}

// Notes what is misplaced of the component at an address, with this place.
fn note_by(
    alloc: Global,
    out: &mut Vec<Place>,
    address: u64,
    trail: &[Frame<'_>],
    component: &Component<'_>,
    place: Place,
) -> Result<(), AllocError>
    requires { address ≤ 4294967297 }
    ensures { OnOk result (out.new.items ≡ out.old.items ++ spec.misplaced_by address trail.now component.now place) }
{
    let size = size_in(alloc, trail, component, 65)?;
    let beyond = is_beyond(address, size);
    note_if(out, is_instance(trail) && beyond, place)?;
    note_if(out, is_bare(alloc, component)?, place)?;
    note_register(alloc, out, address, trail, component, place)
}

/// Notes what is misplaced of the component at the end of the trail, at this address.
pub fn note_misplaced(
    alloc: Global,
    out: &mut Vec<Place>,
    address: u64,
    trail: &[Frame<'_>],
    component: &Component<'_>,
) -> Result<(), AllocError>
    requires { address ≤ 4294967297 }
    ensures { OnOk result (out.new.items ≡ out.old.items ++ spec.misplaced_at address trail.now component.now) }
{
    let place = place_by(component, here_of(trail));
    note_by(alloc, out, address, trail, component, place)
}
