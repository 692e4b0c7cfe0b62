//! Where the fields of a register stand.

ghost use Rattle.std.specs.Prelude.{◌≡◌, ◌≤◌, ◌++◌, ◌∷◌, [], IfOk};
ghost use Rattle.std.specs.Option.{option_map};
ghost use Rattle.rdl_tree.specs.declared.tree.RdlDef.{out-RdlDef};
ghost use Rattle.rdl_text.specs.Chains.{nows};
ghost use Rattle.rdl_values.specs.Frames.{own_of, defaults_of};
ghost use Rattle.rdl_layout.specs.Bits as spec;

use bit_base::place::Place;
use rdl_text::instance::kind_of;
use rdl_text::scope::Component;
use rdl_tree::tree::{RdlMarked, RdlProp, RdlRange};
use rdl_values::field::width_at;
use rdl_values::frame::{Frame, Target, defaults_of, own_of, targets_of, trail_to};
use rdl_values::instance::{Instance, instances_of};
use std::alloc::{AllocError, Global};
use std::vec::Vec;

/// The bits of a field in its register; 129 for what lies beyond 128.
#[derive(Clone, Copy, Debug, PartialEq, Eq, Drop)]
pub struct Bits {
    pub low: u64,
    /// The bit behind the last.
    pub end: u64,
}

fn cut(number: u64) -> u64
    ensures { result ≡ spec.cut number }
{
    number.min(129)
}

fn low_to(next: u64, second: &Option<RdlMarked>) -> u64
    requires { next ≤ 129 }
    ensures low { result ≡ spec.low_to next second.now }
    ensures bound { result ≤ 129 }
{
    match second {
        None => next,
        Some(second) => cut(second.number.value),
    }
}

// The lowest bit of a field with this range, behind the one before.
fn low_of(next: u64, range: &Option<RdlRange>) -> u64
    requires { next ≤ 129 }
    ensures low { result ≡ spec.low_of next range.now }
    ensures bound { result ≤ 129 }
{
    match range {
        None => next,
        Some(range) => low_to(next, &range.second),
    }
}

fn bits_from(low: u64, width: u128) -> Bits
    requires { low ≤ 129 }
    ensures bits { result ≡ spec.bits_from low width }
    ensures bound { result.end ≤ 129 }
{
    let end = u128::from(low) + width.min(129);
    Bits {
        low,
        end: end.min(129) as u64,
    }
}

// The bits of a field, which these assignments reach.
fn width_in<'x>(
    alloc: Global,
    trail: &[Frame<'x>],
    targets: &'x [Target<'x>],
    own: &'x [&'x RdlProp],
    defaults: &'x [&'x RdlProp],
    instance: &'x Instance<'x>,
) -> Result<u128, AllocError>
    requires own { nows own.now ≡ own_of (out-RdlDef instance.now.component.definition).items }
    requires defaults { nows defaults.now ≡ defaults_of instance.now.component.chain }
    ensures { IfOk result (λ n. n ≡ spec.width_of trail.now targets.now instance.now) }
{
    let frame = Frame {
        inst: instance.inst,
        kind: kind_of(&instance.component),
        index: 0,
        targets,
        own,
        defaults,
    };
    let trail = trail_to(alloc, trail, frame)?;
    Ok(width_at(trail.as_slice()))
}

fn width_of(
    alloc: Global,
    trail: &[Frame<'_>],
    targets: &[Target<'_>],
    instance: &Instance<'_>,
) -> Result<u128, AllocError>
    ensures { IfOk result (λ n. n ≡ spec.width_of trail.now targets.now instance.now) }
{
    let own = own_of(alloc, instance.component.definition.items.as_slice())?;
    let defaults = defaults_of(alloc, instance.component.chain.as_slice())?;
    width_in(
        alloc,
        &*trail,
        &*targets,
        own.as_slice(),
        defaults.as_slice(),
        &*instance,
    )
}

/// The bits of a field behind those of the one before, in the register at the end of the trail.
pub fn bits_of(
    alloc: Global,
    trail: &[Frame<'_>],
    targets: &[Target<'_>],
    next: u64,
    instance: &Instance<'_>,
) -> Result<Bits, AllocError>
    requires { next ≤ 129 }
    ensures bits { IfOk result (λ b. b ≡ spec.bits_of trail.now targets.now next instance.now) }
    ensures bound { IfOk result (λ b. b.end ≤ 129) }
{
    let inst = instance.inst;
    let width = width_of(alloc, trail, targets, instance)?;
    Ok(bits_from(low_of(next, &inst.range), width))
}

fn is_crossed(a: Bits, b: Bits) -> bool
    ensures { result ≡ spec.is_crossed a b }
{
    a.low < b.end && b.low < a.end
}

fn is_across(access: u64, bits: Bits) -> bool
    ensures { result ≡ spec.is_across access bits }
{
    if access == 0 {
        false
    } else {
        bits.low / access != bits.end.saturating_sub(1) / access
    }
}

// Whether the bits are those of one of these fields too.
fn is_on_one(seen: &[Bits], bits: Bits) -> bool
    ensures { result ≡ spec.is_on_one seen.now bits }
{
    seen.iter().any(|other| is_crossed(*other, bits))
}

fn is_misplaced(width: u64, access: u64, seen: &[Bits], bits: Bits) -> bool
    ensures { result ≡ spec.is_misplaced width access seen.now bits }
{
    let outside = width < bits.end;
    let across = is_across(access, bits);
    let on_one = is_on_one(seen, bits);
    outside | across | on_one
}

/// The place of the first of a register's fields that is outside of it, across bus words, or on one
/// before.
pub fn misplaced_in(
    alloc: Global,
    trail: &[Frame<'_>],
    targets: &[Target<'_>],
    width: u64,
    access: u64,
    instances: &[Instance<'_>],
) -> Result<Option<Place>, AllocError>
    ensures { IfOk result (λ p. p ≡ spec.misplaced_in trail.now targets.now width access [] 0 instances.now) }
{
    let mut seen = Vec::new(alloc);
    let mut next = 0;
    for instance in instances {
        let bits = bits_of(alloc, trail, targets, next, instance)?;
        if is_misplaced(width, access, seen.as_slice(), bits) {
            let inst = instance.inst;
            return Ok(Some(inst.name.place));
        }
        seen.push(bits)?;
        next = bits.end;
    }
    Ok(None)
}

fn sum_of(so_far: u64, bits: Bits) -> u64
    requires so_far { so_far ≤ 4097 }
    requires bits { bits.end ≤ 129 }
    ensures sum { result ≡ spec.sum_of so_far bits }
    ensures bound { result ≤ 4097 }
{
    (so_far + bits.end.saturating_sub(bits.low)).min(4097)
}

// The bits of fields together, counted up to 4,097.
fn bits_in(
    alloc: Global,
    trail: &[Frame<'_>],
    targets: &[Target<'_>],
    instances: &[Instance<'_>],
) -> Result<u64, AllocError>
    ensures bits { IfOk result (λ n. n ≡ spec.bits_in trail.now targets.now 0 0 instances.now) }
    ensures bound { IfOk result (λ n. n ≤ 4097) }
{
    let mut so_far = 0;
    let mut next = 0;
    for instance in instances {
        let bits = bits_of(alloc, trail, targets, next, instance)?;
        so_far = sum_of(so_far, bits);
        next = bits.end;
    }
    Ok(so_far)
}

/// The bits of the fields of the register at the end of the trail, counted up to 4,097.
pub fn bits_at(
    alloc: Global,
    trail: &[Frame<'_>],
    component: &Component<'_>,
) -> Result<u64, AllocError>
    ensures bits { IfOk result (λ n. n ≡ spec.bits_at trail.now component.now) }
    ensures bound { IfOk result (λ n. n ≤ 4097) }
{
    let targets = targets_of(alloc, component.definition.items.as_slice())?;
    let instances = instances_of(alloc, component)?;
    bits_in(alloc, trail, targets.as_slice(), instances.as_slice())
}
