//! Effective values.

ghost use Rattle.std.specs.Prelude.{◌≡◌, ◌≤◌, length, false, None};
ghost use Rattle.rdl_tree.specs.declared.tree.RdlProp.{RdlProp};
ghost use Rattle.std.specs.Option.{option_map, option_and_then};
ghost use Rattle.rdl_text.specs.Chains.{nows};
ghost use Rattle.rdl_text.specs.Lists.{or_else};
ghost use Rattle.rdl_text.specs.Properties.{row_of};
ghost use Rattle.rdl_values.specs.Values as spec;

use crate::frame::{Frame, Target};
use rdl_text::assignment::is_property;
use rdl_text::form::takes_assigned;
use rdl_text::instance::Body;
use rdl_text::property::{Property, row_of};
use rdl_tree::tree::{
    RdlAssigned, RdlIndex, RdlInst, RdlMarked, RdlNextStep, RdlPath, RdlProp, RdlStep, RdlValue,
};

/// The frame of the instance itself.
pub fn here_of<'b, 'a>(trail: &'b [Frame<'a>]) -> Option<&'b Frame<'a>>
    ensures { option_map (λ f. f.now) result ≡ spec.here_of trail.now }
{
    match trail {
        [] => None,
        [.., last] => Some(last),
    }
}

fn is_array(kind: Body, inst: &RdlInst) -> bool
    ensures { result ≡ spec.is_array kind inst.now }
{
    !kind.is_field() && inst.range.is_some()
}

// Whether a step with this index names the element of this number.
fn is_index(of_array: bool, element: u64, index: &Option<RdlIndex>) -> bool
    ensures { result ≡ spec.is_index of_array element index.now }
{
    match index {
        None => !of_array,
        Some(index) => of_array && index.number.value == element,
    }
}

/// Whether the step names this element of an instance with a component of this kind.
pub fn names(step: &RdlStep, kind: Body, inst: &RdlInst, element: u64) -> bool
    ensures { result ≡ spec.names step.now kind inst.now element }
{
    inst.name.is_text(step.name.text.as_bytes())
        && is_index(is_array(kind, inst), element, &step.index)
}

fn fits_step(step: &RdlStep, frame: &Frame<'_>) -> bool
    ensures { result ≡ spec.fits_step step.now frame.now }
{
    names(step, frame.kind, frame.inst, frame.index)
}

// Whether as many steps name the frames, one by one.
fn fit_equal_steps(steps: &[RdlNextStep], frames: &[Frame<'_>]) -> bool
    requires { length steps.now ≡ length frames.now }
    ensures { result ≡ spec.fit_steps steps.now frames.now }
{
    for at in 0..steps.len() {
        if !fits_step(&steps[at].step, &frames[at]) {
            return false;
        }
    }
    true
}

#[tactic(auto, using(crate::proofs::Steps::unlike))]
fn fit_steps(steps: &[RdlNextStep], frames: &[Frame<'_>]) -> bool
    ensures { result ≡ spec.fit_steps steps.now frames.now }
{
    if steps.len() == frames.len() {
        fit_equal_steps(steps, frames)
    } else {
        false
    }
}

fn leads_along(path: &RdlPath, frames: &[Frame<'_>]) -> bool
    ensures { result ≡ spec.leads_along path.now frames.now }
{
    match frames {
        [] => false,
        [first, more @ ..] => {
            fits_step(&path.first, first) && fit_steps(path.more.as_slice(), more)
        }
    }
}

// The first assignment of the property among these.
fn assigned_in<'a>(property: Property, props: &[&'a RdlProp]) -> Option<&'a RdlProp>
    ensures { option_map (λ x. x.now) result ≡ spec.assigned_in property (nows props.now) }
{
    for at in 0..props.len() {
        if is_property(property, props[at]) {
            return Some(props[at]);
        }
    }
    None
}

// The last assignment of the property among these.
fn last_in<'a>(property: Property, props: &[&'a RdlProp]) -> Option<&'a RdlProp>
    ensures { option_map (λ x. x.now) result ≡ spec.last_in property (nows props.now) }
{
    let mut found = None;
    for at in 0..props.len() {
        if is_property(property, props[at]) {
            found = Some(props[at]);
        }
    }
    found
}

// The assignment of the property to a path along these frames.
fn target_in<'a>(
    property: Property,
    frames: &[Frame<'a>],
    targets: &[Target<'a>],
) -> Option<&'a RdlProp>
    ensures { option_map (λ x. x.now) result ≡ spec.target_in property frames.now targets.now }
{
    for at in 0..targets.len() {
        let target = &targets[at];
        if is_property(property, target.prop) && leads_along(target.path, frames) {
            return Some(target.prop);
        }
    }
    None
}

// The outermost assignment to a path that leads to the end of the trail.
fn dynamic_at<'a>(trail: &[Frame<'a>], property: Property) -> Option<&'a RdlProp>
    ensures { option_map (λ x. x.now) result ≡ spec.dynamic_at trail.now property }
{
    for at in 0..trail.len() {
        let frame = &trail[at];
        let found = target_in(property, &trail[at..], frame.targets);
        if let Some(prop) = found {
            return Some(prop);
        }
    }
    None
}

/// How many instances of a trail stand around the body with the outermost assignment to a path that
/// leads to its end; all of them where there is none.
pub fn depth_at(trail: &[Frame<'_>], property: Property) -> usize
    ensures depth { result ≡ spec.depth_at trail.now property }
    ensures inside { result ≤ length trail.now }
{
    for depth in 0..trail.len() {
        let outer = &trail[depth];
        if target_in(property, &trail[depth..], outer.targets).is_some() {
            return depth;
        }
    }
    trail.len()
}

fn own_at<'a>(trail: &[Frame<'a>], property: Property) -> Option<&'a RdlProp>
    ensures { option_map (λ x. x.now) result ≡ spec.own_at trail.now property }
{
    match here_of(trail) {
        None => None,
        Some(frame) => assigned_in(property, frame.own),
    }
}

fn default_at<'a>(trail: &[Frame<'a>], property: Property) -> Option<&'a RdlProp>
    ensures { option_map (λ x. x.now) result ≡ spec.default_at trail.now property }
{
    match here_of(trail) {
        None => None,
        Some(frame) => last_in(property, frame.defaults),
    }
}

fn takes(referable: bool, prop: &RdlProp) -> bool
    ensures { result ≡ spec.takes_by referable (row_of prop.now.name.text) prop.now }
{
    match row_of(prop.name.text.as_bytes()) {
        None => false,
        Some(row) => takes_assigned(referable, row.form, &prop.value),
    }
}

// The assignment, where the property takes its value.
fn right(referable: bool, prop: &RdlProp) -> Option<&RdlProp>
    ensures { option_map (λ x. x.now) result ≡ spec.right referable prop.now }
{
    if takes(referable, prop) {
        Some(prop)
    } else {
        None
    }
}

fn or_else<'a>(first: Option<&'a RdlProp>, other: Option<&'a RdlProp>) -> Option<&'a RdlProp>
    ensures { option_map (λ x. x.now) result ≡ or_else {A = RdlProp} (option_map (λ x. x.now) first.entry) (option_map (λ x. x.now) other.entry) }
{
    match first {
        None => other,
        Some(prop) => Some(prop),
    }
}

fn right_of<'a>(other: Option<&'a RdlProp>) -> Option<&'a RdlProp>
    ensures { option_map (λ x. x.now) result ≡ option_and_then (spec.right false) (option_map (λ x. x.now) other.entry) }
{
    match other {
        None => None,
        Some(prop) => right(false, prop),
    }
}

/// The effective assignment of a property at the end of a trail.
pub fn assigned_at<'a>(trail: &[Frame<'a>], property: Property) -> Option<&'a RdlProp>
    ensures { option_map (λ x. x.now) result ≡ spec.assigned_at trail.now property }
{
    let dynamic = dynamic_at(trail, property);
    match dynamic {
        Some(prop) => right(true, prop),
        None => right_of(or_else(own_at(trail, property), default_at(trail, property))),
    }
}

fn number_in(value: &RdlValue) -> Option<u64>
    ensures { result ≡ spec.number_in value.now }
{
    match value {
        RdlValue::Num(token) => Some(token.value),
        _ => None,
    }
}

fn number_given(value: &Option<RdlAssigned>) -> Option<u64>
    ensures { result ≡ option_and_then (λ a. spec.number_in a.value) value.now }
{
    match value {
        None => None,
        Some(assigned) => number_in(&assigned.value),
    }
}

fn number_of(prop: Option<&RdlProp>) -> Option<u64>
    ensures { result ≡ option_and_then spec.number_of (option_map (λ x. x.now) prop.entry) }
{
    match prop {
        None => None,
        Some(prop) => number_given(&prop.value),
    }
}

/// The effective number of a property at the end of a trail.
pub fn number_at(trail: &[Frame<'_>], property: Property) -> Option<u64>
    ensures { result ≡ spec.number_at trail.now property }
{
    number_of(assigned_at(trail, property))
}

fn marked_number(marked: &Option<RdlMarked>) -> Option<u64>
    ensures { result ≡ spec.marked_number marked.now }
{
    match marked {
        None => None,
        Some(marked) => Some(marked.number.value),
    }
}

fn given_reset(trail: &[Frame<'_>]) -> Option<u64>
    ensures { result ≡ spec.given_reset trail.now }
{
    match here_of(trail) {
        None => None,
        Some(frame) => marked_number(&frame.inst.reset),
    }
}

// The reset where no path leads to it: from the component's body, the instance or a default.
fn reset_below(own: Option<&RdlProp>, given: Option<u64>, default: Option<&RdlProp>) -> Option<u64>
    ensures { result ≡ spec.reset_from None (option_map (λ x. x.now) own.entry) given (option_map (λ x. x.now) default.entry) }
{
    match own {
        Some(prop) => number_of(right(false, prop)),
        None => match given {
            Some(number) => Some(number),
            None => number_of(right_of(default)),
        },
    }
}

/// The effective reset at the end of a trail.
pub fn reset_at(trail: &[Frame<'_>]) -> Option<u64>
    ensures { result ≡ spec.reset_at trail.now }
{
    let dynamic = dynamic_at(trail, Property::Reset);
    match dynamic {
        Some(prop) => number_of(right(true, prop)),
        None => reset_below(
            own_at(trail, Property::Reset),
            given_reset(trail),
            default_at(trail, Property::Reset),
        ),
    }
}

fn is_false(value: &RdlValue) -> bool
    ensures { result ≡ spec.is_false value.now }
{
    matches!(value, RdlValue::False(_))
}

fn is_false_given(value: &Option<RdlAssigned>) -> bool
    ensures { result ≡ spec.is_false_given value.now }
{
    match value {
        None => false,
        Some(assigned) => is_false(&assigned.value),
    }
}

/// Whether an assignment is there that isn't to `false`.
pub fn is_set(prop: Option<&RdlProp>) -> bool
    ensures { result ≡ spec.is_set (option_map (λ x. x.now) prop.entry) }
{
    match prop {
        None => false,
        Some(prop) => !is_false_given(&prop.value),
    }
}

/// Whether a property is in effect at the end of a trail: assigned, and not `false`.
pub fn in_effect(trail: &[Frame<'_>], property: Property) -> bool
    ensures { result ≡ spec.in_effect trail.now property }
{
    is_set(assigned_at(trail, property))
}

/// Whether one of the properties is in effect.
pub fn any_in_effect(trail: &[Frame<'_>], properties: &[Property]) -> bool
    ensures { result ≡ spec.any_in_effect trail.now properties.now }
{
    properties
        .iter()
        .any(|property| in_effect(trail, *property))
}

/// Whether both properties are in effect.
pub fn both_in_effect(trail: &[Frame<'_>], first: Property, second: Property) -> bool
    ensures { result ≡ spec.both_in_effect trail.now first second }
{
    in_effect(trail, first) && in_effect(trail, second)
}

/// Whether a property is assigned at the end of a trail.
pub fn is_assigned(trail: &[Frame<'_>], property: Property) -> bool
    ensures { result ≡ spec.is_assigned trail.now property }
{
    assigned_at(trail, property).is_some()
}
