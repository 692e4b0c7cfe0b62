//! Where a path leads from an instance, and which references are refused.

ghost use Rattle.std.specs.Prelude.{◌≡◌, ◌++◌, ◌∷◌, [], Some, IfOk};
ghost use Rattle.std.specs.Option.{option_map};
ghost use Rattle.rdl_text.specs.Properties.{row_of};
ghost use Rattle.rdl_text.specs.References.{reference_in};
ghost use Rattle.rdl_tree.specs.declared.tree.RdlDef.{out-RdlDef};
ghost use Rattle.rdl_text.specs.Chains.{nows};
ghost use Rattle.rdl_values.specs.Frames.{frame_of, own_of, defaults_of};
ghost use Rattle.rdl_effects.specs.References as spec;

use rdl_text::instance::kind_of;
use rdl_text::property::{Form, Row, row_of};
use rdl_text::reference::reference_in;
use rdl_text::scope::Component;
use rdl_tree::tree::{RdlAssigned, RdlIndex, RdlNextStep, RdlPath, RdlProp, RdlStep, RdlValue};
use rdl_values::field::{starts_known, width_at};
use rdl_values::frame::{Frame, Target, defaults_of, own_of, targets_of, trail_to};
use rdl_values::instance::{Instance, count_of, instances_of};
use rdl_values::value::names;
use std::alloc::{AllocError, Global};

/// What is asked of a field that a reference names.
#[derive(Clone, Copy, Debug, PartialEq, Eq, Drop)]
pub struct Facts {
    /// Its bits.
    pub width: u128,
    /// Whether its value is known after reset.
    pub known: bool,
}

fn index_in(index: &Option<RdlIndex>) -> u64
    ensures { result ≡ spec.index_in index.now }
{
    match index {
        None => 0,
        Some(index) => index.number.value,
    }
}

fn is_element(step: &RdlStep, instance: &Instance<'_>) -> bool
    ensures { result ≡ spec.is_element step.now instance.now }
{
    let index = index_in(&step.index);
    names(step, kind_of(&instance.component), instance.inst, index) && index < count_of(instance)
}

// The instance of which the step names an element.
fn instance_in<'b, 'a>(step: &RdlStep, instances: &'b [Instance<'a>]) -> Option<&'b Instance<'a>>
    ensures { option_map (λ i. i.now) result ≡ spec.instance_in step.now instances.now }
{
    for instance in instances {
        if is_element(step, instance) {
            return Some(instance);
        }
    }
    None
}

fn facts_at(trail: &[Frame<'_>]) -> Facts
    ensures { result ≡ spec.facts_at trail.now }
{
    Facts {
        width: width_at(trail),
        known: starts_known(trail),
    }
}

// What is asked of the field to which further steps lead from the instance at the end of the trail.
#[cycle(along)]
fn facts_on(
    alloc: Global,
    trail: &[Frame<'_>],
    component: &Component<'_>,
    more: &[RdlNextStep],
) -> Result<Option<Facts>, AllocError>
    ensures { IfOk result (λ f. f ≡ option_map spec.facts_at (spec.steps_on trail.now component.now more.now)) }
{
    match more {
        [] => Ok(Some(facts_at(trail))),
        [next, rest @ ..] => facts_along(alloc, trail, component, &next.step, rest),
    }
}

// The same from an element of an instance, which these assignments reach.
#[cycle(along)]
fn facts_in<'x>(
    alloc: Global,
    up: &[Frame<'x>],
    targets: &'x [Target<'x>],
    own: &'x [&'x RdlProp],
    defaults: &'x [&'x RdlProp],
    instance: &'x Instance<'x>,
    index: u64,
    more: &[RdlNextStep],
) -> Result<Option<Facts>, AllocError>
    requires own { nows own.now ≡ own_of (out-RdlDef instance.now.component.definition).items }
    requires defaults { nows defaults.now ≡ defaults_of instance.now.component.chain }
    ensures { IfOk result (λ f. f ≡ option_map spec.facts_at (spec.steps_on (up.now ++ frame_of targets.now instance.now index ∷ []) instance.now.component more.now)) }
{
    let frame = Frame {
        inst: instance.inst,
        kind: kind_of(&instance.component),
        index,
        targets,
        own,
        defaults,
    };
    let trail = trail_to(alloc, up, frame)?;
    facts_on(alloc, trail.as_slice(), &instance.component, more)
}

// The same, with what its component's body and the text around it assign.
#[cycle(along)]
fn facts_below(
    alloc: Global,
    up: &[Frame<'_>],
    targets: &[Target<'_>],
    instance: &Instance<'_>,
    index: u64,
    more: &[RdlNextStep],
) -> Result<Option<Facts>, AllocError>
    ensures { IfOk result (λ f. f ≡ option_map spec.facts_at (spec.steps_on (up.now ++ frame_of targets.now instance.now index ∷ []) instance.now.component more.now)) }
{
    let own = own_of(alloc, instance.component.definition.items.as_slice())?;
    let defaults = defaults_of(alloc, instance.component.chain.as_slice())?;
    facts_in(
        alloc,
        &*up,
        &*targets,
        own.as_slice(),
        defaults.as_slice(),
        &*instance,
        index,
        more,
    )
}

// What is asked of the field to which the steps lead from the instance at the end of the trail.
#[cycle(along)]
fn facts_along(
    alloc: Global,
    up: &[Frame<'_>],
    component: &Component<'_>,
    step: &RdlStep,
    more: &[RdlNextStep],
) -> Result<Option<Facts>, AllocError>
    ensures { IfOk result (λ f. f ≡ option_map spec.facts_at (spec.steps_from up.now component.now step.now more.now)) }
{
    let targets = targets_of(alloc, component.definition.items.as_slice())?;
    let instances = instances_of(alloc, component)?;
    match instance_in(step, instances.as_slice()) {
        None => Ok(None),
        Some(instance) => facts_below(
            alloc,
            &*up,
            targets.as_slice(),
            instance,
            index_in(&step.index),
            more,
        ),
    }
}

// What is asked of the field to which the path leads.
fn facts_by(
    alloc: Global,
    up: &[Frame<'_>],
    component: &Component<'_>,
    path: &RdlPath,
) -> Result<Option<Facts>, AllocError>
    ensures { IfOk result (λ f. f ≡ spec.facts_by up.now component.now path.now) }
{
    facts_along(alloc, up, component, &path.first, path.more.as_slice())
}

fn is_reduced(value: &RdlValue) -> bool
    ensures { result ≡ spec.is_reduced value.now }
{
    matches!(value, RdlValue::Reference(_, Some(_)))
}

fn is_reduced_given(value: &Option<RdlAssigned>) -> bool
    ensures { result ≡ spec.is_reduced_given value.now }
{
    match value {
        None => false,
        Some(assigned) => is_reduced(&assigned.value),
    }
}

// Whether a field that is referred to has as many bits as the property of the other asks for.
fn has_bits(form: Form, value: &Option<RdlAssigned>, field: Facts, other: Facts) -> bool
    ensures { result ≡ spec.has_bits form value.now field other }
{
    match form {
        Form::Whole => field.width == other.width,
        _ => is_reduced_given(value) || other.width == 1,
    }
}

fn is_misfit(
    form: Form,
    value: &Option<RdlAssigned>,
    field: Option<Facts>,
    other: Option<Facts>,
) -> bool
    ensures { result ≡ spec.is_misfit form value.now field other }
{
    match (field, other) {
        (Some(field), Some(other)) => !other.known || !has_bits(form, value, field, other),
        _ => false,
    }
}

// Whether the reference that a property of a path is assigned, if it is one, is refused.
fn is_misreferred_by(
    alloc: Global,
    trail: &[Frame<'_>],
    component: &Component<'_>,
    path: &RdlPath,
    value: &Option<RdlAssigned>,
    row: Option<Row>,
) -> Result<bool, AllocError>
    ensures { IfOk result (λ b. b ≡ spec.is_misreferred_by trail.now component.now path.now value.now row) }
{
    match row {
        None => Ok(false),
        Some(row) => match reference_in(row.form, value) {
            None => Ok(false),
            Some(to) => {
                let field = facts_by(alloc, trail, component, path)?;
                let other = facts_by(alloc, trail, component, to)?;
                Ok(is_misfit(row.form, value, field, other))
            }
        },
    }
}

/// Whether an assignment to a path, in the body of the instance at the end of the trail, has a
/// reference that is refused: of other bits than the property asks for, or to a field whose value
/// isn't known after reset.
pub fn is_misreferred(
    alloc: Global,
    trail: &[Frame<'_>],
    component: &Component<'_>,
    path: &RdlPath,
    prop: &RdlProp,
) -> Result<bool, AllocError>
    ensures { IfOk result (λ b. b ≡ spec.is_misreferred trail.now component.now path.now prop.now) }
{
    let row = row_of(prop.name.text.as_bytes());
    is_misreferred_by(alloc, trail, component, path, &prop.value, row)
}
