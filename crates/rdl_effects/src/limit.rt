//! The limit on the instances of a description.

ghost use Rattle.std.specs.Prelude.{◌≡◌, ◌+◌, ◌≤◌, ◌<◌, ◌*◌, min, IfOk};
ghost use Rattle.rdl_effects.specs.Limits as spec;

use rdl_text::instance::kind_of;
use rdl_text::scope::Component;
use rdl_tree::tree::RdlFile;
use rdl_values::instance::{Instance, count_of, instances_of, top_of};
use std::alloc::{AllocError, Global};

// One more than the greatest number of instances.
const TOO_MANY: u64 = 1_048_577;

fn cut(number: u64) -> u64
    ensures { result ≡ spec.cut number }
{
    number.min(TOO_MANY)
}

// So many times one more than the number, cut.
fn times(count: u64, inner: u64) -> u64
    requires { inner ≤ 1048577 }
    ensures { result ≡ spec.cut (count * (1 + inner)) }
{
    if count > 1_048_576 {
        TOO_MANY
    } else {
        cut(count * (1 + inner))
    }
}

// An instance with those inside of it, cut.
#[cycle(count)]
fn number_with(alloc: Global, instance: &Instance<'_>, room: u32) -> Result<u64, AllocError>
    ensures { IfOk result (λ n. n ≡ spec.cut (spec.number_with (spec.number_inside room) instance.now)) }
{
    if kind_of(&instance.component).is_field() {
        return Ok(0);
    }
    let count = count_of(instance);
    if count == 0 {
        return Ok(0);
    }
    let inside = number_inside(alloc, &instance.component, room)?;
    Ok(times(count, inside))
}

// The instances inside of one, cut; too many where there is no room for them.
#[cycle(count)]
fn number_inside(alloc: Global, component: &Component<'_>, room: u32) -> Result<u64, AllocError>
    ensures { IfOk result (λ n. n ≡ spec.cut (spec.number_inside room component.now)) }
{
    if room == 0 {
        return Ok(1_048_576);
    }
    number_in(alloc, component, room - 1)
}

// These instances with those inside of them, cut.
#[cycle(count)]
fn numbers_with(alloc: Global, instances: &[Instance<'_>], room: u32) -> Result<u64, AllocError>
    ensures { IfOk result (λ n. n ≡ spec.cut (spec.numbers_with (spec.number_inside room) instances.now)) }
{
    let mut total = 0;
    for instance in instances {
        total = cut(total + number_with(alloc, instance, room)?);
        if total == TOO_MANY {
            return Ok(total);
        }
    }
    Ok(total)
}

// The instances below a component, cut.
#[cycle(count)]
fn number_in(alloc: Global, component: &Component<'_>, room: u32) -> Result<u64, AllocError>
    ensures { IfOk result (λ n. n ≡ spec.cut (spec.number_in room component.now)) }
{
    let instances = instances_of(alloc, component)?;
    numbers_with(alloc, instances.as_slice(), room)
}

fn number_below(alloc: Global, top: &Option<Component<'_>>) -> Result<u64, AllocError>
    ensures { IfOk result (λ n. n ≡ spec.cut (spec.number_below top.now)) }
{
    match top {
        None => Ok(0),
        Some(top) => number_in(alloc, top, 64),
    }
}

/// Whether a description has more instances below its top than 1,048,576, elements of arrays counted
/// and fields not, or instances that nest over 64 deep.
pub fn has_too_many(alloc: Global, file: &RdlFile) -> Result<bool, AllocError>
    ensures { IfOk result (λ b. b ≡ spec.has_too_many file.now) }
{
    let top = top_of(alloc, file)?;
    let number = number_below(alloc, &top)?;
    Ok(number > 1_048_576)
}
