//! The paths of fields, and of what references name.

ghost use Rattle.std.specs.Prelude.{◌≡◌, ◌++◌, ◌∷◌, drop, map, IfOk, OnOk};
ghost use Rattle.std.specs.Option.{option_map};
ghost use Rattle.std.specs.Fmt.{decimal};
ghost use Rattle.field_policies.specs.FieldPath.{step_text, index_text};
ghost use Rattle.rdl_fields.specs.Paths as spec;

use bit_base::text::{Text, text_of};
use itoa::Buffer;
use rdl_tree::tree::{RdlIndex, RdlNextStep, RdlPath, RdlStep};
use rdl_values::frame::Frame;
use std::alloc::{AllocError, Global};
use std::vec::Vec;

fn push_number(out: &mut Vec<u8>, number: u64) -> Result<(), AllocError>
    ensures { OnOk result (out.new.items ≡ out.old.items ++ decimal number) }
{
    let mut buffer = Buffer::new();
    out.extend_from_slice(buffer.format(number).as_bytes())?;
    Ok(())
}

fn push_index(out: &mut Vec<u8>, index: Option<u64>) -> Result<(), AllocError>
    ensures { OnOk result (out.new.items ≡ out.old.items ++ index_text (option_map decimal index)) }
{
    match index {
        None => Ok(()),
        Some(index) => {
            out.push(b'[')?;
            push_number(out, index)?;
            out.push(b']')?;
            Ok(())
        }
    }
}

// Appends a dot and a step.
fn push_step(out: &mut Vec<u8>, name: &[u8], index: Option<u64>) -> Result<(), AllocError>
    ensures { OnOk result (out.new.items ≡ out.old.items ++ 46 ∷ step_text (spec.step_by name.now index)) }
{
    out.push(b'.')?;
    out.extend_from_slice(name)?;
    push_index(out, index)
}

fn element_of(frame: &Frame<'_>) -> Option<u64>
    ensures { result ≡ spec.element_of frame.now }
{
    let inst = frame.inst;
    if !frame.kind.is_field() && inst.range.is_some() {
        Some(frame.index)
    } else {
        None
    }
}

fn push_frame(out: &mut Vec<u8>, frame: &Frame<'_>) -> Result<(), AllocError>
    ensures { OnOk result (out.new.items ≡ out.old.items ++ 46 ∷ step_text (spec.step_of frame.now)) }
{
    let inst = frame.inst;
    push_step(out, inst.name.text.as_bytes(), element_of(frame))
}

fn push_frames(out: &mut Vec<u8>, trail: &[Frame<'_>]) -> Result<(), AllocError>
    ensures { OnOk result (out.new.items ≡ out.old.items ++ spec.dotted (map spec.step_of trail.now)) }
{
    for frame in trail {
        push_frame(out, frame)?;
    }
    Ok(())
}

fn number_of(index: &Option<RdlIndex>) -> Option<u64>
    ensures { result ≡ option_map (λ i. i.number.value) index.now }
{
    match index {
        None => None,
        Some(index) => Some(index.number.value),
    }
}

fn push_named(out: &mut Vec<u8>, step: &RdlStep) -> Result<(), AllocError>
    ensures { OnOk result (out.new.items ≡ out.old.items ++ 46 ∷ step_text (spec.named_step step.now)) }
{
    push_step(out, step.name.text.as_bytes(), number_of(&step.index))
}

fn push_next(out: &mut Vec<u8>, more: &[RdlNextStep]) -> Result<(), AllocError>
    ensures { OnOk result (out.new.items ≡ out.old.items ++ spec.dotted (map spec.next_step more.now)) }
{
    for next in more {
        push_named(out, &next.step)?;
    }
    Ok(())
}

fn push_path(out: &mut Vec<u8>, path: &RdlPath) -> Result<(), AllocError>
    ensures { OnOk result (out.new.items ≡ out.old.items ++ spec.dotted (spec.named_steps path.now)) }
{
    push_named(out, &path.first)?;
    push_next(out, path.more.as_slice())
}

fn without_dot(bytes: &[u8]) -> &[u8]
    ensures { result.now ≡ drop 1 bytes.now }
{
    match bytes {
        [] => bytes,
        [_, rest @ ..] => rest,
    }
}

/// The path of the instance at the end of a trail.
#[tactic(auto, using(crate::proofs::Paths::path_dotted))]
pub fn path_at(alloc: Global, trail: &[Frame<'_>]) -> Result<Text, AllocError>
    ensures { IfOk result (λ path. path ≡ spec.path_at trail.now) }
{
    let mut out = Vec::new(alloc);
    push_frames(&mut out, trail)?;
    let path = text_of(alloc, without_dot(out.as_slice()))?;
    Ok(path)
}

/// The path of what a reference from the instance at the end of a trail names.
#[tactic(auto, using(crate::proofs::Paths::path_dotted, crate::proofs::Paths::dotted_append))]
pub fn target_of(alloc: Global, up: &[Frame<'_>], path: &RdlPath) -> Result<Text, AllocError>
    ensures { IfOk result (λ target. target ≡ spec.target_of up.now path.now) }
{
    let mut out = Vec::new(alloc);
    push_frames(&mut out, up)?;
    push_path(&mut out, path)?;
    let target = text_of(alloc, without_dot(out.as_slice()))?;
    Ok(target)
}
