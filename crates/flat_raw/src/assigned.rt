//! The nets that items assign.

ghost use Rattle.std.specs.Prelude.{◌≡◌, ◌++◌, map, OnOk, IfOk};
ghost use Rattle.flat_raw.specs.Assigned as spec;

use flat_design::item::FlatItem;
use flat_design::stmt::{FlatArm, FlatLeft, FlatStmt};
use sqlite_items::Boxed;
use std::alloc::{AllocError, Global};
use std::vec::Vec;

/// Puts the nets of a left side to the end.
fn push_left(out: &mut Vec<u32>, left: &[FlatLeft]) -> Result<(), AllocError>
    ensures { OnOk result (out.new.items ≡ out.old.items ++ spec.left_nets left.now) }
{
    for part in left {
        out.push(part.net)?;
    }
    Ok(())
}

#[cycle(nets)]
fn push_all(out: &mut Vec<u32>, body: &[FlatStmt]) -> Result<(), AllocError>
    ensures { OnOk result (out.new.items ≡ out.old.items ++ spec.all_nets (map spec.stmt_nets body.now)) }
{
    for stmt in body {
        push_stmt(out, stmt)?;
    }
    Ok(())
}

#[cycle(nets)]
fn push_arms(out: &mut Vec<u32>, arms: &[FlatArm]) -> Result<(), AllocError>
    ensures { OnOk result (out.new.items ≡ out.old.items ++ spec.all_nets (map spec.arm_nets arms.now)) }
{
    for arm in arms {
        push_arm(out, arm)?;
    }
    Ok(())
}

#[cycle(nets)]
fn push_arm(out: &mut Vec<u32>, arm: &FlatArm) -> Result<(), AllocError>
    ensures { OnOk result (out.new.items ≡ out.old.items ++ spec.arm_nets arm.now) }
{
    push_stmt(out, &arm.body)
}

#[cycle(nets)]
fn push_other(out: &mut Vec<u32>, other: &Option<Boxed<FlatStmt>>) -> Result<(), AllocError>
    ensures { OnOk result (out.new.items ≡ out.old.items ++ spec.option_nets other.now) }
{
    match other {
        None => Ok(()),
        Some(body) => push_stmt(out, body.get()),
    }
}

/// Puts the nets that a statement assigns to the end, in the order of the text.
#[cycle(nets)]
fn push_stmt(out: &mut Vec<u32>, stmt: &FlatStmt) -> Result<(), AllocError>
    ensures { OnOk result (out.new.items ≡ out.old.items ++ spec.stmt_nets stmt.now) }
{
    match stmt {
        FlatStmt::Block(body) => {
            let body = body.as_slice();
            push_all(out, body)
        }
        FlatStmt::Assign {
            left,
            value: _,
            later: _,
        } => {
            let left = left.as_slice();
            push_left(out, left)
        }
        FlatStmt::If { test: _, yes, no } => {
            let yes = yes.get();
            push_stmt(out, yes)?;
            push_other(out, no)
        }
        FlatStmt::Case {
            selector: _,
            arms,
            other,
        } => {
            let arms = arms.as_slice();
            push_arms(out, arms)?;
            push_other(out, other)
        }
    }
}

fn push_item(out: &mut Vec<u32>, item: &FlatItem) -> Result<(), AllocError>
    ensures { OnOk result (out.new.items ≡ out.old.items ++ spec.item_nets item.now) }
{
    match item {
        FlatItem::Assign {
            place: _,
            targets: _,
            left,
            value: _,
            connection: _,
        } => push_left(out, left.as_slice()),
        FlatItem::Comb {
            place: _,
            targets: _,
            body,
        } => push_stmt(out, body),
        FlatItem::Clocked {
            place: _,
            targets: _,
            events: _,
            body,
        } => push_stmt(out, body),
    }
}

fn push_clocked(out: &mut Vec<u32>, item: &FlatItem) -> Result<(), AllocError>
    ensures { OnOk result (out.new.items ≡ out.old.items ++ spec.clocked_item_nets item.now) }
{
    match item {
        FlatItem::Clocked {
            place: _,
            targets: _,
            events: _,
            body,
        } => push_stmt(out, body),
        FlatItem::Comb {
            place: _,
            targets: _,
            body: _,
        } => Ok(()),
        FlatItem::Assign {
            place: _,
            targets: _,
            left: _,
            value: _,
            connection: _,
        } => Ok(()),
    }
}

/// The nets that an item assigns, in the order of the text, each as often as it stands there.
pub fn item_nets(alloc: Global, item: &FlatItem) -> Result<Vec<u32>, AllocError>
    ensures { IfOk result (λ nets. nets.items ≡ spec.item_nets item.now) }
{
    let mut out = Vec::new(alloc);
    push_item(&mut out, item)?;
    Ok(out)
}

/// The nets that items assign.
pub fn assigned_nets(alloc: Global, items: &[FlatItem]) -> Result<Vec<u32>, AllocError>
    ensures { IfOk result (λ nets. nets.items ≡ spec.assigned_nets items.now) }
{
    let mut out = Vec::new(alloc);
    for item in items {
        push_item(&mut out, item)?;
    }
    Ok(out)
}

/// The nets that clocked items assign.
pub fn clocked_nets(alloc: Global, items: &[FlatItem]) -> Result<Vec<u32>, AllocError>
    ensures { IfOk result (λ nets. nets.items ≡ spec.clocked_nets items.now) }
{
    let mut out = Vec::new(alloc);
    for item in items {
        push_clocked(&mut out, item)?;
    }
    Ok(out)
}
