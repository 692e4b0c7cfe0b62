//! The nets that statements assign by blocking and by nonblocking assignments.

ghost use Rattle.std.specs.Prelude.{◌≡◌, ◌++◌, map, OnOk, IfOk};
ghost use Rattle.flat_raw.specs.Assigned.{left_nets, all_nets};
ghost use Rattle.flat_races.specs.Assigns as spec;

use flat_design::stmt::{FlatArm, FlatLeft, FlatStmt};
use sqlite_items::Boxed;
use std::alloc::{AllocError, Global};
use std::vec::Vec;

/// Puts the nets of a left side to the end, where the assignment is of the kind.
fn push_left(
    out: &mut Vec<u32>,
    nonblocking: bool,
    later: bool,
    left: &[FlatLeft],
) -> Result<(), AllocError>
    ensures { OnOk result (out.new.items ≡ out.old.items ++ spec.nets_if nonblocking later (left_nets left.now)) }
{
    if nonblocking != later {
        return Ok(());
    }
    push_nets(out, left)
}

/// Puts the nets of a left side to the end.
fn push_nets(out: &mut Vec<u32>, left: &[FlatLeft]) -> Result<(), AllocError>
    ensures { OnOk result (out.new.items ≡ out.old.items ++ left_nets left.now) }
{
    for part in left {
        out.push(part.net)?;
    }
    Ok(())
}

#[cycle(nets)]
fn push_all(out: &mut Vec<u32>, nonblocking: bool, body: &[FlatStmt]) -> Result<(), AllocError>
    ensures { OnOk result (out.new.items ≡ out.old.items ++ all_nets (map (spec.nets_by nonblocking) body.now)) }
{
    for stmt in body {
        push_stmt(out, nonblocking, stmt)?;
    }
    Ok(())
}

#[cycle(nets)]
fn push_arms(out: &mut Vec<u32>, nonblocking: bool, arms: &[FlatArm]) -> Result<(), AllocError>
    ensures { OnOk result (out.new.items ≡ out.old.items ++ all_nets (map (spec.arm_nets_by nonblocking) arms.now)) }
{
    for arm in arms {
        push_arm(out, nonblocking, arm)?;
    }
    Ok(())
}

#[cycle(nets)]
fn push_arm(out: &mut Vec<u32>, nonblocking: bool, arm: &FlatArm) -> Result<(), AllocError>
    ensures { OnOk result (out.new.items ≡ out.old.items ++ spec.arm_nets_by nonblocking arm.now) }
{
    push_stmt(out, nonblocking, &arm.body)
}

#[cycle(nets)]
fn push_other(
    out: &mut Vec<u32>,
    nonblocking: bool,
    other: &Option<Boxed<FlatStmt>>,
) -> Result<(), AllocError>
    ensures { OnOk result (out.new.items ≡ out.old.items ++ spec.option_nets_by nonblocking other.now) }
{
    match other {
        None => Ok(()),
        Some(body) => push_stmt(out, nonblocking, body.get()),
    }
}

/// Puts the nets that a statement assigns by one kind of assignment to the end, in the order of the text.
#[cycle(nets)]
fn push_stmt(out: &mut Vec<u32>, nonblocking: bool, stmt: &FlatStmt) -> Result<(), AllocError>
    ensures { OnOk result (out.new.items ≡ out.old.items ++ spec.nets_by nonblocking stmt.now) }
{
    match stmt {
        FlatStmt::Block(body) => {
            let body = body.as_slice();
            push_all(out, nonblocking, body)
        }
        FlatStmt::Assign {
            left,
            value: _,
            later,
        } => {
            let left = left.as_slice();
            push_left(out, nonblocking, *later, left)
        }
        FlatStmt::If { test: _, yes, no } => {
            let yes = yes.get();
            push_stmt(out, nonblocking, yes)?;
            push_other(out, nonblocking, no)
        }
        FlatStmt::Case {
            selector: _,
            arms,
            other,
        } => {
            let arms = arms.as_slice();
            push_arms(out, nonblocking, arms)?;
            push_other(out, nonblocking, other)
        }
    }
}

/// The nets that a statement assigns by nonblocking assignments, or by blocking ones, each as often as it stands there.
pub fn nets_by(alloc: Global, nonblocking: bool, stmt: &FlatStmt) -> Result<Vec<u32>, AllocError>
    ensures { IfOk result (λ nets. nets.items ≡ spec.nets_by nonblocking stmt.now) }
{
    let mut out = Vec::new(alloc);
    push_stmt(&mut out, nonblocking, stmt)?;
    Ok(out)
}
