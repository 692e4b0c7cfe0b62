//! The bits that statements drive, as sets that are counted.

ghost use Rattle.std.specs.Prelude.{◌≡◌, ◌&&◌, ◌||◌, nat_lt, ℕ, map, false, length, slice_index_or, replicate, OnOk, IfOk};
ghost use Rattle.flat_design.specs.Bits.{bits_in};
ghost use Rattle.flat_design.specs.Flows.{part_drives, left_drives};
ghost use Rattle.flat_design.specs.Prices as spec;
ghost use Rattle.flat_flows.specs.Ranges.{in_range};
ghost use Rattle.flat_loads.specs.Parts as parts;

use flat_design::net::Net;
use flat_design::stmt::{FlatArm, FlatLeft, FlatStmt};
use flat_flows::range::{BitRange, low_range, select_range};
use flat_sets::NumberSet;
use sqlite_items::Boxed;
use std::alloc::{AllocError, Global};

/// The bits of a part of a left side: of the whole net where its index isn't constant.
pub fn part_range(alloc: Global, nets: &[Net], part: &FlatLeft) -> Result<BitRange, AllocError>
    ensures { IfOk result (λ r. (i : ℕ) → in_range r i ≡ part_drives nets.now part.now i) }
{
    match &part.index {
        None => Ok(low_range(nets, part.net, part.width)),
        Some(index) => select_range(alloc, nets, part.net, index, part.width),
    }
}

/// Adds the bits of a row, those that the set has room for.
fn add_row(set: &mut NumberSet, range: BitRange) -> Result<(), AllocError>
    ensures has { OnOk result ((i : ℕ) → slice_index_or set.new i false ≡ (slice_index_or set.old i false || (nat_lt i (length set.old) && in_range range i))) }
    ensures long { OnOk result (length set.new ≡ length set.old) }
{
    for i in range.first..range.end {
        if i < set.bound() {
            set.add(i)?;
        }
    }
    Ok(())
}

/// Adds the bits that a left side drives.
fn add_left(
    alloc: Global,
    nets: &[Net],
    set: &mut NumberSet,
    left: &[FlatLeft],
) -> Result<(), AllocError>
    ensures has { OnOk result ((i : ℕ) → slice_index_or set.new i false ≡ (slice_index_or set.old i false || (nat_lt i (length set.old) && left_drives nets.now left.now i))) }
    ensures long { OnOk result (length set.new ≡ length set.old) }
{
    for part in left {
        let range = part_range(alloc, nets, part)?;
        add_row(set, range)?;
    }
    Ok(())
}

#[cycle(drives)]
fn add_all(
    alloc: Global,
    nets: &[Net],
    set: &mut NumberSet,
    body: &[FlatStmt],
) -> Result<(), AllocError>
    ensures has { OnOk result ((i : ℕ) → slice_index_or set.new i false ≡ (slice_index_or set.old i false || (nat_lt i (length set.old) && spec.drives_of_all (map (spec.load nets.now) body.now) i))) }
    ensures long { OnOk result (length set.new ≡ length set.old) }
{
    for stmt in body {
        add_stmt(alloc, nets, set, stmt)?;
    }
    Ok(())
}

#[cycle(drives)]
fn add_arm(
    alloc: Global,
    nets: &[Net],
    set: &mut NumberSet,
    arm: &FlatArm,
) -> Result<(), AllocError>
    ensures has { OnOk result ((i : ℕ) → slice_index_or set.new i false ≡ (slice_index_or set.old i false || (nat_lt i (length set.old) && (parts.arm_load nets.now arm.now).body.drives i))) }
    ensures long { OnOk result (length set.new ≡ length set.old) }
{
    add_stmt(alloc, nets, set, &arm.body)
}

#[cycle(drives)]
fn add_arms(
    alloc: Global,
    nets: &[Net],
    set: &mut NumberSet,
    arms: &[FlatArm],
) -> Result<(), AllocError>
    ensures has { OnOk result ((i : ℕ) → slice_index_or set.new i false ≡ (slice_index_or set.old i false || (nat_lt i (length set.old) && spec.arms_drive (map (parts.arm_load nets.now) arms.now) i))) }
    ensures long { OnOk result (length set.new ≡ length set.old) }
{
    for arm in arms {
        add_arm(alloc, nets, set, arm)?;
    }
    Ok(())
}

#[cycle(drives)]
fn add_other(
    alloc: Global,
    nets: &[Net],
    set: &mut NumberSet,
    other: &Option<Boxed<FlatStmt>>,
) -> Result<(), AllocError>
    ensures has { OnOk result ((i : ℕ) → slice_index_or set.new i false ≡ (slice_index_or set.old i false || (nat_lt i (length set.old) && parts.other_drives nets.now other.now i))) }
    ensures long { OnOk result (length set.new ≡ length set.old) }
{
    match other {
        None => Ok(()),
        Some(body) => add_stmt(alloc, nets, set, body.get()),
    }
}

/// Adds the bits that a statement drives, those that the set has room for.
#[cycle(drives)]
fn add_stmt(
    alloc: Global,
    nets: &[Net],
    set: &mut NumberSet,
    stmt: &FlatStmt,
) -> Result<(), AllocError>
    ensures has { OnOk result ((i : ℕ) → slice_index_or set.new i false ≡ (slice_index_or set.old i false || (nat_lt i (length set.old) && (spec.load nets.now stmt.now).drives i))) }
    ensures long { OnOk result (length set.new ≡ length set.old) }
{
    match stmt {
        FlatStmt::Block(body) => {
            let body = body.as_slice();
            add_all(alloc, nets, set, body)
        }
        FlatStmt::Assign {
            left,
            value: _,
            later: _,
        } => {
            let left = left.as_slice();
            add_left(alloc, nets, set, left)
        }
        FlatStmt::If { test: _, yes, no } => {
            let yes = yes.get();
            add_stmt(alloc, nets, set, yes)?;
            add_other(alloc, nets, set, no)
        }
        FlatStmt::Case {
            selector: _,
            arms,
            other,
        } => {
            let arms = arms.as_slice();
            add_arms(alloc, nets, set, arms)?;
            add_other(alloc, nets, set, other)
        }
    }
}

/// How many bits the branches of an `if` drive, each counted once; the set is empty before and after, with room for all bits.
pub fn if_bits(
    alloc: Global,
    nets: &[Net],
    set: &mut NumberSet,
    yes: &FlatStmt,
    no: &Option<Boxed<FlatStmt>>,
) -> Result<usize, AllocError>
    requires { set.old ≡ replicate (bits_in nets.now) false }
    ensures bits { IfOk result (λ b. b ≡ parts.if_bits nets.now yes.now no.now) }
    ensures empty { OnOk result (set.new ≡ set.old) }
{
    add_stmt(alloc, nets, set, yes)?;
    add_other(alloc, nets, set, no)?;
    let bits = set.len();
    set.clear();
    Ok(bits)
}

/// How many bits the branches of a case drive, each counted once; the set is empty before and after, with room for all bits.
pub fn case_bits(
    alloc: Global,
    nets: &[Net],
    set: &mut NumberSet,
    arms: &[FlatArm],
    other: &Option<Boxed<FlatStmt>>,
) -> Result<usize, AllocError>
    requires { set.old ≡ replicate (bits_in nets.now) false }
    ensures bits { IfOk result (λ b. b ≡ parts.case_bits nets.now arms.now other.now) }
    ensures empty { OnOk result (set.new ≡ set.old) }
{
    add_arms(alloc, nets, set, arms)?;
    add_other(alloc, nets, set, other)?;
    let bits = set.len();
    set.clear();
    Ok(bits)
}
