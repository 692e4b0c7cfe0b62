//! The bits that a left side drives, and those that it is sure to assign.

ghost use Rattle.std.specs.Prelude.{◌≡◌, ℕ, Bool, List, not, ◌&&◌, ◌||◌, is_some, OnOk, IfOk};
ghost use Rattle.flat_design.specs.declared.net.Net as declared;
ghost use Rattle.flat_design.specs.Bits.{net_at, selected};
ghost use Rattle.flat_design.specs.Reads.{constant_in};
ghost use Rattle.flat_design.specs.Flows as spec;
ghost use Rattle.flat_orders.specs.Orders.{among};
ghost use Rattle.flat_flows.specs.Tables.{in_table, Gains};
ghost use Rattle.flat_flows.specs.Ranges.{in_range};

use crate::bit_set::BitSet;
use crate::marks::Marks;
use crate::range::{BitRange, low_range, select_range};
use flat_design::expr::{FlatExpr, FlatNode};
use flat_design::net::Net;
use flat_design::stmt::FlatLeft;
use std::alloc::{AllocError, Global};
use std::vec::Vec;

/// Whether an expression is a `Constant`.
pub fn is_constant(e: &FlatExpr) -> bool
    ensures { (nets : List declared.Net) → result ≡ is_some (constant_in nets e.now) }
{
    match &e.node {
        FlatNode::Constant(_) => true,
        _ => false,
    }
}

/// Whether a part of a left side is sure to write its bits: its index, if it has one, is constant.
fn is_fixed(part: &FlatLeft) -> bool
    ensures { (nets : List declared.Net) → result ≡ spec.is_fixed nets part.now.index }
{
    match &part.index {
        None => true,
        Some(index) => is_constant(index),
    }
}

/// The bits of a part of a left side: of the whole net where its index isn't constant.
fn part_range(alloc: Global, nets: &[Net], part: &FlatLeft) -> Result<BitRange, AllocError>
    ensures { IfOk result (λ r. (i : ℕ) → in_range r i ≡ spec.part_drives nets.now part.now i) }
{
    match &part.index {
        None => Ok(low_range(nets, part.net, part.width)),
        Some(index) => select_range(alloc, nets, part.net, index, part.width),
    }
}

/// Adds the bits of a row.
fn add_row(range: BitRange, into: &mut BitSet) -> Result<(), AllocError>
    ensures { OnOk result (Gains into.old (in_range range) into.new) }
{
    for i in range.first..range.end {
        into.add(i)?;
    }
    Ok(())
}

/// Adds the bits that a left side drives.
pub fn add_left_drives(
    alloc: Global,
    nets: &[Net],
    left: &[FlatLeft],
    into: &mut BitSet,
) -> Result<(), AllocError>
    ensures { OnOk result (Gains into.old (spec.left_drives nets.now left.now) into.new) }
{
    for part in left {
        let range = part_range(alloc, nets, part)?;
        add_row(range, into)?;
    }
    Ok(())
}

/// Adds to a list the bits of a row that aren't shut out.
fn list_range(range: BitRange, shut: &Marks, into: &mut Vec<usize>) -> Result<(), AllocError>
    ensures { OnOk result ((i : ℕ) → among i into.new.items ≡ (among i into.old.items || (in_range range i && not (in_table shut.now i)))) }
{
    for i in range.first..range.end {
        if !shut.has(i) {
            into.push(i)?;
        }
    }
    Ok(())
}

/// Adds to a list the bits that a part is sure to write and that aren't shut out.
fn list_part_fixes(
    alloc: Global,
    nets: &[Net],
    part: &FlatLeft,
    shut: &Marks,
    into: &mut Vec<usize>,
) -> Result<(), AllocError>
    ensures { OnOk result ((i : ℕ) → among i into.new.items ≡ (among i into.old.items || (spec.part_fixes nets.now part.now i && not (in_table shut.now i)))) }
{
    if !is_fixed(part) {
        return Ok(());
    }
    let range = part_range(alloc, nets, part)?;
    list_range(range, shut, into)
}

/// The bits that a left side is sure to write and that aren't shut out.
pub fn left_fixes(
    alloc: Global,
    nets: &[Net],
    left: &[FlatLeft],
    shut: &Marks,
) -> Result<Vec<usize>, AllocError>
    ensures { IfOk result (λ fixed. (i : ℕ) → among i fixed.items ≡ (spec.left_fixes nets.now left.now i && not (in_table shut.now i))) }
{
    let mut fixed = Vec::new(alloc);
    for part in left {
        list_part_fixes(alloc, nets, part, shut, &mut fixed)?;
    }
    Ok(fixed)
}
