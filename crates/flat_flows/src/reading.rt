//! The bits that an expression and a left side read.

ghost use Rattle.std.specs.Prelude.{◌≡◌, OnOk, map};
ghost use Rattle.flat_design.specs.Reads.{reads, read, either_reads};
ghost use Rattle.flat_design.specs.Flows.{left_reads, part_reads};
ghost use Rattle.flat_flows.specs.Tables.{Grows};

use crate::bit_set::BitSet;
use crate::marks::Marks;
use crate::range::{add_range, net_range, select_range};
use flat_design::expr::{FlatExpr, FlatNode};
use flat_design::net::Net;
use flat_design::stmt::FlatLeft;
use std::alloc::{AllocError, Global};

/// Adds the bits that these expressions read and that aren't shut out.
#[cycle(reads)]
fn add_all_reads(
    alloc: Global,
    nets: &[Net],
    parts: &[FlatExpr],
    shut: &Marks,
    into: &mut BitSet,
) -> Result<(), AllocError>
    ensures { OnOk result (Grows into.old (either_reads (map (read nets.now) parts.now)) shut.now into.new) }
{
    for part in parts {
        add_reads(alloc, nets, part, shut, into)?;
    }
    Ok(())
}

/// Adds the bits that an expression reads and that aren't shut out.
#[cycle(reads)]
pub fn add_reads(
    alloc: Global,
    nets: &[Net],
    e: &FlatExpr,
    shut: &Marks,
    into: &mut BitSet,
) -> Result<(), AllocError>
    ensures { OnOk result (Grows into.old (reads nets.now e.now) shut.now into.new) }
{
    match &e.node {
        FlatNode::Constant(_) => Ok(()),
        FlatNode::Net(net) => add_range(net_range(nets, *net), shut, into),
        FlatNode::Select { net, index, width } => {
            let range = select_range(alloc, nets, *net, index.get(), *width)?;
            add_range(range, shut, into)?;
            add_reads(alloc, nets, index.get(), shut, into)
        }
        FlatNode::Unary { op: _, arg } => add_reads(alloc, nets, arg.get(), shut, into),
        FlatNode::Binary { op: _, left, right } => {
            add_reads(alloc, nets, left.get(), shut, into)?;
            add_reads(alloc, nets, right.get(), shut, into)
        }
        FlatNode::Choice { test, yes, no } => {
            add_reads(alloc, nets, test.get(), shut, into)?;
            add_reads(alloc, nets, yes.get(), shut, into)?;
            add_reads(alloc, nets, no.get(), shut, into)
        }
        FlatNode::Join { count: _, parts } => {
            add_all_reads(alloc, nets, parts.as_slice(), shut, into)
        }
        FlatNode::Resize { arg, by_sign: _ } => add_reads(alloc, nets, arg.get(), shut, into),
    }
}

/// Adds the bits that the index of a part of a left side reads and that aren't shut out.
fn add_part_reads(
    alloc: Global,
    nets: &[Net],
    part: &FlatLeft,
    shut: &Marks,
    into: &mut BitSet,
) -> Result<(), AllocError>
    ensures { OnOk result (Grows into.old (part_reads nets.now part.now) shut.now into.new) }
{
    match &part.index {
        None => Ok(()),
        Some(index) => add_reads(alloc, nets, index, shut, into),
    }
}

/// Adds the bits that the indexes of a left side read and that aren't shut out.
pub fn add_left_reads(
    alloc: Global,
    nets: &[Net],
    left: &[FlatLeft],
    shut: &Marks,
    into: &mut BitSet,
) -> Result<(), AllocError>
    ensures { OnOk result (Grows into.old (left_reads nets.now left.now) shut.now into.new) }
{
    for part in left {
        add_part_reads(alloc, nets, part, shut, into)?;
    }
    Ok(())
}
