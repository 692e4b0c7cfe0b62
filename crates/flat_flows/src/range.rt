//! Rows of flat bits: nets, and selects of them.

ghost use Rattle.std.specs.Prelude.{◌≡◌, ℕ, ◌≤◌, ◌+◌, Bool, List, min, map, not, OnOk, IfOk};
ghost use Rattle.bit_base.specs.Numbers.{number_of};
ghost use Rattle.flat_design.specs.declared.net.Net as declared;
ghost use Rattle.flat_design.specs.Bits.{net_at, of_net, offset_of, selected};
ghost use Rattle.flat_design.specs.Reads.{select_bits, constant_in};
ghost use Rattle.flat_flows.specs.Tables.{Grows};
ghost use Rattle.flat_flows.specs.Ranges.{in_range, constant_is};

use crate::bit_set::BitSet;
use crate::marks::Marks;
use bit_base::bits::Bits;
use bit_words::bitwise::{not_of, sign_of};
use bit_words::moves::{extended_to, number_at_most};
use flat_design::expr::{FlatExpr, FlatNode};
use flat_design::net::Net;
use std::alloc::{AllocError, Global};

/// Flat bits in one row: from `first` on, and below `end`.
#[derive(Clone, Copy, Debug, PartialEq, Eq, Drop)]
pub struct BitRange {
    pub first: usize,
    pub end: usize,
}

/// More than any place of a net: places are counted up to here.
const FAR: u64 = 1 << 40;

/// The row of no bit.
const NONE: BitRange = BitRange { first: 0, end: 0 };

/// What a constant is: its word at its size; `None` where the expression is no `Constant`.
pub fn constant_of(alloc: Global, e: &FlatExpr) -> Result<Option<Bits>, AllocError>
    ensures { (nets : List declared.Net) → IfOk result (λ o. constant_is e.now.signed o (constant_in nets e.now)) }
{
    match &e.node {
        FlatNode::Constant(bits) => {
            let word = extended_to(alloc, e.size, false, bits.as_slice())?;
            Ok(Some(word))
        }
        _ => Ok(None),
    }
}

/// The bits of a net.
fn whole(net: &Net) -> BitRange
    ensures { (i : ℕ) → in_range result i ≡ of_net net.now i }
{
    let first = net.first as usize;
    BitRange {
        first,
        end: first + net.width as usize,
    }
}

/// So many bits of a net from a place on, in the numbering of its declaration; `FAR` stands for all places from there on.
fn from_place(net: &Net, place: u64, width: u32) -> BitRange
    requires { place ≤ FAR }
    ensures { (n : ℕ) → place ≡ min n FAR → (i : ℕ) → in_range result i ≡ selected net.now (n, net.now.lsb) width i }
{
    let lsb = net.lsb as u64;
    let low = place.saturating_sub(lsb);
    let high = (place + width as u64).saturating_sub(lsb);
    let first = net.first as usize;
    BitRange {
        first: first + low as usize,
        end: first + high.min(net.width as u64) as usize,
    }
}

/// So many bits of a net from a place on that lies `below + 1` places before place 0; `FAR` stands for all from there on.
fn from_before(net: &Net, below: u64, width: u32) -> BitRange
    requires { below ≤ FAR }
    ensures { (n m p : ℕ) → below ≡ min m FAR → n + m + 1 ≡ p → (i : ℕ) → in_range result i ≡ selected net.now (n, net.now.lsb + p) width i }
{
    let high = (width as u64).saturating_sub(net.lsb as u64 + below + 1);
    let first = net.first as usize;
    BitRange {
        first,
        end: first + high.min(net.width as u64) as usize,
    }
}

/// So many bits of a net from a constant index on.
fn from_index(
    alloc: Global,
    net: &Net,
    signed: bool,
    index: &[bool],
    width: u32,
) -> Result<BitRange, AllocError>
    ensures { IfOk result (λ r. (i : ℕ) → in_range r i ≡ selected net.now (offset_of signed index.now net.now.lsb) width i) }
{
    if signed && sign_of(index) {
        let other = not_of(alloc, index)?;
        let below = number_at_most(other.as_slice(), FAR);
        return Ok(from_before(net, below, width));
    }
    let place = number_at_most(index, FAR);
    Ok(from_place(net, place, width))
}

/// The bits of the net of a number; none where there is no such net.
pub fn net_range(nets: &[Net], net: u32) -> BitRange
    ensures { (i : ℕ) → in_range result i ≡ of_net (net_at nets.now net) i }
{
    match nets.get(net as usize) {
        None => NONE,
        Some(net) => whole(net),
    }
}

/// The lowest bits of the net of a number, so many.
pub fn low_range(nets: &[Net], net: u32, width: u32) -> BitRange
    ensures { (i : ℕ) → in_range result i ≡ selected (net_at nets.now net) (0, 0) width i }
{
    match nets.get(net as usize) {
        None => NONE,
        Some(net) => lowest(net, width),
    }
}

/// The lowest bits of a net, so many.
fn lowest(net: &Net, width: u32) -> BitRange
    ensures { (i : ℕ) → in_range result i ≡ selected net.now (0, 0) width i }
{
    let first = net.first as usize;
    BitRange {
        first,
        end: first + net.width.min(width) as usize,
    }
}

/// The bits of a select: of the whole net where its index isn't constant.
pub fn select_range(
    alloc: Global,
    nets: &[Net],
    net: u32,
    index: &FlatExpr,
    width: u32,
) -> Result<BitRange, AllocError>
    ensures { IfOk result (λ r. (i : ℕ) → in_range r i ≡ select_bits (net_at nets.now net) (constant_in nets.now index.now) width i) }
{
    let Some(net) = nets.get(net as usize) else {
        return Ok(NONE);
    };
    match constant_of(alloc, index)? {
        None => Ok(whole(net)),
        Some(word) => from_index(alloc, net, index.signed, word.as_slice(), width),
    }
}

/// Adds the bits of a row that aren't shut out.
pub fn add_range(range: BitRange, shut: &Marks, into: &mut BitSet) -> Result<(), AllocError>
    ensures { OnOk result (Grows into.old (in_range range) shut.now into.new) }
{
    for i in range.first..range.end {
        if !shut.has(i) {
            into.add(i)?;
        }
    }
    Ok(())
}
