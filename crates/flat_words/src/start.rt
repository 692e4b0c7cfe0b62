//! Where a select of a net begins (IEEE 1364-2005, 5.2.1).

ghost use Rattle.std.specs.Prelude.{◌≡◌, ◌+◌, ◌<◌, ◌≤◌, ◌++◌, ℕ, List, OnOk, IfOk, min, map, not};
ghost use Rattle.bit_base.specs.Numbers.{number_of};
ghost use Rattle.flat_design.specs.Bits.{offset_of, bit_at, bits_from};
ghost use Rattle.flat_words.specs.Tables.{in_table};
ghost use Rattle.flat_words.specs.Starts as spec;

use crate::rows::push_not;
use bit_words::bitwise::sign_of;
use bit_words::moves::number_at_most;
use flat_design::net::Net;
use std::alloc::AllocError;
use std::vec::Vec;

/// Where a select begins: its bit k is bit `plus + k - minus` of the net.
#[derive(Clone, Copy, Debug, PartialEq, Eq, Drop)]
pub struct Start {
    pub plus: u64,
    pub minus: u64,
    pub ghost near: { plus ≤ 8589934592 },
}

/// More than any bit of a select: places before place 0 are told from each other up to here.
const FAR: u64 = 1 << 40;

/// The place behind the last one of a net.
fn end_of(net: &Net) -> u64
    ensures end { result ≡ net.now.lsb + net.now.width }
    ensures near { result ≤ 8589934592 }
{
    net.lsb as u64 + net.width as u64
}

/// A select from a place on, in the numbering of the declaration; the end of the net stands for all places from there on.
fn from_place(net: &Net, place: u64) -> Start
    requires near { place ≤ 8589934592 }
    ensures { (n : ℕ) → place ≡ min n (net.now.lsb + net.now.width) → spec.AreAlike net.now (n, net.now.lsb) (result.plus, result.minus) }
{
    Start {
        plus: place,
        minus: net.lsb as u64,
    }
}

/// A select from a place on that lies `below + 1` places before place 0; `FAR` stands for all from there on.
fn from_before(net: &Net, below: u64) -> Start
    requires { below ≤ FAR }
    ensures { (n m p : ℕ) → below ≡ min m FAR → n + m + 1 ≡ p → spec.AreAlike net.now (n, net.now.lsb + p) (result.plus, result.minus) }
{
    Start {
        plus: 0,
        minus: net.lsb as u64 + below + 1,
    }
}

/// A select from an index on, which is read by its sign; `row` is room to count in.
pub fn start_at(
    row: &mut Vec<bool>,
    net: &Net,
    signed: bool,
    index: &[bool],
) -> Result<Start, AllocError>
    ensures { IfOk result (λ s. spec.AreAlike net.now (offset_of signed index.now net.now.lsb) (s.plus, s.minus)) }
{
    if signed && sign_of(index) {
        row.clear();
        push_not(row, index)?;
        let below = number_at_most(row.as_slice(), FAR);
        return Ok(from_before(net, below));
    }
    let place = number_at_most(index, end_of(net));
    Ok(from_place(net, place))
}

/// A bit of a table; false past its end.
pub fn table_bit(table: &[bool], i: usize) -> bool
    ensures { result ≡ in_table table.now i }
{
    match table.get(i) {
        None => false,
        Some(bit) => *bit,
    }
}

/// What bit k of a select reads: false outside the net.
fn bit_read(table: &[bool], net: &Net, start: Start, k: u32) -> bool
    ensures { result ≡ bit_at (in_table table.now) net.now (start.plus, start.minus) k }
{
    let place = start.plus + k as u64;
    if place < start.minus {
        return false;
    }
    let place = place - start.minus;
    if place < net.width as u64 {
        table_bit(table, net.first as usize + place as usize)
    } else {
        false
    }
}

/// Puts the bits of a select, so many, behind the row.
pub fn push_select(
    row: &mut Vec<bool>,
    table: &[bool],
    net: &Net,
    start: Start,
    width: u32,
) -> Result<(), AllocError>
    ensures { OnOk result (row.new.items ≡ row.old.items ++ bits_from (bit_at (in_table table.now) net.now (start.plus, start.minus)) 0 width) }
{
    for k in 0..width {
        row.push(bit_read(table, net, start, k))?;
    }
    Ok(())
}
