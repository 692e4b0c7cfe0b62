//! Operators whose results are put behind a row of bits, least first (IEEE 1364-2005, 5.1).

ghost use Rattle.std.specs.Prelude.{◌≡◌, ◌&&◌, ◌++◌, ◌≤◌, ◌%◌, ◌^◌, true, [], ◌∷◌, length, map, min, not, replicate, OnOk, if◌then◌else◌};
ghost use Rattle.bit_base.specs.Numbers.{number_of, low_bits};
ghost use Rattle.bit_base.specs.Operators.{each_place, shifted_left, shifted_right};
ghost use Rattle.flat_design.specs.Values.{unary_value, binary_value};
ghost use Rattle.flat_words.specs.Applies as spec;

use bit_base::bits::number_of_places;
use bit_words::bitwise::{are_all, is_any, is_equal, is_odd, sign_of};
use bit_words::moves::number_at_most;
use bit_words::numbers::is_less;
use bit_words::signed::is_less_signed;
use flat_design::expr::{FlatBinary, FlatUnary};
use std::alloc::AllocError;
use std::vec::Vec;

/// The most bits of a word that is shifted.
const WIDEST: u64 = 2048;

/// What `&`, `^`, `~^` and `|` make of two bits.
fn place_value(op: FlatBinary, x: bool, y: bool) -> bool
    ensures { result ≡ spec.place_value op x y }
{
    match op {
        FlatBinary::And => x && y,
        FlatBinary::Xor => x != y,
        FlatBinary::Xnor => x == y,
        _ => x || y,
    }
}

/// Puts what an operator that goes place by place makes of two words of one size behind the row.
pub fn push_places(
    row: &mut Vec<bool>,
    op: FlatBinary,
    a: &[bool],
    b: &[bool],
) -> Result<(), AllocError>
    requires { length a.now ≡ length b.now }
    ensures { OnOk result (row.new.items ≡ row.old.items ++ each_place (spec.place_value op) a.now b.now) }
{
    for i in 0..a.len() {
        row.push(place_value(op, a[i], b[i]))?;
    }
    Ok(())
}

/// Puts `~a` behind the row.
pub fn push_not(row: &mut Vec<bool>, a: &[bool]) -> Result<(), AllocError>
    ensures { OnOk result (row.new.items ≡ row.old.items ++ map not a.now) }
{
    for x in a {
        row.push(!*x)?;
    }
    Ok(())
}

/// Puts the lowest bits of a number, so many, behind the row.
pub fn push_low(row: &mut Vec<bool>, number: u128, width: usize) -> Result<(), AllocError>
    ensures { OnOk result (row.new.items ≡ row.old.items ++ low_bits width number) }
{
    let mut rest = number;
    for _place in 0..width {
        row.push(rest % 2 == 1)?;
        rest /= 2;
    }
    Ok(())
}

/// How many places a word of at most `WIDEST` bits is shifted by: no more than it has.
fn places_moved(amount: &[bool], a: &[bool]) -> usize
    requires { length a.now ≤ 2048 }
    ensures { result ≡ min (number_of amount.now) (length a.now) }
{
    let places = number_at_most(amount, WIDEST) as usize;
    places.min(a.len())
}

/// Puts a bit so many times behind the row.
#[tactic(auto, using(crate::proofs::Behind::filled))]
fn push_fill(row: &mut Vec<bool>, count: usize, bit: bool) -> Result<(), AllocError>
    requires { count ≤ 4294967296 }
    ensures { OnOk result (row.new.items ≡ row.old.items ++ replicate count bit) }
{
    let long = row.len() + count;
    row.resize(long, bit)
}

/// Puts `a << amount` behind the row: the amount is unsigned, of any length.
#[tactic(auto, using(crate::proofs::Behind::moved_left))]
pub fn push_left(row: &mut Vec<bool>, amount: &[bool], a: &[bool]) -> Result<(), AllocError>
    requires { length a.now ≤ 2048 }
    ensures { OnOk result (row.new.items ≡ row.old.items ++ shifted_left (number_of amount.now) a.now) }
{
    let come_in = places_moved(amount, a);
    push_fill(row, come_in, false)?;
    row.extend_from_slice(&a[..a.len() - come_in])
}

/// Puts `a >> amount`, or `a >>> amount` where the fill is the sign, behind the row.
#[tactic(auto, using(crate::proofs::Behind::moved_right))]
pub fn push_right(
    row: &mut Vec<bool>,
    amount: &[bool],
    fill: bool,
    a: &[bool],
) -> Result<(), AllocError>
    requires { length a.now ≤ 2048 }
    ensures { OnOk result (row.new.items ≡ row.old.items ++ shifted_right (number_of amount.now) fill a.now) }
{
    let come_in = places_moved(amount, a);
    row.extend_from_slice(&a[come_in..])?;
    push_fill(row, come_in, fill)
}

/// What a comparison or a logical operator says; `signed` where both operands are signed.
pub fn says(op: FlatBinary, signed: bool, a: &[bool], b: &[bool]) -> bool
    requires { spec.binary_applies op (length a.now) (length b.now) ≡ true }
    ensures { result ≡ spec.says op signed a.now b.now }
{
    match op {
        FlatBinary::Less => orders(signed, a, b),
        FlatBinary::LessEqual => !orders(signed, b, a),
        FlatBinary::Greater => orders(signed, b, a),
        FlatBinary::GreaterEqual => !orders(signed, a, b),
        FlatBinary::Equal => is_equal(a, b),
        FlatBinary::NotEqual => !is_equal(a, b),
        FlatBinary::LogicalAnd => is_any(a) && is_any(b),
        _ => is_any(a) || is_any(b),
    }
}

fn orders(signed: bool, a: &[bool], b: &[bool]) -> bool
    requires left { length a.now ≤ 128 }
    requires right { length b.now ≤ 128 }
    ensures { result ≡ spec.is_before signed a.now b.now }
{
    if signed {
        is_less_signed(a, b)
    } else {
        is_less(a, b)
    }
}
