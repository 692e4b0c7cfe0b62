//! What an operator makes of its operands, put behind a row of bits (IEEE 1364-2005, 5.1).

ghost use Rattle.std.specs.Prelude.{◌≡◌, ◌&&◌, ◌++◌, ◌≤◌, ◌%◌, ◌^◌, Bool, true, [], ◌∷◌, length, OnOk};
ghost use Rattle.bit_base.specs.Numbers.{number_of, low_bits};
ghost use Rattle.bit_base.specs.Operators.{sum_of, difference_of, product_of};
ghost use Rattle.flat_design.specs.Values.{unary_value, binary_value};
ghost use Rattle.flat_design.specs.declared.expr.FlatUnary.TheVariants as U;
ghost use Rattle.flat_words.specs.Applies.{unary_applies, binary_applies};

use crate::rows::{push_left, push_low, push_not, push_places, push_right, says};
use bit_base::bits::number_of_places;
use bit_words::bitwise::{are_all, is_any, is_odd, sign_of};
use flat_design::expr::{FlatBinary, FlatUnary};
use std::alloc::AllocError;
use std::vec::Vec;

/// Puts `-a`, of a word of at most 128 bits, behind the row.
#[tactic(auto, using(crate::proofs::Behind::negated))]
fn push_minus(row: &mut Vec<bool>, a: &[bool]) -> Result<(), AllocError>
    requires { length a.now ≤ 128 }
    ensures { OnOk result (row.new.items ≡ row.old.items ++ unary_value U.Minus a.now) }
{
    let none: u128 = 0;
    let negated = none.wrapping_sub(number_of_places(a));
    push_low(row, negated, a.len())
}

/// Puts what an operator makes of its operand behind the row.
pub fn push_unary(row: &mut Vec<bool>, op: FlatUnary, a: &[bool]) -> Result<(), AllocError>
    requires { unary_applies op (length a.now) ≡ true }
    ensures { OnOk result (row.new.items ≡ row.old.items ++ unary_value op a.now) }
{
    match op {
        FlatUnary::Plus => row.extend_from_slice(a),
        FlatUnary::Minus => push_minus(row, a),
        FlatUnary::Not => push_not(row, a),
        FlatUnary::LogicalNot | FlatUnary::NotAny => push_bit(row, !is_any(a)),
        FlatUnary::All => push_bit(row, are_all(a)),
        FlatUnary::NotAll => push_bit(row, !are_all(a)),
        FlatUnary::Any => push_bit(row, is_any(a)),
        FlatUnary::Parity => push_bit(row, is_odd(a)),
        FlatUnary::NotParity => push_bit(row, !is_odd(a)),
    }
}

fn push_bit(row: &mut Vec<bool>, bit: bool) -> Result<(), AllocError>
    ensures { OnOk result (row.new.items ≡ row.old.items ++ bit ∷ []) }
{
    row.push(bit)?;
    Ok(())
}

/// Puts `a + b`, of words of one size, at most 128 bits, behind the row.
#[tactic(auto, using(crate::proofs::Behind::summed))]
fn push_sum(row: &mut Vec<bool>, a: &[bool], b: &[bool]) -> Result<(), AllocError>
    requires same { length a.now ≡ length b.now }
    requires narrow { length a.now ≤ 128 }
    ensures { OnOk result (row.new.items ≡ row.old.items ++ sum_of a.now b.now) }
{
    let number = number_of_places(a).wrapping_add(number_of_places(b));
    push_low(row, number, a.len())
}

/// Puts `a - b`, of words of one size, at most 128 bits, behind the row.
#[tactic(auto, using(crate::proofs::Behind::subtracted))]
fn push_difference(row: &mut Vec<bool>, a: &[bool], b: &[bool]) -> Result<(), AllocError>
    requires same { length a.now ≡ length b.now }
    requires narrow { length a.now ≤ 128 }
    ensures { OnOk result (row.new.items ≡ row.old.items ++ difference_of a.now b.now) }
{
    let number = number_of_places(a).wrapping_sub(number_of_places(b));
    push_low(row, number, a.len())
}

/// Puts `a * b`, of words of one size, at most 128 bits, behind the row.
#[tactic(auto, using(crate::proofs::Behind::multiplied))]
fn push_product(row: &mut Vec<bool>, a: &[bool], b: &[bool]) -> Result<(), AllocError>
    requires same { length a.now ≡ length b.now }
    requires narrow { length a.now ≤ 128 }
    ensures { OnOk result (row.new.items ≡ row.old.items ++ product_of a.now b.now) }
{
    let number = number_of_places(a).wrapping_mul(number_of_places(b));
    push_low(row, number, a.len())
}

/// Puts what an operator makes of its operands behind the row; `signed` where the expression is, `by_sign` where
/// both operands are.
pub fn push_binary(
    row: &mut Vec<bool>,
    op: FlatBinary,
    signed: bool,
    by_sign: bool,
    a: &[bool],
    b: &[bool],
) -> Result<(), AllocError>
    requires { binary_applies op (length a.now) (length b.now) ≡ true }
    ensures { (x y : Bool) → by_sign ≡ (x && y) → OnOk result (row.new.items ≡ row.old.items ++ binary_value op signed (x, a.now) (y, b.now)) }
{
    match op {
        FlatBinary::Add => push_sum(row, a, b),
        FlatBinary::Sub => push_difference(row, a, b),
        FlatBinary::Mul => push_product(row, a, b),
        FlatBinary::ShiftLeft => push_left(row, b, a),
        FlatBinary::ShiftRight => push_right(row, b, false, a),
        FlatBinary::ShiftSigned => push_right(row, b, signed && sign_of(a), a),
        FlatBinary::And | FlatBinary::Xor | FlatBinary::Xnor | FlatBinary::Or => {
            push_places(row, op, a, b)
        }
        _ => push_bit(row, says(op, by_sign, a, b)),
    }
}
