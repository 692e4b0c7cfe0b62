//! Operators and functions by their tokens (IEEE 1364-2005, 5.1).

ghost use Rattle.std.specs.Prelude.{◌≡◌};
ghost use Rattle.vlog_tree.specs.Terminals.{level_of};
ghost use Rattle.vlog_const.specs.Sized as spec;

use vlog_tree::token::VToken;
use vlog_values::operators::{Function, Infix, Prefix};

/// The operator before its operand with these bytes.
pub fn prefix_of(mark: &[u8]) -> Prefix
    ensures { result ≡ spec.prefix_of mark.now }
{
    match mark {
        b"+" => Prefix::Plus,
        b"-" => Prefix::Minus,
        b"!" => Prefix::LogicalNot,
        b"~" => Prefix::Not,
        b"&" => Prefix::All,
        b"~&" => Prefix::NotAll,
        b"|" => Prefix::Any,
        b"~|" => Prefix::NotAny,
        b"^" => Prefix::Parity,
        _ => Prefix::NotParity,
    }
}

fn arithmetic_of(mark: &[u8]) -> Infix
    ensures { result ≡ spec.arithmetic_of mark.now }
{
    match mark {
        b"**" => Infix::Power,
        b"*" => Infix::Multiply,
        b"/" => Infix::Divide,
        b"%" => Infix::Remainder,
        b"+" => Infix::Add,
        _ => Infix::Subtract,
    }
}

fn shift_of(mark: &[u8]) -> Infix
    ensures { result ≡ spec.shift_of mark.now }
{
    match mark {
        b">>" => Infix::ShiftRight,
        b">>>" => Infix::ShiftSigned,
        _ => Infix::ShiftLeft,
    }
}

fn comparison_of(mark: &[u8]) -> Infix
    ensures { result ≡ spec.comparison_of mark.now }
{
    match mark {
        b"<" => Infix::Less,
        b"<=" => Infix::LessEqual,
        b">" => Infix::Greater,
        b">=" => Infix::GreaterEqual,
        b"==" | b"===" => Infix::Equal,
        _ => Infix::NotEqual,
    }
}

fn bitwise_of(mark: &[u8]) -> Infix
    ensures { result ≡ spec.bitwise_of mark.now }
{
    match mark {
        b"&" => Infix::And,
        b"^" => Infix::Xor,
        b"|" => Infix::Or,
        b"&&" => Infix::LogicalAnd,
        b"||" => Infix::LogicalOr,
        _ => Infix::Xnor,
    }
}

/// The operator between its operands.
pub fn infix_of(operator: &VToken) -> Infix
    ensures { result ≡ spec.infix_at (level_of operator.now) operator.now.text }
{
    infix_at(operator.level(), operator.text.as_bytes())
}

fn infix_at(level: u8, mark: &[u8]) -> Infix
    ensures { result ≡ spec.infix_at level mark.now }
{
    if level <= 3 {
        arithmetic_of(mark)
    } else if level <= 4 {
        shift_of(mark)
    } else if level <= 6 {
        comparison_of(mark)
    } else {
        bitwise_of(mark)
    }
}

/// The system function of this name.
pub fn function_named(name: &[u8]) -> Function
    ensures { result ≡ spec.function_named name.now }
{
    if name == b"$clog2".as_slice() {
        Function::Clog2
    } else if name == b"$signed".as_slice() {
        Function::Signed
    } else {
        Function::Unsigned
    }
}
