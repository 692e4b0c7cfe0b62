//! Expressions of eight bits.

ghost use Rattle.std.specs.Prelude.{◌≡◌, ◌<◌};
ghost use Rattle.trace_replay.specs.Expression.{expression_value, wire_value, combined, digit_value};

use crate::pins::Pins;
use sqlite_items::Boxed;

/// A wire of one bit that an expression may repeat eight times.
#[derive(Clone, Copy)]
pub enum Wire {
    ResetN,
    Select,
    Enable,
    Write,
    Address0,
    Address1,
}

/// An operator on two vectors, bit by bit.
#[derive(Clone, Copy)]
pub enum Operator {
    And,
    Or,
    Xor,
}

/// An expression of eight bits: the register, PWDATA, a wire repeated eight times, a constant of two
/// hexadecimal digits (their bytes, the high one first), the inverse of an expression, or two that
/// are combined bit by bit.
#[derive(Drop)]
pub enum Expression {
    Register,
    WriteData,
    Repeated(Wire),
    Constant(u8, u8),
    Not(Boxed<Expression>),
    Pair(Operator, Boxed<Expression>, Boxed<Expression>),
}

impl Wire {
    /// Its value at these pins.
    pub fn value(self, pins: Pins) -> bool
        ensures { result ≡ wire_value self pins }
    {
        match self {
            Wire::ResetN => pins.reset_n,
            Wire::Select => pins.bus.select,
            Wire::Enable => pins.bus.enable,
            Wire::Write => pins.bus.write,
            Wire::Address0 => pins.bus.address % 2 == 1,
            Wire::Address1 => pins.bus.address / 2 % 2 == 1,
        }
    }
}

impl Operator {
    /// The two numbers combined bit by bit.
    pub fn combined(self, left: u8, right: u8) -> u8
        ensures { result ≡ combined self left right }
    {
        match self {
            Operator::And => left & right,
            Operator::Or => left | right,
            Operator::Xor => left ^ right,
        }
    }
}

/// The value of a hexadecimal digit, in either case; 0 for another byte.
fn digit_value(byte: u8) -> u8
    ensures value { result ≡ digit_value byte }
    ensures small { result < 16 }
{
    match byte {
        b'0'..=b'9' => byte - b'0',
        b'A'..=b'F' => byte - b'A' + 10,
        b'a'..=b'f' => byte - b'a' + 10,
        _ => 0,
    }
}

impl Expression {
    /// Its value at these pins, where the register holds `register`.
    pub fn value(&self, pins: Pins, register: u8) -> u8
        ensures { result ≡ expression_value self.now pins register }
    {
        match self {
            Expression::Register => register,
            Expression::WriteData => (pins.bus.payload % 256) as u8,
            Expression::Repeated(wire) => if wire.value(pins) { 255 } else { 0 },
            Expression::Constant(high, low) => 16 * digit_value(*high) + digit_value(*low),
            Expression::Not(inner) => 255 - inner.get().value(pins, register),
            Expression::Pair(operator, left, right) => {
                operator.combined(
                    left.get().value(pins, register),
                    right.get().value(pins, register),
                )
            }
        }
    }
}
