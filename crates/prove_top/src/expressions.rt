//! Reading the expressions of the first form.

ghost use Rattle.std.specs.Prelude.{◌≡◌};
ghost use Rattle.prove_top.specs.Reading.{Reads, wire_at, operator_at, repeated_at, constant_at, inverse_at, pair_at, form_at, expression_at, limited_at};

use crate::cursor::{Cursor, Stop};
use sqlite_items::Boxed;
use std::alloc::Global;
use trace_replay::expression::{Expression, Operator, Wire};

/// Within how many others an expression may lie, and how many bytes it may have.
pub(crate) const NEST_LIMIT: u32 = 60;

pub(crate) const LENGTH_LIMIT: usize = 1_900;

/// A wire.
#[tactic(auto, unfolding(crate::specs::Reading::wire_at))]
fn wire(cursor: &mut Cursor<'_>) -> Result<Wire, Stop>
    ensures { Reads (wire_at cursor.old) result cursor.new }
{
    if cursor.takes(b"rst_n".as_slice()) {
        return Ok(Wire::ResetN);
    }
    if cursor.takes(b"psel".as_slice()) {
        return Ok(Wire::Select);
    }
    if cursor.takes(b"penable".as_slice()) {
        return Ok(Wire::Enable);
    }
    if cursor.takes(b"pwrite".as_slice()) {
        return Ok(Wire::Write);
    }
    if cursor.takes(b"paddr[0]".as_slice()) {
        return Ok(Wire::Address0);
    }
    if cursor.takes(b"paddr[1]".as_slice()) {
        return Ok(Wire::Address1);
    }
    Err(Stop::Refused)
}

/// An operator between two blanks.
#[tactic(auto, unfolding(crate::specs::Reading::operator_at))]
fn operator(cursor: &mut Cursor<'_>) -> Result<Operator, Stop>
    ensures { Reads (operator_at cursor.old) result cursor.new }
{
    if cursor.takes(b" & ".as_slice()) {
        return Ok(Operator::And);
    }
    if cursor.takes(b" | ".as_slice()) {
        return Ok(Operator::Or);
    }
    if cursor.takes(b" ^ ".as_slice()) {
        return Ok(Operator::Xor);
    }
    Err(Stop::Refused)
}

/// What follows `{8{`.
#[tactic(auto, unfolding(crate::specs::Reading::repeated_at))]
fn repeated(cursor: &mut Cursor<'_>) -> Result<Expression, Stop>
    ensures { Reads (repeated_at cursor.old) result cursor.new }
{
    let wire = wire(cursor)?;
    if cursor.takes(b"}}".as_slice()) {
        Ok(Expression::Repeated(wire))
    } else {
        Err(Stop::Refused)
    }
}

/// What follows `8'h`.
#[tactic(auto, unfolding(crate::specs::Reading::constant_at))]
fn constant(cursor: &mut Cursor<'_>) -> Result<Expression, Stop>
    ensures { Reads (constant_at cursor.old) result cursor.new }
{
    let high = cursor.digit()?;
    let low = cursor.digit()?;
    Ok(Expression::Constant(high, low))
}

/// What follows `~`.
#[cycle(expression)]
#[tactic(auto, unfolding(crate::specs::Reading::inverse_at))]
fn inverse(alloc: Global, cursor: &mut Cursor<'_>, room: u32) -> Result<Expression, Stop>
    ensures { Reads (inverse_at (expression_at room) cursor.old) result cursor.new }
{
    let part = expression(alloc, cursor, room)?;
    Ok(Expression::Not(Boxed::new(alloc, part)?))
}

/// What follows `(`.
#[cycle(expression)]
#[tactic(auto, unfolding(crate::specs::Reading::pair_at))]
fn pair(alloc: Global, cursor: &mut Cursor<'_>, room: u32) -> Result<Expression, Stop>
    ensures { Reads (pair_at (expression_at room) cursor.old) result cursor.new }
{
    let left = expression(alloc, cursor, room)?;
    let operator = operator(cursor)?;
    let right = expression(alloc, cursor, room)?;
    if !cursor.takes(b")".as_slice()) {
        return Err(Stop::Refused);
    }
    let left = Boxed::new(alloc, left)?;
    let right = Boxed::new(alloc, right)?;
    Ok(Expression::Pair(operator, left, right))
}

/// An expression, whose parts have so much room.
#[cycle(expression)]
#[tactic(auto, unfolding(crate::specs::Reading::form_at))]
fn form(alloc: Global, cursor: &mut Cursor<'_>, room: u32) -> Result<Expression, Stop>
    ensures { Reads (form_at (expression_at room) cursor.old) result cursor.new }
{
    if cursor.takes(b"v".as_slice()) {
        return Ok(Expression::Register);
    }
    if cursor.takes(b"pwdata".as_slice()) {
        return Ok(Expression::WriteData);
    }
    if cursor.takes(b"{8{".as_slice()) {
        return repeated(cursor);
    }
    if cursor.takes(b"8'h".as_slice()) {
        return constant(cursor);
    }
    if cursor.takes(b"~".as_slice()) {
        return inverse(alloc, cursor, room);
    }
    if cursor.takes(b"(".as_slice()) {
        return pair(alloc, cursor, room);
    }
    Err(Stop::Refused)
}

/// An expression within so much room: an expression that lies in no other takes one.
#[cycle(expression)]
fn expression(alloc: Global, cursor: &mut Cursor<'_>, room: u32) -> Result<Expression, Stop>
    ensures { Reads (expression_at room cursor.old) result cursor.new }
{
    if room == 0 {
        return Err(Stop::Refused);
    }
    form(alloc, cursor, room - 1)
}

/// An expression of the first form.
#[tactic(auto, unfolding(crate::specs::Reading::limited_at))]
pub(crate) fn limited(alloc: Global, cursor: &mut Cursor<'_>) -> Result<Expression, Stop>
    ensures { Reads (limited_at cursor.old) result cursor.new }
{
    let before = cursor.rest().len();
    let read = expression(alloc, cursor, NEST_LIMIT + 1)?;
    let after = cursor.rest().len();
    if before.saturating_sub(after) > LENGTH_LIMIT {
        return Err(Stop::Refused);
    }
    Ok(read)
}
