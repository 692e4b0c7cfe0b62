//! What a constant expression comes to.

ghost use Rattle.std.specs.Prelude.{◌≡◌, ◌≤◌, true, None, Err, List, [], Bool, length, IfOk, map, if◌then◌else◌};
ghost use Rattle.vlog_values.specs.Steps.{Comes, behind, foremost};
ghost use Rattle.vlog_values.specs.Places.{no_values, net_bits};
ghost use Rattle.vlog_values.specs.Sizes.{size_in};
ghost use Rattle.vlog_values.specs.Constants.{constant_in, constant_site, read};
ghost use Rattle.bit_base.specs.Operators.{is_any};
ghost use Rattle.vlog_values.specs.Operations.{Both, Left, Compared, Logical};
ghost use Rattle.vlog_values.specs.Operations as operations;
ghost use Rattle.vlog_values.specs.declared.sized.SizedRepeat.{out-SizedRepeat};
ghost use Rattle.vlog_values.specs.Outcomes as spec;

use crate::checks::{
    compared_mark, count_in, fits_net, infix_mark, inside, inside_upward, is_constant_only,
    is_division, is_test, least_one, not_negative_behind, not_zero, number_width, place_in,
    prefix_limit, range_in,
};
use crate::facts::{Facts, Offence, Shape, Stop, goes_before, inner, leading};
use crate::operators::{Function, Infix, Prefix};
use crate::sized::{Signal, SizedChoice, SizedExpr, SizedNode, SizedPair, SizedRepeat};
use crate::words::{
    chosen, common_of, function_of, in_context, infix_both, infix_compared, infix_left,
    infix_logical, is_signed, no_bits, prefix_test, prefix_word, test_in_context,
};
use bit_base::bits::Bits;
use bit_base::place::Place;
use bit_words::moves::{joined, repeat};
use std::alloc::Global;
use std::convert::From;
use std::vec::Vec;
use vlog_tree::fault::VlogCode;

/// The same of an expression before which the whole has other tokens.
#[cycle(evaluate)]
fn evaluate_behind(alloc: Global, e: &SizedExpr, context: Option<Shape>) -> Result<Bits, Stop>
    ensures value { Comes (behind (constant_in context e.now)) result }
    ensures long { IfOk result (λ bits. length bits ≡ size_in context) }
{
    match evaluate(alloc, e, context) {
        Ok(bits) => Ok(bits),
        Err(Stop::NoMemory) => Err(Stop::NoMemory),
        Err(Stop::At(offence)) => Err(Stop::At(Offence {
            leads: false,
            ..offence
        })),
    }
}

/// The first offence of a whole that begins with this expression and has an offence on its first token.
#[cycle(evaluate)]
fn refusal_of(
    alloc: Global,
    e: &SizedExpr,
    context: Option<Shape>,
    code: VlogCode,
    place: Place,
) -> Stop
    ensures { Comes {A = List Bool} (Err (foremost code place (constant_in context e.now))) (Err result) }
{
    match evaluate(alloc, e, context) {
        Ok(_) => Stop::At(leading(code, place)),
        Err(Stop::NoMemory) => Stop::NoMemory,
        Err(Stop::At(offence)) => {
            if offence.leads && goes_before(offence.code, code) {
                Stop::At(offence)
            } else {
                Stop::At(leading(code, place))
            }
        }
    }
}

/// What an expression comes to at its own size.
#[cycle(evaluate)]
fn alone(alloc: Global, e: &SizedExpr) -> Result<Bits, Stop>
    ensures { Comes (spec.alone (read e.now) no_values true) result }
{
    let shape = e.facts.own_shape();
    evaluate(alloc, e, shape)
}

#[cycle(evaluate)]
fn alone_behind(alloc: Global, e: &SizedExpr) -> Result<Bits, Stop>
    ensures { Comes (behind (spec.alone (read e.now) no_values true)) result }
{
    let shape = e.facts.own_shape();
    evaluate_behind(alloc, e, shape)
}

/// The first offence of a whole that begins with this expression at its own size.
#[cycle(evaluate)]
fn refusal_alone(alloc: Global, e: &SizedExpr, code: VlogCode, place: Place) -> Stop
    ensures { Comes {A = List Bool} (Err (foremost code place (spec.alone (read e.now) no_values true))) (Err result) }
{
    let shape = e.facts.own_shape();
    refusal_of(alloc, e, shape, code, place)
}

/// What an expression that has to be constant comes to.
#[cycle(evaluate)]
pub fn constant(alloc: Global, e: &SizedExpr) -> Result<Bits, Stop>
    ensures { Comes (spec.constant_of (read e.now) no_values) result }
{
    if e.facts.names_net {
        return Err(refusal_alone(alloc, e, VlogCode::VlogConst, e.facts.place));
    }
    alone(alloc, e)
}

#[cycle(evaluate)]
fn constant_behind(alloc: Global, e: &SizedExpr) -> Result<Bits, Stop>
    ensures { Comes (behind (spec.constant_of (read e.now) no_values)) result }
{
    match constant(alloc, e) {
        Ok(bits) => Ok(bits),
        Err(Stop::NoMemory) => Err(Stop::NoMemory),
        Err(Stop::At(offence)) => Err(Stop::At(Offence {
            leads: false,
            ..offence
        })),
    }
}

/// What a count comes to, which has to be at least 1.
#[cycle(evaluate)]
pub fn count(alloc: Global, e: &SizedExpr) -> Result<Bits, Stop>
    ensures { Comes (spec.count_of (read e.now) no_values) result }
{
    let bits = constant(alloc, e)?;
    least_one(e.facts, bits.as_slice())?;
    Ok(bits)
}

#[cycle(evaluate)]
fn count_behind(alloc: Global, e: &SizedExpr) -> Result<Bits, Stop>
    ensures { Comes (behind (spec.count_of (read e.now) no_values)) result }
{
    match count(alloc, e) {
        Ok(bits) => Ok(bits),
        Err(Stop::NoMemory) => Err(Stop::NoMemory),
        Err(Stop::At(offence)) => Err(Stop::At(Offence {
            leads: false,
            ..offence
        })),
    }
}

#[cycle(evaluate)]
fn group(
    alloc: Global,
    whole: &SizedExpr,
    facts: Facts,
    context: Option<Shape>,
) -> Result<Bits, Stop>
    ensures value { Comes (spec.group_comes facts (constant_site context) (read whole.now) no_values) result }
    ensures long { IfOk result (λ bits. length bits ≡ size_in context) }
{
    if let Some(code) = facts.too_wide(2048, context) {
        return Err(Stop::At(leading(code, facts.place)));
    }
    evaluate_behind(alloc, whole, context)
}

/// An operator before its operand that gives a word.
#[cycle(evaluate)]
fn word(
    alloc: Global,
    operand: &SizedExpr,
    op: Prefix,
    facts: Facts,
    context: Option<Shape>,
) -> Result<Bits, Stop>
    ensures value { Comes (spec.word_comes op facts (constant_site context) (read operand.now) no_values) result }
    ensures long { IfOk result (λ bits. length bits ≡ size_in context) }
{
    if let Some(code) = facts.too_wide(prefix_limit(op), context) {
        return Err(Stop::At(leading(code, facts.place)));
    }
    let a = evaluate_behind(alloc, operand, context)?;
    let word = prefix_word(alloc, op, a)?;
    Ok(word)
}

/// An operator before its operand that gives one bit.
#[cycle(evaluate)]
fn test(
    alloc: Global,
    operand: &SizedExpr,
    op: Prefix,
    facts: Facts,
    context: Option<Shape>,
) -> Result<Bits, Stop>
    ensures value { Comes (spec.test_comes op facts (constant_site context) (read operand.now) no_values) result }
    ensures long { IfOk result (λ bits. length bits ≡ size_in context) }
{
    if let Some(code) = facts.too_wide(2048, context) {
        return Err(Stop::At(leading(code, facts.place)));
    }
    let a = alone_behind(alloc, operand)?;
    let word = test_in_context(alloc, context, prefix_test(op, a.as_slice()))?;
    Ok(word)
}

/// A right operand at the size of the context; a divisor mustn't be 0.
#[cycle(evaluate)]
fn divisor(alloc: Global, e: &SizedExpr, op: Infix, context: Option<Shape>) -> Result<Bits, Stop>
    ensures value { Comes (spec.divisor op (read e.now) no_values (constant_site context)) result }
    ensures long { IfOk result (λ bits. length bits ≡ size_in context) }
    ensures some { operations.is_division op ≡ true → IfOk result (λ bits. is_any bits ≡ true) }
{
    let bits = evaluate(alloc, e, context)?;
    if is_division(op) {
        not_zero(e.facts, bits.as_slice())?;
    }
    Ok(bits)
}

#[cycle(evaluate)]
fn divisor_behind(
    alloc: Global,
    e: &SizedExpr,
    op: Infix,
    context: Option<Shape>,
) -> Result<Bits, Stop>
    ensures value { Comes (behind (spec.divisor op (read e.now) no_values (constant_site context))) result }
    ensures long { IfOk result (λ bits. length bits ≡ size_in context) }
    ensures some { operations.is_division op ≡ true → IfOk result (λ bits. is_any bits ≡ true) }
{
    match divisor(alloc, e, op, context) {
        Ok(bits) => Ok(bits),
        Err(Stop::NoMemory) => Err(Stop::NoMemory),
        Err(Stop::At(offence)) => Err(Stop::At(Offence {
            leads: false,
            ..offence
        })),
    }
}

/// Both operands at the size of the context.
#[cycle(evaluate)]
fn both(
    alloc: Global,
    operands: &SizedPair,
    op: Infix,
    facts: Facts,
    context: Option<Shape>,
) -> Result<Bits, Stop>
    ensures value { Comes (spec.infix_comes op Both facts (constant_site context) (read operands.now.left) (read operands.now.right) no_values) result }
    ensures long { IfOk result (λ bits. length bits ≡ size_in context) }
{
    if let Some(code) = infix_mark(op, facts, context) {
        return Err(refusal_of(alloc, &operands.left, context, code, facts.place));
    }
    let a = evaluate(alloc, &operands.left, context)?;
    let b = divisor_behind(alloc, &operands.right, op, context)?;
    let word = infix_both(alloc, op, is_signed(context), a, b.as_slice())?;
    Ok(word)
}

/// A right operand at its own size; an exponent mustn't be negative.
#[cycle(evaluate)]
fn amount_behind(alloc: Global, e: &SizedExpr, op: Infix) -> Result<Bits, Stop>
    ensures { Comes (behind (spec.amount op (read e.now) no_values (constant_site None))) result }
{
    let bits = alone_behind(alloc, e)?;
    if is_constant_only(op) {
        not_negative_behind(e.facts, bits.as_slice())?;
    }
    Ok(bits)
}

/// The left operand at the size of the context, the right one at its own.
#[cycle(evaluate)]
fn left_sized(
    alloc: Global,
    operands: &SizedPair,
    op: Infix,
    facts: Facts,
    context: Option<Shape>,
) -> Result<Bits, Stop>
    ensures value { Comes (spec.infix_comes op Left facts (constant_site context) (read operands.now.left) (read operands.now.right) no_values) result }
    ensures long { IfOk result (λ bits. length bits ≡ size_in context) }
{
    if let Some(code) = infix_mark(op, facts, context) {
        return Err(refusal_of(alloc, &operands.left, context, code, facts.place));
    }
    let a = evaluate(alloc, &operands.left, context)?;
    let b = amount_behind(alloc, &operands.right, op)?;
    let word = infix_left(alloc, op, is_signed(context), a, b.as_slice())?;
    Ok(word)
}

/// A comparison: both operands at their greater size.
#[cycle(evaluate)]
fn compared(
    alloc: Global,
    operands: &SizedPair,
    op: Infix,
    facts: Facts,
    context: Option<Shape>,
) -> Result<Bits, Stop>
    ensures value { Comes (spec.infix_comes op Compared facts (constant_site context) (read operands.now.left) (read operands.now.right) no_values) result }
    ensures long { IfOk result (λ bits. length bits ≡ size_in context) }
{
    let common = common_of(
        operands.left.facts.own_shape(),
        operands.right.facts.own_shape(),
    );
    compared_at(alloc, operands, op, facts, context, common)
}

#[cycle(evaluate)]
fn compared_at(
    alloc: Global,
    operands: &SizedPair,
    op: Infix,
    facts: Facts,
    context: Option<Shape>,
    common: Option<Shape>,
) -> Result<Bits, Stop>
    ensures value { Comes (spec.compared_comes op facts (constant_site context) (constant_site common) (read operands.now.left) (read operands.now.right) no_values) result }
    ensures long { IfOk result (λ bits. length bits ≡ size_in context) }
{
    if let Some(code) = compared_mark(op, facts, context, common) {
        return Err(refusal_of(alloc, &operands.left, common, code, facts.place));
    }
    let a = evaluate(alloc, &operands.left, common)?;
    let b = evaluate_behind(alloc, &operands.right, common)?;
    let test = infix_compared(op, is_signed(common), a.as_slice(), b.as_slice());
    let word = test_in_context(alloc, context, test)?;
    Ok(word)
}

/// A logical operator: each operand at its own size.
#[cycle(evaluate)]
fn logical(
    alloc: Global,
    operands: &SizedPair,
    op: Infix,
    facts: Facts,
    context: Option<Shape>,
) -> Result<Bits, Stop>
    ensures value { Comes (spec.infix_comes op Logical facts (constant_site context) (read operands.now.left) (read operands.now.right) no_values) result }
    ensures long { IfOk result (λ bits. length bits ≡ size_in context) }
{
    if let Some(code) = facts.too_wide(2048, context) {
        return Err(refusal_alone(alloc, &operands.left, code, facts.place));
    }
    let a = alone(alloc, &operands.left)?;
    let b = alone_behind(alloc, &operands.right)?;
    let test = infix_logical(op, a.as_slice(), b.as_slice());
    let word = test_in_context(alloc, context, test)?;
    Ok(word)
}

/// A choice, whose test stands at its own size.
#[cycle(evaluate)]
fn choice(
    alloc: Global,
    parts: &SizedChoice,
    facts: Facts,
    context: Option<Shape>,
) -> Result<Bits, Stop>
    ensures value { Comes (spec.choice_comes facts (constant_site context) (read parts.now.test) (read parts.now.yes_value) (read parts.now.no_value) no_values) result }
    ensures long { IfOk result (λ bits. length bits ≡ size_in context) }
{
    if let Some(code) = facts.too_wide(2048, context) {
        return Err(refusal_alone(alloc, &parts.test, code, facts.place));
    }
    let c = alone(alloc, &parts.test)?;
    let a = evaluate_behind(alloc, &parts.yes_value, context)?;
    let b = evaluate_behind(alloc, &parts.no_value, context)?;
    let word = chosen(a, b, c.as_slice());
    Ok(word)
}

/// A bit of a net, which counts as 0.
#[cycle(evaluate)]
fn bit(
    alloc: Global,
    index: &SizedExpr,
    signal: Signal,
    bracket: Place,
    facts: Facts,
    context: Option<Shape>,
) -> Result<Bits, Stop>
    ensures value { Comes (spec.bit_comes signal bracket facts (constant_site context) (read index.now) no_values) result }
    ensures long { IfOk result (λ bits. length bits ≡ size_in context) }
{
    if let Some(code) = facts.too_wide(2048, context) {
        return Err(Stop::At(leading(code, facts.place)));
    }
    let at = alone_behind(alloc, index)?;
    inside(signal, bracket, index.facts, 1, at.as_slice())?;
    let word = no_bits(alloc, 1, context)?;
    Ok(word)
}

/// A range of a net, which counts as 0.
#[cycle(evaluate)]
fn range(
    alloc: Global,
    ends: &SizedPair,
    signal: Signal,
    bracket: Place,
    facts: Facts,
    context: Option<Shape>,
) -> Result<Bits, Stop>
    ensures value { Comes (spec.range_comes signal bracket facts (constant_site context) (read ends.now.left) (read ends.now.right) no_values) result }
    ensures long { IfOk result (λ bits. length bits ≡ size_in context) }
{
    if let Some(code) = facts.too_wide(2048, context) {
        return Err(Stop::At(leading(code, facts.place)));
    }
    let h = constant_behind(alloc, &ends.left)?;
    let l = constant_behind(alloc, &ends.right)?;
    let places = range_in(
        signal,
        bracket,
        place_in(ends.left.facts, h.as_slice()),
        place_in(ends.right.facts, l.as_slice()),
    )?;
    let word = no_bits(alloc, places.1, context)?;
    Ok(word)
}

/// So many bits of a net upwards, which counts as 0.
#[cycle(evaluate)]
fn upward(
    alloc: Global,
    ends: &SizedPair,
    signal: Signal,
    bracket: Place,
    facts: Facts,
    context: Option<Shape>,
) -> Result<Bits, Stop>
    ensures value { Comes (spec.upward_comes signal bracket facts (constant_site context) (read ends.now.left) (read ends.now.right) no_values) result }
    ensures long { IfOk result (λ bits. length bits ≡ size_in context) }
{
    if let Some(code) = facts.too_wide(2048, context) {
        return Err(Stop::At(leading(code, facts.place)));
    }
    fitting(alloc, &ends.right, signal, bracket)?;
    let at = alone_behind(alloc, &ends.left)?;
    let w = count_behind(alloc, &ends.right)?;
    inside_upward(
        signal,
        bracket,
        ends.left.facts,
        w.as_slice(),
        at.as_slice(),
    )?;
    let word = no_bits(alloc, u64::from(count_in(w.as_slice())), context)?;
    Ok(word)
}

/// So many bits upwards are no more than the net has, where it is known how many.
#[cycle(evaluate)]
fn fitting(alloc: Global, width: &SizedExpr, signal: Signal, bracket: Place) -> Result<(), Stop>
    ensures { Comes (spec.fitting signal bracket (spec.count_of (read width.now) no_values)) result }
{
    match count(alloc, width) {
        Ok(bits) => {
            if fits_net(signal, bits.as_slice()) {
                Ok(())
            } else {
                Err(Stop::At(inner(VlogCode::VlogConst, bracket)))
            }
        }
        Err(Stop::NoMemory) => Err(Stop::NoMemory),
        Err(Stop::At(_)) => Ok(()),
    }
}

/// A part of a concatenation, which has a size of its own.
#[cycle(evaluate)]
fn part_behind(alloc: Global, e: &SizedExpr) -> Result<Bits, Stop>
    ensures { Comes (behind (spec.part_of (read e.now) no_values true)) result }
{
    match e.facts.lone {
        None => alone_behind(alloc, e),
        Some(offence) => Err(Stop::At(Offence {
            leads: false,
            ..offence
        })),
    }
}

/// A part of a concatenation below what stands higher.
#[cycle(evaluate)]
fn part_below(alloc: Global, e: &SizedExpr, higher: &[bool]) -> Result<Bits, Stop>
    ensures { Comes (spec.below (read e.now) no_values true higher.now) result }
{
    let bits = part_behind(alloc, e)?;
    let all = joined(alloc, bits.as_slice(), higher)?;
    Ok(all)
}

/// The parts of a concatenation one after the other, the highest first; they are counted from `first`.
#[cycle(evaluate)]
fn parts(alloc: Global, list: &[SizedExpr], first: u32) -> Result<Bits, Stop>
    requires { first ≤ 1 }
    ensures { Comes (spec.parts_of (map read list.now) first no_values true []) result }
{
    let mut higher = Bits::from(Vec::new(alloc));
    for part in list {
        match part_below(alloc, part, higher.as_slice()) {
            Ok(bits) => higher = bits,
            Err(stop) => return Err(stop),
        }
    }
    Ok(higher)
}

#[cycle(evaluate)]
fn join(
    alloc: Global,
    list: &[SizedExpr],
    facts: Facts,
    context: Option<Shape>,
) -> Result<Bits, Stop>
    ensures value { Comes (spec.join_comes facts (constant_site context) (map read list.now) no_values) result }
    ensures long { IfOk result (λ bits. length bits ≡ size_in context) }
{
    if let Some(code) = facts.too_wide(2048, context) {
        return Err(Stop::At(leading(code, facts.place)));
    }
    let bits = parts(alloc, list, 0)?;
    let word = in_context(alloc, context, bits.as_slice())?;
    Ok(word)
}

#[cycle(evaluate)]
fn replication(
    alloc: Global,
    counted: &SizedRepeat,
    facts: Facts,
    context: Option<Shape>,
) -> Result<Bits, Stop>
    ensures value { Comes (spec.repeat_comes facts (constant_site context) (read (out-SizedRepeat counted.now).count) (map read (out-SizedRepeat counted.now).parts) no_values) result }
    ensures long { IfOk result (λ bits. length bits ≡ size_in context) }
{
    if let Some(code) = facts.too_wide(2048, context) {
        return Err(Stop::At(leading(code, facts.place)));
    }
    let n = count_behind(alloc, &counted.count)?;
    let bits = parts(alloc, counted.parts.as_slice(), 1)?;
    let all = repeat(alloc, count_in(n.as_slice()), bits.as_slice())?;
    let word = in_context(alloc, context, all.as_slice())?;
    Ok(word)
}

/// The argument of a system function: that of `$clog2` has to be constant.
#[cycle(evaluate)]
fn argument_behind(alloc: Global, e: &SizedExpr, function: Function) -> Result<Bits, Stop>
    ensures { Comes (behind (spec.argument_of function (read e.now) no_values true)) result }
{
    match function {
        Function::Clog2 => constant_behind(alloc, e),
        _ => alone_behind(alloc, e),
    }
}

#[cycle(evaluate)]
fn call(
    alloc: Global,
    argument: &SizedExpr,
    function: Function,
    facts: Facts,
    context: Option<Shape>,
) -> Result<Bits, Stop>
    ensures value { Comes (spec.call_comes function facts (constant_site context) (read argument.now) no_values) result }
    ensures long { IfOk result (λ bits. length bits ≡ size_in context) }
{
    if let Some(code) = facts.too_wide(2048, context) {
        return Err(Stop::At(leading(code, facts.place)));
    }
    let a = argument_behind(alloc, argument, function)?;
    let answer = function_of(alloc, function, a)?;
    let word = in_context(alloc, context, answer.as_slice())?;
    Ok(word)
}

fn number(
    alloc: Global,
    bits: &Bits,
    unknown: &Bits,
    facts: Facts,
    context: Option<Shape>,
) -> Result<Bits, Stop>
    ensures value { Comes (spec.number_outcome bits.now unknown.now facts (constant_site context) no_values) result }
    ensures long { IfOk result (λ word. length word ≡ size_in context) }
{
    let _ = unknown;
    if facts.has_unknown {
        return Err(Stop::At(leading(VlogCode::VlogConst, facts.place)));
    }
    if let Some(code) = number_width(facts, context) {
        return Err(Stop::At(leading(code, facts.place)));
    }
    let word = in_context(alloc, context, bits.as_slice())?;
    Ok(word)
}

fn constant_word(
    alloc: Global,
    bits: &Bits,
    facts: Facts,
    context: Option<Shape>,
) -> Result<Bits, Stop>
    ensures value { Comes (spec.constant_comes bits.now facts (constant_site context)) result }
    ensures long { IfOk result (λ word. length word ≡ size_in context) }
{
    if let Some(code) = facts.too_wide(2048, context) {
        return Err(Stop::At(leading(code, facts.place)));
    }
    let word = in_context(alloc, context, bits.as_slice())?;
    Ok(word)
}

fn net(alloc: Global, signal: Signal, facts: Facts, context: Option<Shape>) -> Result<Bits, Stop>
    ensures value { Comes (spec.constant_comes (net_bits no_values signal) facts (constant_site context)) result }
    ensures long { IfOk result (λ word. length word ≡ size_in context) }
{
    if let Some(code) = facts.too_wide(2048, context) {
        return Err(Stop::At(leading(code, facts.place)));
    }
    let word = no_bits(alloc, u64::from(signal.width), context)?;
    Ok(word)
}

#[cycle(evaluate)]
fn unary(
    alloc: Global,
    operand: &SizedExpr,
    op: Prefix,
    facts: Facts,
    context: Option<Shape>,
) -> Result<Bits, Stop>
    ensures value { Comes (if operations.is_test op then spec.test_comes op facts (constant_site context) (read operand.now) no_values else spec.word_comes op facts (constant_site context) (read operand.now) no_values) result }
    ensures long { IfOk result (λ bits. length bits ≡ size_in context) }
{
    if is_test(op) {
        test(alloc, operand, op, facts, context)
    } else {
        word(alloc, operand, op, facts, context)
    }
}

#[cycle(evaluate)]
fn binary(
    alloc: Global,
    operands: &SizedPair,
    op: Infix,
    facts: Facts,
    context: Option<Shape>,
) -> Result<Bits, Stop>
    ensures value { Comes (spec.infix_comes op (operations.infix_kind op) facts (constant_site context) (read operands.now.left) (read operands.now.right) no_values) result }
    ensures long { IfOk result (λ bits. length bits ≡ size_in context) }
{
    match op {
        Infix::Power | Infix::ShiftLeft | Infix::ShiftRight | Infix::ShiftSigned => {
            left_sized(alloc, operands, op, facts, context)
        }
        Infix::Less
        | Infix::LessEqual
        | Infix::Greater
        | Infix::GreaterEqual
        | Infix::Equal
        | Infix::NotEqual => compared(alloc, operands, op, facts, context),
        Infix::LogicalAnd | Infix::LogicalOr => logical(alloc, operands, op, facts, context),
        _ => both(alloc, operands, op, facts, context),
    }
}

/// What a constant expression comes to in this context, or its first offence; nets count as 0.
#[cycle(evaluate)]
pub fn evaluate(alloc: Global, e: &SizedExpr, context: Option<Shape>) -> Result<Bits, Stop>
    ensures value { Comes (constant_in context e.now) result }
    ensures long { IfOk result (λ bits. length bits ≡ size_in context) }
{
    let facts = e.facts;
    match &e.node {
        SizedNode::Missing => Err(Stop::At(leading(VlogCode::VlogName, facts.place))),
        SizedNode::Number { bits, unknown } => number(alloc, bits, unknown, facts, context),
        SizedNode::Constant(bits) => constant_word(alloc, bits, facts, context),
        SizedNode::Net(signal) => net(alloc, *signal, facts, context),
        SizedNode::Bit {
            signal,
            bracket,
            index,
        } => bit(alloc, index.get(), *signal, *bracket, facts, context),
        SizedNode::Range {
            signal,
            bracket,
            ends,
        } => range(alloc, ends.get(), *signal, *bracket, facts, context),
        SizedNode::Upward {
            signal,
            bracket,
            ends,
        } => upward(alloc, ends.get(), *signal, *bracket, facts, context),
        SizedNode::Group(whole) => group(alloc, whole.get(), facts, context),
        SizedNode::Unary { operator, operand } => {
            unary(alloc, operand.get(), *operator, facts, context)
        }
        SizedNode::Binary { operator, operands } => {
            binary(alloc, operands.get(), *operator, facts, context)
        }
        SizedNode::Choice(parts) => choice(alloc, parts.get(), facts, context),
        SizedNode::Join(list) => join(alloc, list.as_slice(), facts, context),
        SizedNode::Repeat(counted) => replication(alloc, counted.get(), facts, context),
        SizedNode::Call { function, argument } => {
            call(alloc, argument.get(), *function, facts, context)
        }
    }
}
