//! Expressions of the grammar with their names found, their numbers read and their operands sized.

ghost use Rattle.std.specs.Prelude.{◌≡◌, Some, IfOk, option_map};
ghost use Rattle.vlog_const.specs.declared.names.Named.TheVariants as named;
ghost use Rattle.vlog_const.specs.Sizing as sizing;
ghost use Rattle.vlog_const.specs.Sized as spec;

use crate::literal::Literal;
use crate::names::{Const, Named};
use crate::sizing::{
    Parts, call_facts, capped, choice_facts, group_facts, infix_facts, join_facts, missing_facts,
    name_facts, no_parts, number_facts, prefix_facts, repeat_facts, select_facts, with_part,
};
use bit_base::bits::Bits;
use bit_base::place::Place;
use bit_words::bitwise::is_any;
use sqlite_items::{Boxed, Items};
use std::alloc::{AllocError, Global};
use std::convert::From;
use vlog_tree::fault::VlogCode;
use vlog_values::checks::{count_in, place_in};
use vlog_values::evaluate::{constant, count};
use vlog_values::facts::{Facts, Offence, Shape, Stop, leading};
use vlog_values::operators::{Function, Infix, Prefix};
use vlog_values::sized::{Signal, SizedChoice, SizedExpr, SizedNode, SizedPair, SizedRepeat};

pub fn number_node(place: Place, literal: Literal) -> SizedExpr
    ensures { result ≡ spec.number_node place literal }
{
    SizedExpr {
        facts: number_facts(
            place,
            literal.size,
            literal.signed,
            literal.sized,
            is_any(literal.unknown.as_slice()),
        ),
        node: SizedNode::Number {
            bits: literal.bits,
            unknown: literal.unknown,
        },
    }
}

pub fn missing_node(place: Place) -> SizedExpr
    ensures { result ≡ spec.missing_node place }
{
    SizedExpr {
        facts: missing_facts(place),
        node: SizedNode::Missing,
    }
}

pub fn group_node(alloc: Global, place: Place, whole: SizedExpr) -> Result<SizedExpr, AllocError>
    ensures { IfOk result (λ e. e ≡ spec.group_node place whole) }
{
    let facts = group_facts(place, whole.facts);
    let node = SizedNode::Group(Boxed::new(alloc, whole)?);
    Ok(SizedExpr { facts, node })
}

pub fn prefix_node(
    alloc: Global,
    op: Prefix,
    place: Place,
    operand: SizedExpr,
) -> Result<SizedExpr, AllocError>
    ensures { IfOk result (λ e. e ≡ spec.prefix_node op place operand) }
{
    let facts = prefix_facts(op, place, operand.facts);
    let node = SizedNode::Unary {
        operator: op,
        operand: Boxed::new(alloc, operand)?,
    };
    Ok(SizedExpr { facts, node })
}

pub fn infix_node(
    alloc: Global,
    op: Infix,
    left: SizedExpr,
    right: SizedExpr,
) -> Result<SizedExpr, AllocError>
    ensures { IfOk result (λ e. e ≡ spec.infix_node op left right) }
{
    let facts = infix_facts(op, left.facts, right.facts);
    let node = SizedNode::Binary {
        operator: op,
        operands: Boxed::new(alloc, SizedPair { left, right })?,
    };
    Ok(SizedExpr { facts, node })
}

pub fn choice_node(
    alloc: Global,
    test: SizedExpr,
    yes_value: SizedExpr,
    no_value: SizedExpr,
) -> Result<SizedExpr, AllocError>
    ensures { IfOk result (λ e. e ≡ spec.choice_node test yes_value no_value) }
{
    let facts = choice_facts(test.facts, yes_value.facts, no_value.facts);
    let parts = SizedChoice {
        test,
        yes_value,
        no_value,
    };
    let node = SizedNode::Choice(Boxed::new(alloc, parts)?);
    Ok(SizedExpr { facts, node })
}

pub fn call_node(
    alloc: Global,
    function: Function,
    place: Place,
    argument: SizedExpr,
) -> Result<SizedExpr, AllocError>
    ensures { IfOk result (λ e. e ≡ spec.call_node function place argument) }
{
    let facts = call_facts(function, place, argument.facts);
    let node = SizedNode::Call {
        function,
        argument: Boxed::new(alloc, argument)?,
    };
    Ok(SizedExpr { facts, node })
}

fn parts_known(parts: &[SizedExpr]) -> Parts
    ensures { result ≡ sizing.parts_from sizing.no_parts (spec.known_of parts.now) }
{
    let mut known = no_parts();
    for part in parts {
        known = with_part(known, part.facts);
    }
    known
}

pub fn join_node(place: Place, parts: Items<SizedExpr>) -> SizedExpr
    ensures { result ≡ spec.join_node place parts }
{
    SizedExpr {
        facts: join_facts(place, parts_known(parts.as_slice())),
        node: SizedNode::Join(parts),
    }
}

fn count_outcome(alloc: Global, e: &SizedExpr) -> Result<Result<u32, Offence>, AllocError>
    ensures { IfOk result (λ outcome. outcome ≡ spec.count_outcome e.now) }
{
    match count(alloc, e) {
        Ok(bits) => Ok(Ok(count_in(bits.as_slice()))),
        Err(Stop::NoMemory) => Err(AllocError),
        Err(Stop::At(offence)) => Ok(Err(offence)),
    }
}

pub fn repeat_node(
    alloc: Global,
    place: Place,
    count: SizedExpr,
    parts: Items<SizedExpr>,
) -> Result<SizedExpr, AllocError>
    ensures { IfOk result (λ e. e ≡ spec.repeat_node place count parts) }
{
    let times = count_outcome(alloc, &count)?;
    let facts = repeat_facts(place, times, count.facts, parts_known(parts.as_slice()));
    let node = SizedNode::Repeat(Boxed::new(alloc, SizedRepeat { count, parts })?);
    Ok(SizedExpr { facts, node })
}

pub fn bit_node(
    alloc: Global,
    bracket: Place,
    index: SizedExpr,
    place: Place,
    signal: Signal,
) -> Result<SizedExpr, AllocError>
    ensures { IfOk result (λ e. e ≡ spec.bit_node bracket index place signal) }
{
    let facts = select_facts(place, Ok(1), index.facts.has_unknown);
    let node = SizedNode::Bit {
        signal,
        bracket,
        index: Boxed::new(alloc, index)?,
    };
    Ok(SizedExpr { facts, node })
}

/// How many bits stand from one place down to another.
fn width_between(bracket: Place, high: Option<u32>, low: Option<u32>) -> Result<u64, Offence>
    ensures { result ≡ spec.width_between bracket high low }
{
    match (high, low) {
        (Some(high), Some(low)) => {
            if low <= high {
                Ok(u64::from(high - low) + 1)
            } else {
                Err(leading(VlogCode::VlogConst, bracket))
            }
        }
        _ => Err(leading(VlogCode::VlogConst, bracket)),
    }
}

fn range_width(
    alloc: Global,
    bracket: Place,
    high: &SizedExpr,
    low: &SizedExpr,
) -> Result<Result<u64, Offence>, AllocError>
    ensures { IfOk result (λ outcome. outcome ≡ spec.range_width bracket high.now low.now) }
{
    match constant(alloc, high) {
        Ok(bits) => range_from(alloc, bracket, place_in(high.facts, bits.as_slice()), low),
        Err(Stop::NoMemory) => Err(AllocError),
        Err(Stop::At(offence)) => Ok(Err(offence)),
    }
}

fn range_from(
    alloc: Global,
    bracket: Place,
    high: Option<u32>,
    low: &SizedExpr,
) -> Result<Result<u64, Offence>, AllocError>
    ensures { IfOk result (λ outcome. outcome ≡ spec.range_from bracket high low.now) }
{
    match constant(alloc, low) {
        Ok(bits) => Ok(width_between(bracket, high, place_in(low.facts, bits.as_slice()))),
        Err(Stop::NoMemory) => Err(AllocError),
        Err(Stop::At(offence)) => Ok(Err(offence)),
    }
}

pub fn range_node(
    alloc: Global,
    bracket: Place,
    high: SizedExpr,
    low: SizedExpr,
    place: Place,
    signal: Signal,
) -> Result<SizedExpr, AllocError>
    ensures { IfOk result (λ e. e ≡ spec.range_node bracket high low place signal) }
{
    let width = range_width(alloc, bracket, &high, &low)?;
    let unknown = high.facts.has_unknown || low.facts.has_unknown;
    let facts = select_facts(place, width, unknown);
    let ends = SizedPair {
        left: high,
        right: low,
    };
    let node = SizedNode::Range {
        signal,
        bracket,
        ends: Boxed::new(alloc, ends)?,
    };
    Ok(SizedExpr { facts, node })
}

pub fn upward_node(
    alloc: Global,
    bracket: Place,
    low: SizedExpr,
    width: SizedExpr,
    place: Place,
    signal: Signal,
) -> Result<SizedExpr, AllocError>
    ensures { IfOk result (λ e. e ≡ spec.upward_node bracket low width place signal) }
{
    let times = count_outcome(alloc, &width)?;
    let unknown = low.facts.has_unknown || width.facts.has_unknown;
    let facts = upward_facts(place, times, unknown);
    let ends = SizedPair {
        left: low,
        right: width,
    };
    let node = SizedNode::Upward {
        signal,
        bracket,
        ends: Boxed::new(alloc, ends)?,
    };
    Ok(SizedExpr { facts, node })
}

fn upward_facts(place: Place, times: Result<u32, Offence>, unknown: bool) -> Facts
    ensures { result ≡ sizing.select_facts place times unknown }
{
    match times {
        Ok(times) => select_facts(place, Ok(u64::from(times)), unknown),
        Err(offence) => select_facts(place, Err(offence), unknown),
    }
}

fn constant_node(alloc: Global, place: Place, value: &Const) -> Result<SizedExpr, AllocError>
    ensures { IfOk result (λ e. e ≡ spec.name_node place (Some (named.Constant value.now))) }
{
    let shape = Shape {
        size: capped(value.bits.len() as u64),
        signed: value.signed,
    };
    let bits = copied(alloc, value.bits.as_slice())?;
    Ok(SizedExpr {
        facts: name_facts(place, shape, false),
        node: SizedNode::Constant(bits),
    })
}

/// The same bits once more.
fn copied(alloc: Global, bits: &[bool]) -> Result<Bits, AllocError>
    ensures { IfOk result (λ copy. copy ≡ bits.now) }
{
    let places = bits.to_vec(alloc)?;
    Ok(Bits::from(places))
}

pub fn name_node(alloc: Global, place: Place, what: Option<&Named>) -> Result<SizedExpr, AllocError>
    ensures { IfOk result (λ e. e ≡ spec.name_node place (option_map (λ n. n.now) what.entry)) }
{
    match what {
        None => Ok(missing_node(place)),
        Some(Named::Constant(value)) => constant_node(alloc, place, value),
        Some(Named::Signal { net, shape, lsb }) => Ok(net_node(place, *net, *shape, *lsb)),
    }
}

fn net_node(place: Place, net: u32, shape: Shape, lsb: u32) -> SizedExpr
    ensures { result ≡ spec.name_node place (Some (named.Signal net shape lsb)) }
{
    let known = Shape {
        size: capped(u64::from(shape.size)),
        signed: shape.signed,
    };
    SizedExpr {
        facts: name_facts(place, known, true),
        node: SizedNode::Net(Signal {
            net,
            width: shape.size,
            lsb,
        }),
    }
}
