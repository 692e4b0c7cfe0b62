//! What is known of an expression before its context: its place, its shape, or the first offence that
//! its size or sign asks for.

ghost use Rattle.std.specs.Prelude.{◌≡◌};
ghost use Rattle.vlog_values.specs.Operations.{common};
ghost use Rattle.vlog_values.specs.Operations as operations;
ghost use Rattle.vlog_const.specs.Sizing as spec;

use bit_base::place::Place;
use vlog_tree::fault::VlogCode;
use vlog_values::checks::{infix_limit, is_test, prefix_limit};
use vlog_values::facts::{Facts, Offence, Shape, Sizing, leading};
use vlog_values::operators::{Function, Infix, Prefix};

/// An offence behind the first token of the whole.
pub fn off(offence: Offence) -> Offence
    ensures { result ≡ spec.off offence }
{
    Offence {
        leads: false,
        code: offence.code,
        place: offence.place,
    }
}

fn off_first(offence: Option<Offence>) -> Option<Offence>
    ensures { result ≡ spec.off_first offence }
{
    match offence {
        None => None,
        Some(offence) => Some(off(offence)),
    }
}

fn first_of(offence: Option<Offence>, later: Option<Offence>) -> Option<Offence>
    ensures { result ≡ spec.first_of offence later }
{
    match offence {
        None => later,
        Some(offence) => Some(offence),
    }
}

/// A part that is asked for and stands behind the first token of the whole.
fn sizing_behind(sizing: Sizing) -> Sizing
    ensures { result ≡ spec.sizing_behind sizing }
{
    match sizing {
        Sizing::Known { shape, over } => Sizing::Known {
            shape,
            over: off_first(over),
        },
        Sizing::Missing(offence) => Sizing::Missing(off(offence)),
    }
}

/// A whole of this shape, over its limit or with the offences of its parts.
fn limited(limit: u32, place: Place, shape: Shape, parts: Option<Offence>) -> Sizing
    ensures { result ≡ spec.limited limit place shape parts }
{
    if limit < shape.size {
        return Sizing::Known {
            shape,
            over: Some(leading(VlogCode::VlogWide, place)),
        };
    }
    Sizing::Known { shape, over: parts }
}

/// A whole that has the shape of a part.
fn as_part(limit: u32, place: Place, sizing: Sizing) -> Sizing
    ensures { result ≡ spec.as_part limit place sizing }
{
    match sizing {
        Sizing::Known { shape, over } => limited(limit, place, shape, over),
        Sizing::Missing(offence) => Sizing::Missing(offence),
    }
}

fn common_shape(a: Shape, b: Shape) -> Shape
    ensures { result ≡ common a b }
{
    Shape {
        size: a.size.max(b.size),
        signed: a.signed && b.signed,
    }
}

/// A whole whose shape both parts give: their greater size, signed where both are.
fn of_both(limit: u32, place: Place, a: Sizing, b: Sizing) -> Sizing
    ensures { result ≡ spec.of_both limit place common a b }
{
    match (a, b) {
        (
            Sizing::Known { shape, over },
            Sizing::Known {
                shape: other,
                over: later,
            },
        ) => {
            limited(
                limit,
                place,
                common_shape(shape, other),
                first_of(over, later),
            )
        }
        (
            Sizing::Known {
                shape: _,
                over: None,
            },
            Sizing::Missing(offence),
        ) => { Sizing::Missing(offence) }
        (
            Sizing::Known {
                shape: _,
                over: Some(offence),
            },
            Sizing::Missing(_),
        ) => { Sizing::Missing(offence) }
        (Sizing::Missing(offence), _) => Sizing::Missing(offence),
    }
}

fn unsigned(size: u32) -> Shape
    ensures { result ≡ spec.unsigned size }
{
    Shape {
        size,
        signed: false,
    }
}

fn one_bit() -> Sizing
    ensures { result ≡ spec.one_bit }
{
    Sizing::Known {
        shape: unsigned(1),
        over: None,
    }
}

/// A number of this size and sign: whether its size is given, and whether a digit is unknown.
pub fn number_facts(place: Place, size: u32, signed: bool, sized: bool, unknown: bool) -> Facts
    ensures { result ≡ spec.number_facts place size signed sized unknown }
{
    let lone = if sized {
        None
    } else {
        Some(leading(VlogCode::VlogConst, place))
    };
    Facts {
        place,
        sizing: limited(128, place, Shape { size, signed }, None),
        lone,
        names_net: false,
        has_unknown: unknown,
    }
}

/// A name that isn't declared, or of which no bits can be selected.
pub fn missing_facts(place: Place) -> Facts
    ensures { result ≡ spec.missing_facts place }
{
    Facts {
        place,
        sizing: Sizing::Missing(leading(VlogCode::VlogName, place)),
        lone: None,
        names_net: false,
        has_unknown: false,
    }
}

/// A name of this shape.
pub fn name_facts(place: Place, shape: Shape, net: bool) -> Facts
    ensures { result ≡ spec.name_facts place shape net }
{
    Facts {
        place,
        sizing: limited(2048, place, shape, None),
        lone: None,
        names_net: net,
        has_unknown: false,
    }
}

fn select_sizing(place: Place, width: Result<u64, Offence>) -> Sizing
    ensures { result ≡ spec.select_sizing place width }
{
    match width {
        Ok(width) => limited(2048, place, unsigned(capped(width)), None),
        Err(offence) => Sizing::Missing(off(offence)),
    }
}

/// A size of 4,096 bits or more counts as 4,096.
pub fn capped(size: u64) -> u32
    ensures { result ≡ spec.capped size }
{
    size.min(4096) as u32
}

/// A select of a net, of so many bits or with an offence behind the name.
pub fn select_facts(place: Place, width: Result<u64, Offence>, unknown: bool) -> Facts
    ensures { result ≡ spec.select_facts place width unknown }
{
    Facts {
        place,
        sizing: select_sizing(place, width),
        lone: None,
        names_net: true,
        has_unknown: unknown,
    }
}

pub fn group_facts(place: Place, whole: Facts) -> Facts
    ensures { result ≡ spec.group_facts place whole }
{
    Facts {
        place,
        sizing: as_part(2048, place, sizing_behind(whole.sizing)),
        lone: off_first(whole.lone),
        names_net: whole.names_net,
        has_unknown: whole.has_unknown,
    }
}

fn prefix_sizing(op: Prefix, place: Place, operand: Sizing) -> Sizing
    ensures { result ≡ spec.prefix_sizing op place operand }
{
    if is_test(op) {
        return one_bit();
    }
    as_part(prefix_limit(op), place, sizing_behind(operand))
}

pub fn prefix_facts(op: Prefix, place: Place, operand: Facts) -> Facts
    ensures { result ≡ spec.prefix_facts op place operand }
{
    Facts {
        place,
        sizing: prefix_sizing(op, place, operand.sizing),
        lone: None,
        names_net: operand.names_net,
        has_unknown: operand.has_unknown,
    }
}

fn infix_sizing(op: Infix, place: Place, left: Sizing, right: Sizing) -> Sizing
    ensures { result ≡ spec.infix_sizing (operations.infix_kind op) (operations.infix_limit op) place left right }
{
    match op {
        Infix::Power | Infix::ShiftLeft | Infix::ShiftRight | Infix::ShiftSigned => {
            as_part(infix_limit(op), place, left)
        }
        Infix::Less
        | Infix::LessEqual
        | Infix::Greater
        | Infix::GreaterEqual
        | Infix::Equal
        | Infix::NotEqual
        | Infix::LogicalAnd
        | Infix::LogicalOr => one_bit(),
        _ => of_both(infix_limit(op), place, left, sizing_behind(right)),
    }
}

pub fn infix_facts(op: Infix, left: Facts, right: Facts) -> Facts
    ensures { result ≡ spec.infix_facts op left right }
{
    Facts {
        place: left.place,
        sizing: infix_sizing(op, left.place, left.sizing, right.sizing),
        lone: None,
        names_net: left.names_net || right.names_net,
        has_unknown: left.has_unknown || right.has_unknown,
    }
}

pub fn choice_facts(test: Facts, yes_value: Facts, no_value: Facts) -> Facts
    ensures { result ≡ spec.choice_facts test yes_value no_value }
{
    Facts {
        place: test.place,
        sizing: of_both(
            2048,
            test.place,
            sizing_behind(yes_value.sizing),
            sizing_behind(no_value.sizing),
        ),
        lone: None,
        names_net: test.names_net || yes_value.names_net || no_value.names_net,
        has_unknown: test.has_unknown || yes_value.has_unknown || no_value.has_unknown,
    }
}

fn part_sizing(part: Facts) -> Sizing
    ensures { result ≡ spec.part_sizing part }
{
    match part.lone {
        None => sizing_behind(part.sizing),
        Some(offence) => Sizing::Missing(off(offence)),
    }
}

fn summed(a: Shape, b: Shape) -> Shape
    ensures { result ≡ spec.summed a b }
{
    unsigned(capped(u64::from(a.size) + u64::from(b.size)))
}

fn joined_sizing(a: Sizing, b: Sizing) -> Sizing
    ensures { result ≡ spec.joined_sizing a b }
{
    match (a, b) {
        (
            Sizing::Known { shape, over },
            Sizing::Known {
                shape: other,
                over: later,
            },
        ) => {
            Sizing::Known {
                shape: summed(shape, other),
                over: first_of(over, later),
            }
        }
        (
            Sizing::Known {
                shape: _,
                over: None,
            },
            Sizing::Missing(offence),
        ) => { Sizing::Missing(offence) }
        (
            Sizing::Known {
                shape: _,
                over: Some(offence),
            },
            Sizing::Missing(_),
        ) => { Sizing::Missing(offence) }
        (Sizing::Missing(offence), _) => Sizing::Missing(offence),
    }
}

/// What is known of parts: the sizing of all of them, whether they name a net, and whether a digit in them
/// is unknown.
pub type Parts = (Sizing, bool, bool);

pub fn no_parts() -> Parts
    ensures { result ≡ spec.no_parts }
{
    let none = Sizing::Known {
        shape: unsigned(0),
        over: None,
    };
    (none, false, false)
}

pub fn with_part(parts: Parts, part: Facts) -> Parts
    ensures { result ≡ spec.with_part parts part }
{
    (
        joined_sizing(parts.0, part_sizing(part)),
        parts.1 || part.names_net,
        parts.2 || part.has_unknown,
    )
}

pub fn join_facts(place: Place, parts: Parts) -> Facts
    ensures { result ≡ spec.join_facts place parts }
{
    Facts {
        place,
        sizing: as_part(2048, place, parts.0),
        lone: None,
        names_net: parts.1,
        has_unknown: parts.2,
    }
}

fn times(count: u32, shape: Shape) -> Shape
    ensures { result ≡ spec.times count shape }
{
    unsigned(capped(u64::from(count) * u64::from(shape.size)))
}

fn repeat_sizing(place: Place, count: Result<u32, Offence>, parts: Sizing) -> Sizing
    ensures { result ≡ spec.repeat_sizing place count parts }
{
    match (count, parts) {
        (Ok(count), Sizing::Known { shape, over }) => {
            limited(2048, place, times(count, shape), over)
        }
        (Ok(_), Sizing::Missing(offence)) => Sizing::Missing(offence),
        (Err(offence), _) => Sizing::Missing(off(offence)),
    }
}

/// A replication: the count's value or its offence, and what is known of the count and of the parts.
pub fn repeat_facts(
    place: Place,
    count: Result<u32, Offence>,
    counted: Facts,
    parts: Parts,
) -> Facts
    ensures { result ≡ spec.repeat_facts place count counted parts }
{
    Facts {
        place,
        sizing: repeat_sizing(place, count, parts.0),
        lone: None,
        names_net: counted.names_net || parts.1,
        has_unknown: counted.has_unknown || parts.2,
    }
}

fn with_sign(signed: bool, place: Place, sizing: Sizing) -> Sizing
    ensures { result ≡ spec.with_sign signed place sizing }
{
    match sizing {
        Sizing::Known { shape, over } => limited(
            2048,
            place,
            Shape {
                size: shape.size,
                signed,
            },
            over,
        ),
        Sizing::Missing(offence) => Sizing::Missing(offence),
    }
}

fn call_sizing(function: Function, place: Place, argument: Sizing) -> Sizing
    ensures { result ≡ spec.call_sizing function place argument }
{
    match function {
        Function::Clog2 => Sizing::Known {
            shape: Shape {
                size: 32,
                signed: true,
            },
            over: None,
        },
        Function::Signed => with_sign(true, place, sizing_behind(argument)),
        Function::Unsigned => with_sign(false, place, sizing_behind(argument)),
    }
}

pub fn call_facts(function: Function, place: Place, argument: Facts) -> Facts
    ensures { result ≡ spec.call_facts function place argument }
{
    Facts {
        place,
        sizing: call_sizing(function, place, argument.sizing),
        lone: None,
        names_net: argument.names_net,
        has_unknown: argument.has_unknown,
    }
}
