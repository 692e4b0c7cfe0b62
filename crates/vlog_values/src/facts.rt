//! What is known of an expression before its context: its shape, or the offence that leaves none.

ghost use Rattle.std.specs.Prelude.{◌≡◌, false};
ghost use Rattle.vlog_values.specs.declared.facts.Stop.TheVariants.{NoMemory};
ghost use Rattle.vlog_values.specs.Steps as spec;

use bit_base::place::Place;
use std::alloc::AllocError;
use vlog_tree::fault::VlogCode;

/// The size in bits and the sign of an expression (IEEE 1364-2005, 5.4 and 5.5). A size of 4,096 bits
/// or more counts as 4,096: every limit is below.
#[derive(Clone, Copy, Debug, PartialEq, Eq, Drop)]
pub struct Shape {
    pub size: u32,
    pub signed: bool,
}

/// The first offence of a part of an expression in the order of its tokens.
#[derive(Clone, Copy, Drop)]
pub struct Offence {
    /// Whether it stands on the first token of the part.
    pub leads: bool,
    pub code: VlogCode,
    pub place: Place,
}

/// The shape of an expression by itself, and the first of the offences that its size or sign asks for.
#[derive(Clone, Copy, Drop)]
pub enum Sizing {
    Known { shape: Shape, over: Option<Offence> },
    /// This offence leaves no shape, or stands before the one that does.
    Missing(Offence),
}

/// What is known of an expression before its context.
#[derive(Clone, Copy, Drop)]
pub struct Facts {
    /// The place of its first token.
    pub place: Place,
    pub sizing: Sizing,
    /// Where it is a number without a size, brackets around it left aside: the offence that it is in a
    /// concatenation.
    pub lone: Option<Offence>,
    /// Whether it names a net.
    pub names_net: bool,
    /// Whether a number in it has an `x`, `z` or `?` digit.
    pub has_unknown: bool,
}

/// Why an expression comes to no value.
#[derive(Clone, Copy, Drop)]
pub enum Stop {
    NoMemory,
    At(Offence),
}

impl From<AllocError> for Stop {
    ghost from_gives = { λ _ e. e ≡ NoMemory };

    fn from(_: AllocError) -> Stop {
        Stop::NoMemory
    }
}

/// An offence on the first token of a part.
pub fn leading(code: VlogCode, place: Place) -> Offence
    ensures { result ≡ spec.leading code place }
{
    Offence {
        leads: true,
        code,
        place,
    }
}

/// An offence behind the first token of a part.
pub fn inner(code: VlogCode, place: Place) -> Offence
    ensures { result ≡ record { leads = false; code = code; place = place } }
{
    Offence {
        leads: false,
        code,
        place,
    }
}

/// Which of two offences on one token comes first: a name before a constant before a width.
pub fn goes_before(code: VlogCode, other: VlogCode) -> bool
    ensures { result ≡ spec.goes_before code other }
{
    match (code, other) {
        (VlogCode::VlogName, VlogCode::VlogConst) => true,
        (VlogCode::VlogName, VlogCode::VlogWide) => true,
        (VlogCode::VlogConst, VlogCode::VlogWide) => true,
        _ => false,
    }
}

impl Facts {
    ghost use Rattle.std.specs.Prelude.{◌≡◌, ◌≤◌, IfNone};
    ghost use Rattle.vlog_values.specs.Sizes.{size_in};
    ghost use Rattle.vlog_values.specs.Steps as spec;

    /// The shape of the expression by itself.
    pub fn own_shape(self) -> Option<Shape>
        ensures { result ≡ spec.own_shape self }
    {
        match self.sizing {
            Sizing::Known { shape, over: _ } => Some(shape),
            Sizing::Missing(_) => None,
        }
    }

    /// Over a limit in bits, by itself or in its context.
    pub fn too_wide(self, limit: u32, context: Option<Shape>) -> Option<VlogCode>
        ensures mark { result ≡ spec.too_wide limit self context }
        ensures fits { IfNone result (size_in context ≤ limit) }
    {
        if is_over(limit, self.own_shape()) || is_over(limit, context) {
            Some(VlogCode::VlogWide)
        } else {
            None
        }
    }
}

/// Larger than a limit in bits, where the shape is known.
pub fn is_over(limit: u32, shape: Option<Shape>) -> bool
    ensures { result ≡ spec.is_over limit shape }
{
    match shape {
        None => false,
        Some(shape) => limit < shape.size,
    }
}
