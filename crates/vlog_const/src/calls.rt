//! The size and sign of an expression, and the value of a constant one.

ghost use Rattle.std.specs.Prelude.{◌≡◌};
ghost use Rattle.vlog_const.specs.Answers.{Answers, fault_of as refusal, shape_asked, shape_outcome, const_outcome};

use crate::names::{Const, Scope};
use crate::read::sized_of;
use std::alloc::Global;
use vlog_tree::fault::{VlogFault, fault_at};
use vlog_tree::tree_expressions::VExpr;
use vlog_values::evaluate::constant;
use vlog_values::facts::{Offence, Shape, Sizing, Stop};
use vlog_values::words::is_signed;

fn fault_of(alloc: Global, offence: Offence) -> VlogFault
    ensures { result ≡ refusal offence }
{
    fault_at(alloc, offence.code, offence.place)
}

/// The size and sign of the expression by itself.
pub fn shape_of(alloc: Global, expr: &VExpr, scope: &Scope) -> Result<Shape, VlogFault>
    ensures { Answers (shape_outcome scope.now expr.now) result }
{
    let e = sized_of(alloc, expr, scope)?;
    shape_in(alloc, e.facts.sizing)
}

fn shape_in(alloc: Global, sizing: Sizing) -> Result<Shape, VlogFault>
    ensures { Answers (shape_asked sizing) result }
{
    match sizing {
        Sizing::Known { shape, over: None } => Ok(shape),
        Sizing::Known {
            shape: _,
            over: Some(offence),
        } => Err(fault_of(alloc, offence)),
        Sizing::Missing(offence) => Err(fault_of(alloc, offence)),
    }
}

/// The value of a constant expression at its own size.
pub fn const_value(alloc: Global, expr: &VExpr, scope: &Scope) -> Result<Const, VlogFault>
    ensures { Answers (const_outcome scope.now expr.now) result }
{
    let e = sized_of(alloc, expr, scope)?;
    let signed = is_signed(e.facts.own_shape());
    match constant(alloc, &e) {
        Ok(bits) => Ok(Const { bits, signed }),
        Err(Stop::NoMemory) => Err(VlogFault::NoMemory),
        Err(Stop::At(offence)) => Err(fault_of(alloc, offence)),
    }
}
