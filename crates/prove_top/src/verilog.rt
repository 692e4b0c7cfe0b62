//! The Verilog of the first form: one flat module, whose PRDATA and whose register are each driven by
//! one expression.

ghost use Rattle.std.specs.Prelude.{◌≡◌, IfOk};
ghost use Rattle.prove_top.specs.Reading.{Reads};
ghost use Rattle.prove_top.specs.Verilog.{drivers_at, drivers_of};

use crate::cursor::{Cursor, Stop};
use crate::expressions::limited;
use std::alloc::{AllocError, Global};
use trace_replay::expression::Expression;

/// The texts before, between and after the two expressions.
pub(crate) const VERILOG_HEAD: &[u8] =
    b"module f(input clk, input rst_n, input psel, input penable, input pwrite,\n  input [1:0] paddr, input [7:0] pwdata, output [7:0] prdata,\n  output pready, output pslverr, output reg [7:0] v);\n  assign pready = 1'b1;\n  assign pslverr = 1'b0;\n  assign prdata = ";

pub(crate) const VERILOG_MIDDLE: &[u8] = b";\n  always @(posedge clk) v <= ";

pub(crate) const VERILOG_TAIL: &[u8] = b";\nendmodule\n";

/// What drives PRDATA, and what the register takes at each rising edge.
#[derive(Drop)]
pub(crate) struct Drivers {
    pub read_data: Expression,
    pub next: Expression,
}

/// The drivers of a Verilog text, from its front.
#[tactic(auto, unfolding(crate::specs::Verilog::drivers_at, crate::specs::Verilog::two_at))]
fn read_drivers(alloc: Global, cursor: &mut Cursor<'_>) -> Result<Drivers, Stop>
    ensures { Reads (drivers_at cursor.old) result cursor.new }
{
    cursor.expect(VERILOG_HEAD)?;
    let read_data = limited(alloc, cursor)?;
    cursor.expect(VERILOG_MIDDLE)?;
    let next = limited(alloc, cursor)?;
    cursor.expect(VERILOG_TAIL)?;
    Ok(Drivers { read_data, next })
}

/// The drivers of this Verilog text, where it is of the first form.
#[tactic(auto, unfolding(crate::specs::Verilog::drivers_of))]
pub(crate) fn drivers_of(alloc: Global, bytes: &[u8]) -> Result<Option<Drivers>, AllocError>
    ensures { IfOk result (λ drivers. drivers ≡ drivers_of bytes.now) }
{
    let mut cursor = Cursor::new(bytes);
    match read_drivers(alloc, &mut cursor) {
        Ok(drivers) if cursor.rest().is_empty() => Ok(Some(drivers)),
        Err(Stop::NoMemory) => Err(AllocError),
        _ => Ok(None),
    }
}
