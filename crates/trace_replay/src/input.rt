//! The inputs of a flat block that a trace has bits of.

ghost use Rattle.std.specs.Prelude.{◌≡◌};
ghost use Rattle.trace_replay.specs.Inputs.{input_label, input_width};

use apb_rules::wires::Choice;

/// An input of the block other than the clock.
#[derive(Clone, Copy, Debug, PartialEq, Eq)]
pub enum Input {
    ResetN,
    Select,
    Enable,
    Write,
    Address,
    WriteData,
}

/// All of them, in the order of the ports.
pub const INPUTS: [Input; 6] = [
    Input::ResetN,
    Input::Select,
    Input::Enable,
    Input::Write,
    Input::Address,
    Input::WriteData,
];

/// How many bits they have together.
pub const INPUT_BITS: usize = 14;

impl Input {
    /// A blank, its name and the sign of equality: what stands before its digits in a trace.
    pub fn label(self) -> &'static [u8]
        ensures { result.now ≡ input_label self }
    {
        match self {
            Input::ResetN => b" rst_n=".as_slice(),
            Input::Select => b" psel=".as_slice(),
            Input::Enable => b" penable=".as_slice(),
            Input::Write => b" pwrite=".as_slice(),
            Input::Address => b" paddr=".as_slice(),
            Input::WriteData => b" pwdata=".as_slice(),
        }
    }

    /// How many bits it has.
    pub fn width(self) -> usize
        ensures { result ≡ input_width self }
    {
        match self {
            Input::ResetN | Input::Select | Input::Enable | Input::Write => 1,
            Input::Address => 2,
            Input::WriteData => 8,
        }
    }
}

/// What is free at an edge of a joint run: what the master would like to drive.
#[derive(Clone, Copy, Debug, PartialEq, Eq)]
pub struct JointInput {
    pub choice: Choice,
}
