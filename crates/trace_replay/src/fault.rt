//! Refusals of a trace text.

use std::alloc::{AllocError, AllocFailed};
use thiserror::Error;

/// What is wrong with a trace text. The variants stand in the order of their numbers, 501 to 504.
#[derive(Clone, Copy, Debug, PartialEq, Eq, Drop)]
pub enum TraceCode {
    /// 501: a line that isn't of the form that is due there.
    TraceLine,
    /// 502: another name or number of digits than those of the block.
    TraceName,
    /// 503: an edge whose reset or bus wires no legal master drives.
    TraceIllegal,
    /// 504: the text is too long.
    TraceSize,
}

/// Why a trace text is refused, or want of memory.
#[derive(Clone, Copy, Debug, PartialEq, Eq, Error)]
pub enum TraceFault {
    #[error("no memory")]
    NoMemory,
    /// The refusal `code` at this line, counted from 1; line 0 is the whole text.
    #[error("{code:?} at line {line}")]
    At { code: TraceCode, line: u32 },
}

impl From<AllocError> for TraceFault {
    ghost use Rattle.std.specs.Prelude.{◌≡◌};
    ghost use Rattle.trace_replay.specs.declared.fault.TraceFault.TheVariants.{NoMemory};

    ghost from_gives = { λ _ fault. fault ≡ NoMemory };

    fn from(_error: AllocError) -> TraceFault {
        TraceFault::NoMemory
    }
}

impl<T: Drop> From<AllocFailed<T>> for TraceFault {
    ghost use Rattle.std.specs.Prelude.{◌≡◌};
    ghost use Rattle.trace_replay.specs.declared.fault.TraceFault.TheVariants.{NoMemory};

    ghost from_gives = { λ _ fault. fault ≡ NoMemory };

    fn from(_error: AllocFailed<T>) -> TraceFault {
        TraceFault::NoMemory
    }
}
