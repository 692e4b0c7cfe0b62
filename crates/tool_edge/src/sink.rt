//! Sinks of bytes: what the tool writes its report to.

ghost use Rattle.std.specs.Prelude.{◌≡◌, ℕ, List, Option, IsErrOf, OnOk, OnErr};
ghost use Rattle.tool_edge.specs.Causes.{HasCause};
ghost use Rattle.tool_edge.specs.Written.{AppendsPart, after_put};
ghost use Rattle.tool_edge.specs.declared.sink.SinkFault.TheVariants.{NoMemory};

use std::alloc::{AllocError, AllocFailed, Global};
use std::convert::From;
use thiserror::Error;

/// Why a sink took no bytes, or not all of them.
#[derive(Clone, Copy, Debug, PartialEq, Eq, Error)]
pub enum SinkFault {
    #[error("the outside failed")]
    Failed,
    #[error("no memory")]
    NoMemory,
}

impl From<AllocError> for SinkFault {
    ghost from_gives = { λ _ fault. fault ≡ NoMemory };

    fn from(_error: AllocError) -> SinkFault {
        SinkFault::NoMemory
    }
}

impl<T: Drop> From<AllocFailed<T>> for SinkFault {
    ghost from_gives = { λ _ fault. fault ≡ NoMemory };

    fn from(_error: AllocFailed<T>) -> SinkFault {
        SinkFault::NoMemory
    }
}

/// A sink of bytes. It may tell what was written. A call fails only where the count of faults rose in
/// it.
pub trait Sink {
    /// The bytes so far, where it tells them.
    ghost written: { Self → Option (List ℕ) };

    /// How many faults there were. At the last value of a `u64` the count stands still.
    ghost faults: { Self → ℕ };

    /// Appends `bytes`; after an `Err` a prefix of them is appended.
    fn put(&mut self, alloc: Global, bytes: &[u8]) -> Result<(), SinkFault>
        ensures appended { OnOk result (written self.new ≡ after_put (written self.old) bytes.now) }
        ensures prefix_after_err { OnErr result (AppendsPart (written self.old) bytes.now (written self.new)) }
        ensures cause { HasCause (faults self.old) (faults self.new) (IsErrOf result SinkFault.Failed) };
}
