//! Depots of files: what the tool reads its files from and stores them in.

ghost use Rattle.std.specs.Prelude.{◌≡◌, ◌≢◌, ℕ, ◌^◌, ◌<◌, List, [], length, Option, None, IsErrOf, IfOk, OnOk, OnErr, IfSome};
ghost use Rattle.tool_edge.specs.Calls.{after_calls, fetch_call, store_call};
ghost use Rattle.tool_edge.specs.Causes.{HasCause};
ghost use Rattle.tool_edge.specs.Files.{Files, HasLength, PartlyStored, fetch_answer, fetched_bytes, with_told_file};
ghost use Rattle.tool_edge.specs.declared.depot.DepotCall.{DepotCall};
ghost use Rattle.tool_edge.specs.declared.depot.DepotFault.TheVariants.{NoMemory};

use bit_base::text::Text;
use std::alloc::{AllocError, AllocFailed, Global};
use std::convert::From;
use std::vec::Vec;
use thiserror::Error;

/// How much of a file a fetch gave: all of it, its beginning since it is longer than the limit, or
/// nothing since there is no such file.
#[derive(Clone, Copy, Debug, PartialEq, Eq)]
pub enum Fetched {
    Whole,
    Long,
    Missing,
}

/// Why a depot gave no answer.
#[derive(Clone, Copy, Debug, PartialEq, Eq, Error)]
pub enum DepotFault {
    #[error("the outside failed")]
    Failed,
    #[error("no memory")]
    NoMemory,
}

impl From<AllocError> for DepotFault {
    ghost from_gives = { λ _ fault. fault ≡ NoMemory };

    fn from(_error: AllocError) -> DepotFault {
        DepotFault::NoMemory
    }
}

impl<T: Drop> From<AllocFailed<T>> for DepotFault {
    ghost from_gives = { λ _ fault. fault ≡ NoMemory };

    fn from(_error: AllocFailed<T>) -> DepotFault {
        DepotFault::NoMemory
    }
}

/// What a call of a depot answered, as its list of calls has it.
#[derive(Clone, Copy, Debug, PartialEq, Eq)]
pub enum DepotAnswer {
    Whole,
    Long,
    Missing,
    Stored,
    Failed,
}

/// One call of a depot: a store, or else a read, of this name.
#[derive(Debug, Drop)]
pub struct DepotCall {
    pub name: Text,
    pub store: bool,
    pub answer: DepotAnswer,
}

/// A depot of files. It may tell what it holds and how it was called; what it doesn't tell, no clause
/// speaks of. A call fails only where the count of faults rose in it.
pub trait Depot {
    /// The bytes under each name, where it tells them.
    ghost files: { Self → Option Files };

    /// The calls so far, where it tells them. A call that wants memory isn't among them.
    ghost calls: { Self → Option (List DepotCall) };

    /// How many faults there were. At the last value of a `u64` the count stands still.
    ghost faults: { Self → ℕ };

    /// Reads the file `name` into `into`, whose bytes it replaces: all of them where there are at
    /// most `limit`, else the first `limit + 1`. After `Missing` or an `Err`, `into` is empty.
    fn fetch(
        &mut self,
        alloc: Global,
        name: &Text,
        limit: usize,
        into: &mut Vec<u8>,
    ) -> Result<Fetched, DepotFault>
        requires { limit < 2 ^ 32 }
        // It changes no file, whatever it answers.
        ensures changes_no_file { files self.new ≡ files self.old }

        // Where the files are told, they give the answer and the bytes.
        ensures answer { IfSome (files self.old) (λ held. IfOk result (λ r. r ≡ fetch_answer limit (held name.now))) }
        ensures bytes { IfSome (files self.old) (λ held. OnOk result (into.new.items ≡ fetched_bytes limit (held name.now))) }

        // Told or not, the answer says how many bytes came, and after an Err there are none.
        ensures length { IfOk result (λ r. HasLength limit r (length into.new.items)) }
        ensures untold { files self.old ≡ None → result ≢ Ok Fetched.Missing }
        ensures err { OnErr result (into.new.items ≡ []) }

        // Each answer but want of memory is listed, and a failure has a cause.
        ensures lists_call { calls self.new ≡ after_calls (calls self.old) (fetch_call name.now result) }
        ensures cause { HasCause (faults self.old) (faults self.new) (IsErrOf result DepotFault.Failed) };

    /// Puts `bytes` under `name`, in place of what was there. A store that failed may leave a prefix
    /// of the bytes there; one that wanted memory leaves all as it was.
    fn store(&mut self, alloc: Global, name: &Text, bytes: &[u8]) -> Result<(), DepotFault>
        ensures stored { OnOk result (files self.new ≡ with_told_file (files self.old) name.now bytes.now) }
        ensures after_failed { IsErrOf result DepotFault.Failed → PartlyStored (files self.old) name.now bytes.now (files self.new) }
        ensures after_no_memory { IsErrOf result DepotFault.NoMemory → files self.new ≡ files self.old }

        // As for a fetch.
        ensures lists_call { calls self.new ≡ after_calls (calls self.old) (store_call name.now result) }
        ensures cause { HasCause (faults self.old) (faults self.new) (IsErrOf result DepotFault.Failed) };
}
