//! Fetching the files of a command, in the order of their names.

ghost use Rattle.std.specs.Prelude.{◌≡◌, ◌≤◌, [], ◌∷◌, length, IfOk, IfErr, IfSome};
ghost use Rattle.tool_edge.specs.Causes.{Rose};
ghost use Rattle.prove_top.specs.Gather.{AnswersAs, gathered, names_of, contents, IfFailed, fetched_one, AnswersOne};
ghost use Rattle.prove_top.specs.Reads.{ReadsOnly, HaltedBy, HasEntry};
ghost use Rattle.prove_top.specs.declared.gather.Halt.TheVariants.{NoMemory};

use bit_base::text::Text;
use std::alloc::{AllocError, AllocFailed, Global};
use std::convert::From;
use std::vec::Vec;
use tool_edge::depot::{Depot, DepotFault, Fetched};

/// The kinds of files of a command.
#[derive(Clone, Copy)]
pub(crate) enum Kind {
    Description,
    Ports,
    Verilog,
    Trace,
}

/// A file of a command: its name, how many bytes it may have, and its kind.
#[derive(Drop)]
pub(crate) struct Wanted {
    pub name: Text,
    pub limit: u32,
    pub kind: Kind,
}

/// What the files themselves lack: one isn't there, or is longer than its limit.
#[derive(Drop)]
pub(crate) enum Shortfall {
    Missing(Text),
    Long(Kind, Text),
}

/// Why the files weren't gathered: want of memory, a read that failed, or a shortfall.
#[derive(Drop)]
pub(crate) enum Halt {
    NoMemory,
    Failed(Text),
    Short(Shortfall),
}

impl From<AllocError> for Halt {
    ghost from_gives = { λ _ halt. halt ≡ NoMemory };

    fn from(_error: AllocError) -> Halt {
        Halt::NoMemory
    }
}

impl<T: Drop> From<AllocFailed<T>> for Halt {
    ghost from_gives = { λ _ halt. halt ≡ NoMemory };

    fn from(_error: AllocFailed<T>) -> Halt {
        Halt::NoMemory
    }
}

/// Fetches one file.
fn fetch_one<D: Depot>(alloc: Global, depot: &mut D, want: &Wanted) -> Result<Vec<u8>, Halt>
    ensures files { D.files depot.new ≡ D.files depot.old }
    ensures answer { IfSome (D.files depot.old) (λ files. AnswersOne (fetched_one want.now (files want.now.name)) result) }
    ensures calls { ReadsOnly (want.now.name ∷ []) (D.calls depot.old) (D.calls depot.new) (HasEntry want.now.name result) }
    ensures count { D.faults depot.old ≤ D.faults depot.new }
    ensures rose { IfErr result (λ halt. IfFailed halt (Rose (D.faults depot.old) (D.faults depot.new))) }
{
    let mut bytes = Vec::new(alloc);
    match depot.fetch(alloc, &want.name, want.limit as usize, &mut bytes) {
        Ok(Fetched::Whole) => Ok(bytes),
        Ok(Fetched::Long) => Err(Halt::Short(Shortfall::Long(want.kind, want.name.copy(alloc)?))),
        Ok(Fetched::Missing) => Err(Halt::Short(Shortfall::Missing(want.name.copy(alloc)?))),
        Err(DepotFault::Failed) => Err(Halt::Failed(want.name.copy(alloc)?)),
        Err(DepotFault::NoMemory) => Err(Halt::NoMemory),
    }
}

/// Fetches the files of these names in their order, up to the first that isn't whole.
pub(crate) fn fetch_all<D: Depot>(
    alloc: Global,
    depot: &mut D,
    wanted: &[Wanted],
) -> Result<Vec<Vec<u8>>, Halt>
    ensures files { D.files depot.new ≡ D.files depot.old }
    ensures answer { IfSome (D.files depot.old) (λ files. AnswersAs (gathered files wanted.now) result) }
    ensures length { IfOk result (λ files. length files.items ≡ length wanted.now) }
    ensures calls { ReadsOnly (names_of wanted.now) (D.calls depot.old) (D.calls depot.new) (HaltedBy (names_of wanted.now) result) }
    ensures count { D.faults depot.old ≤ D.faults depot.new }
    ensures rose { IfErr result (λ halt. IfFailed halt (Rose (D.faults depot.old) (D.faults depot.new))) }
{
    let mut files = Vec::new(alloc);
    for want in wanted {
        match fetch_one(alloc, depot, want) {
            Ok(bytes) => files.push(bytes)?,
            Err(halt) => return Err(halt),
        }
    }
    Ok(files)
}
