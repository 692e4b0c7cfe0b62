//! A depot in memory whose calls can be made to fail.

ghost use Rattle.std.specs.Prelude.{◌≡◌, ◌^◌, ◌<◌, [], ◌∷◌, ◌++◌, ℕ, List, Option, Some, IfOk, IsErrOf, OnOk, OnErr, length};
ghost use Rattle.std.specs.Option.{option_copied};
ghost use Rattle.tool_edge.specs.Calls.{fetch_call, store_call};
ghost use Rattle.tool_edge.specs.Causes.{HasCause};
ghost use Rattle.tool_edge.specs.Failing.{FailsWhereDue, faults_after};
ghost use Rattle.tool_edge.specs.Files.{Files, HasLength, fetch_answer, fetched_bytes, no_files, with_file};
ghost use Rattle.tool_edge.specs.MemoryDepot.{memory_calls, memory_failing, memory_faults, memory_files, memory_next_fails};
ghost use Rattle.tool_edge.specs.declared.depot.DepotCall.{DepotCall};

use crate::depot::{Depot, DepotAnswer, DepotCall, DepotFault, Fetched};
use crate::shelf::{Shelf, note};
use bit_base::text::Text;
use std::alloc::{AllocError, Global};
use std::vec::Vec;

/// A depot in memory. Calls are numbered from 1 by their places in the list of calls, fetches and
/// stores in one count, and `fail_at` makes the call of a number fail. It tells its files and calls.
#[derive(Debug, Drop)]
pub struct MemoryDepot {
    pub(crate) shelf: Shelf,
    failing: Vec<u32>,
    faults: u64,
}

impl MemoryDepot {
    /// A depot without files and calls, with no call to fail.
    pub fn new(alloc: Global) -> MemoryDepot
        ensures files { memory_files result ≡ no_files }
        ensures calls { memory_calls result ≡ [] }
        ensures failing { memory_failing result ≡ [] }
        ensures faults { memory_faults result ≡ 0 }
    {
        MemoryDepot {
            shelf: Shelf::new(alloc),
            failing: Vec::new(alloc),
            faults: 0,
        }
    }

    /// Puts a file into the depot, which is no call of the list.
    pub fn hold(&mut self, name: Text, bytes: Vec<u8>) -> Result<(), AllocError>
        ensures ok { OnOk result (memory_files self.new ≡ with_file (memory_files self.old) name bytes.items) }
        ensures err { OnErr result (memory_files self.new ≡ memory_files self.old) }
        ensures calls { memory_calls self.new ≡ memory_calls self.old }
        ensures failing { memory_failing self.new ≡ memory_failing self.old }
        ensures faults { memory_faults self.new ≡ memory_faults self.old }
    {
        self.shelf.hold(name, bytes)
    }

    /// Makes the call of this number fail.
    pub fn fail_at(&mut self, call: u32) -> Result<(), AllocError>
        ensures ok { OnOk result (memory_failing self.new ≡ memory_failing self.old ++ call ∷ []) }
        ensures err { OnErr result (memory_failing self.new ≡ memory_failing self.old) }
        ensures files { memory_files self.new ≡ memory_files self.old }
        ensures calls { memory_calls self.new ≡ memory_calls self.old }
        ensures faults { memory_faults self.new ≡ memory_faults self.old }
    {
        self.failing.push(call)?;
        Ok(())
    }

    /// The bytes of the file of this name.
    pub fn bytes_of(&self, name: &Text) -> Option<&[u8]>
        ensures { option_copied result ≡ memory_files self.now name.now }
    {
        self.shelf.bytes_of(name)
    }

    /// The calls so far, the first one first.
    pub fn calls(&self) -> &[DepotCall]
        ensures { result.now ≡ memory_calls self.now }
    {
        self.shelf.calls.as_slice()
    }

    /// Whether the next call is to fail.
    fn next_fails(&self) -> bool
        ensures { result ≡ memory_next_fails self.now }
    {
        let next = self.shelf.calls.len() + 1;
        self.failing.iter().any(|call| *call as usize == next)
    }
}

impl Depot for MemoryDepot {
    ghost files = { λ depot. Some (memory_files depot) };

    ghost calls = { λ depot. Some (memory_calls depot) };

    ghost faults = { memory_faults };

    fn fetch(
        &mut self,
        alloc: Global,
        name: &Text,
        limit: usize,
        into: &mut Vec<u8>,
    ) -> Result<Fetched, DepotFault>
        requires { limit < 2 ^ 32 }
        // What every depot owes, of the files and calls that this one tells.
        ensures changes_no_file { memory_files self.new ≡ memory_files self.old }
        ensures answer { IfOk result (λ r. r ≡ fetch_answer limit (memory_files self.old name.now)) }
        ensures bytes { OnOk result (into.new.items ≡ fetched_bytes limit (memory_files self.old name.now)) }
        ensures length { IfOk result (λ r. HasLength limit r (length into.new.items)) }
        ensures err { OnErr result (into.new.items ≡ []) }
        ensures lists_call { memory_calls self.new ≡ memory_calls self.old ++ fetch_call name.now result }
        ensures cause { HasCause (memory_faults self.old) (memory_faults self.new) (IsErrOf result DepotFault.Failed) }

        // It answers Failed exactly where the call was due to fail, and the counts go on.
        ensures due { FailsWhereDue (memory_next_fails self.old) result }
        ensures faults { memory_faults self.new ≡ faults_after (memory_faults self.old) result }
        ensures failing { memory_failing self.new ≡ memory_failing self.old }
    {
        if self.next_fails() {
            into.clear();
            note(
                alloc,
                &mut self.shelf.calls,
                name,
                false,
                DepotAnswer::Failed,
            )?;
            self.faults = self.faults.saturating_add(1);
            return Err(DepotFault::Failed);
        }
        match self.shelf.fetch(alloc, name, limit, into) {
            Ok(answer) => Ok(answer),
            Err(_) => Err(DepotFault::NoMemory),
        }
    }

    fn store(&mut self, alloc: Global, name: &Text, bytes: &[u8]) -> Result<(), DepotFault>
        // What every depot owes: here an Err leaves every file as it was.
        ensures stored { OnOk result (memory_files self.new ≡ with_file (memory_files self.old) name.now bytes.now) }
        ensures after_err { OnErr result (memory_files self.new ≡ memory_files self.old) }
        ensures lists_call { memory_calls self.new ≡ memory_calls self.old ++ store_call name.now result }
        ensures cause { HasCause (memory_faults self.old) (memory_faults self.new) (IsErrOf result DepotFault.Failed) }

        // As for a fetch.
        ensures due { FailsWhereDue (memory_next_fails self.old) result }
        ensures faults { memory_faults self.new ≡ faults_after (memory_faults self.old) result }
        ensures failing { memory_failing self.new ≡ memory_failing self.old }
    {
        if self.next_fails() {
            note(
                alloc,
                &mut self.shelf.calls,
                name,
                true,
                DepotAnswer::Failed,
            )?;
            self.faults = self.faults.saturating_add(1);
            return Err(DepotFault::Failed);
        }
        match self.shelf.store(alloc, name, bytes) {
            Ok(()) => Ok(()),
            Err(_) => Err(DepotFault::NoMemory),
        }
    }
}
