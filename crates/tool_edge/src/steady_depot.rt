//! A depot in memory that never fails.

ghost use Rattle.std.specs.Prelude.{◌≡◌, ◌++◌, [], List, Option, Some, OnOk, OnErr, ℕ};
ghost use Rattle.std.specs.Option.{option_copied};
ghost use Rattle.tool_edge.specs.Files.{Files, no_files, with_file};
ghost use Rattle.tool_edge.specs.SteadyDepot.{steady_calls, steady_files};
ghost use Rattle.tool_edge.specs.declared.depot.DepotCall.{DepotCall};

use crate::depot::{Depot, DepotCall, DepotFault, Fetched};
use crate::shelf::Shelf;
use bit_base::text::Text;
use std::alloc::{AllocError, Global};
use std::vec::Vec;

/// A depot in memory. It tells its files and calls, and its count of faults is 0 always, so it never
/// answers `Failed`.
#[derive(Debug, Drop)]
pub struct SteadyDepot {
    pub(crate) shelf: Shelf,
}

impl SteadyDepot {
    /// A depot without files and calls.
    pub fn new(alloc: Global) -> SteadyDepot
        ensures files { steady_files result ≡ no_files }
        ensures calls { steady_calls result ≡ [] }
    {
        SteadyDepot {
            shelf: Shelf::new(alloc),
        }
    }

    /// Puts a file into the depot, which is no call of the list.
    pub fn hold(&mut self, name: Text, bytes: Vec<u8>) -> Result<(), AllocError>
        ensures ok { OnOk result (steady_files self.new ≡ with_file (steady_files self.old) name bytes.items) }
        ensures err { OnErr result (steady_files self.new ≡ steady_files self.old) }
        ensures calls { steady_calls self.new ≡ steady_calls self.old }
    {
        self.shelf.hold(name, bytes)
    }

    /// The bytes of the file of this name.
    pub fn bytes_of(&self, name: &Text) -> Option<&[u8]>
        ensures { option_copied result ≡ steady_files self.now name.now }
    {
        self.shelf.bytes_of(name)
    }

    /// The calls so far, the first one first.
    pub fn calls(&self) -> &[DepotCall]
        ensures { result.now ≡ steady_calls self.now }
    {
        self.shelf.calls.as_slice()
    }
}

impl Depot for SteadyDepot {
    ghost files = { λ depot. Some (steady_files depot) };

    ghost calls = { λ depot. Some (steady_calls depot) };

    ghost faults = { λ _. 0 };

    fn fetch(
        &mut self,
        alloc: Global,
        name: &Text,
        limit: usize,
        into: &mut Vec<u8>,
    ) -> Result<Fetched, DepotFault> {
        match self.shelf.fetch(alloc, name, limit, into) {
            Ok(answer) => Ok(answer),
            Err(_) => Err(DepotFault::NoMemory),
        }
    }

    fn store(&mut self, alloc: Global, name: &Text, bytes: &[u8]) -> Result<(), DepotFault> {
        match self.shelf.store(alloc, name, bytes) {
            Ok(()) => Ok(()),
            Err(_) => Err(DepotFault::NoMemory),
        }
    }
}
