//! A depot over the files of the host.

ghost use Rattle.std.specs.Prelude.{◌≡◌, ◌≢◌, ◌^◌, ◌<◌, [], ℕ, None, IfOk, OnErr, IsErrOf, length, is_ok, if◌then◌else◌};
ghost use Rattle.tool_edge.specs.Causes.{HasCause};
ghost use Rattle.tool_edge.specs.Failing.{raised};
ghost use Rattle.tool_edge.specs.Files.{HasLength};
ghost use Rattle.tool_edge.specs.HostDepot.{depot_faults};

use crate::depot::{Depot, DepotFault, Fetched};
use bit_base::text::Text;
use std::alloc::Global;
use std::io::{ErrorKind, Read};
use std::rt::Files;
use std::vec::Vec;
use std::{fs, io, str};

/// A depot over the files that `R` reaches, by their paths. It tells nothing; each `Err` raises its
/// count of faults, and a file that isn't there is a fault.
#[derive(Drop)]
pub struct HostDepot<R: Files + Drop> {
    rt: R,
    faults: u64,
}

impl<R: Files + Drop> HostDepot<R> {
    /// A depot over these files, without a fault.
    pub fn new(rt: R) -> HostDepot<R>
        ensures { depot_faults result ≡ 0 }
    {
        HostDepot { rt, faults: 0 }
    }
}

impl<R: Files + Drop> Depot for HostDepot<R> {
    ghost files = { λ _. None };

    ghost calls = { λ _. None };

    ghost faults = { λ depot. depot_faults depot };

    fn fetch(
        &mut self,
        _alloc: Global,
        name: &Text,
        limit: usize,
        into: &mut Vec<u8>,
    ) -> Result<Fetched, DepotFault>
        requires { limit < 2 ^ 32 }
        // What every depot owes where it tells nothing: an absent file is a fault.
        ensures length { IfOk result (λ r. HasLength limit r (length into.new.items)) }
        ensures found { result ≢ Ok Fetched.Missing }
        ensures err { OnErr result (into.new.items ≡ []) }
        ensures cause { HasCause (depot_faults self.old) (depot_faults self.new) (IsErrOf result DepotFault.Failed) }

        // Each Err raises the count by one.
        ensures count { depot_faults self.new ≡ (if is_ok result then depot_faults self.old else raised (depot_faults self.old)) }
    {
        into.clear();
        match read_part(&self.rt, name, limit, into) {
            Ok(answer) => Ok(answer),
            Err(fault) => {
                into.clear();
                self.faults = self.faults.saturating_add(1);
                Err(fault)
            }
        }
    }

    fn store(&mut self, _alloc: Global, name: &Text, bytes: &[u8]) -> Result<(), DepotFault>
        ensures cause { HasCause (depot_faults self.old) (depot_faults self.new) (IsErrOf result DepotFault.Failed) }
        ensures count { depot_faults self.new ≡ (if is_ok result then depot_faults self.old else raised (depot_faults self.old)) }
    {
        match write_whole(&self.rt, name, bytes) {
            Ok(()) => Ok(()),
            Err(fault) => {
                self.faults = self.faults.saturating_add(1);
                Err(fault)
            }
        }
    }
}

/// Reads at most `limit + 1` bytes of the file of this name.
fn read_part<R: Files>(
    rt: &R,
    name: &Text,
    limit: usize,
    into: &mut Vec<u8>,
) -> Result<Fetched, DepotFault>
    requires { limit < 2 ^ 32 }
    ensures length { IfOk result (λ r. HasLength limit r (length into.new.items)) }
    ensures found { result ≢ Ok Fetched.Missing }
{
    let path = path_of(name)?;
    let file = fs::open(rt, path).map_err(fault_of)?;
    let mut part = file.take(limit as u64 + 1);
    part.read_to_end(into).map_err(fault_of)?;
    into.truncate(limit + 1);
    Ok(if into.len() <= limit {
        Fetched::Whole
    } else {
        Fetched::Long
    })
}

/// Writes these bytes to the file of this name.
fn write_whole<R: Files>(rt: &R, name: &Text, bytes: &[u8]) -> Result<(), DepotFault> {
    let path = path_of(name)?;
    fs::write(rt, path, bytes).map_err(fault_of)
}

/// A name as a path.
fn path_of(name: &Text) -> Result<&str, DepotFault> {
    match str::from_utf8(name.as_bytes()) {
        Ok(path) => Ok(path),
        Err(_) => Err(DepotFault::Failed),
    }
}

/// What an error of the system is here.
fn fault_of(error: io::Error) -> DepotFault {
    match error.kind() {
        ErrorKind::OutOfMemory => DepotFault::NoMemory,
        _ => DepotFault::Failed,
    }
}
