//! Held files and the calls to them: what the depots in memory are made of.

ghost use Rattle.std.specs.Prelude.{◌≡◌, ◌+◌, ◌^◌, ◌<◌, [], ◌∷◌, ◌++◌, IfOk, OnOk, OnErr, length, true, false};
ghost use Rattle.std.specs.Option.{option_copied};
ghost use Rattle.tool_edge.specs.Calls.{entry_of, one_call};
ghost use Rattle.tool_edge.specs.Files.{HasLength, fetch_answer, fetched_bytes, with_file};
ghost use Rattle.tool_edge.specs.Shelf.{held_at};
ghost use Rattle.tool_edge.specs.declared.depot.DepotAnswer.TheVariants.{Stored};

use crate::depot::{DepotAnswer, DepotCall, Fetched};
use bit_base::text::Text;
use std::alloc::{AllocError, Global};
use std::collections::VecDeque;
use std::vec::Vec;

/// A file that is held in memory.
#[derive(Debug, Drop)]
pub struct HeldFile {
    pub(crate) name: Text,
    pub(crate) bytes: Vec<u8>,
}

/// Files, the newest first, and the calls to them, the oldest first.
#[derive(Debug, Drop)]
pub struct Shelf {
    pub(crate) files: VecDeque<HeldFile>,
    pub(crate) calls: Vec<DepotCall>,
}

impl Shelf {
    /// No files and no calls.
    pub(crate) fn new(alloc: Global) -> Shelf
        ensures files { result.files.items ≡ [] }
        ensures calls { result.calls.items ≡ [] }
    {
        Shelf {
            files: VecDeque::new(alloc),
            calls: Vec::new(alloc),
        }
    }

    /// Puts a file on the shelf, which is no call.
    pub(crate) fn hold(&mut self, name: Text, bytes: Vec<u8>) -> Result<(), AllocError>
        ensures ok { OnOk result (held_at self.new.files.items ≡ with_file (held_at self.old.files.items) name bytes.items) }
        ensures err { OnErr result (held_at self.new.files.items ≡ held_at self.old.files.items) }
        ensures calls { self.new.calls.items ≡ self.old.calls.items }
    {
        self.files.push_front(HeldFile { name, bytes })?;
        Ok(())
    }

    /// The bytes of the file of this name.
    pub(crate) fn bytes_of(&self, name: &Text) -> Option<&[u8]>
        ensures { option_copied result ≡ held_at self.now.files.items name.now }
    {
        for file in &self.files {
            if file.name.as_bytes() == name.as_bytes() {
                return Some(file.bytes.as_slice());
            }
        }
        None
    }

    /// Reads a file as a depot's `fetch` does, and notes the call.
    pub(crate) fn fetch(
        &mut self,
        alloc: Global,
        name: &Text,
        limit: usize,
        into: &mut Vec<u8>,
    ) -> Result<Fetched, AllocError>
        requires { limit < 2 ^ 32 }
        ensures files { held_at self.new.files.items ≡ held_at self.old.files.items }
        ensures answer { IfOk result (λ r. r ≡ fetch_answer limit (held_at self.old.files.items name.now)) }
        ensures bytes { OnOk result (into.new.items ≡ fetched_bytes limit (held_at self.old.files.items name.now)) }
        ensures length { IfOk result (λ r. HasLength limit r (length into.new.items)) }
        ensures err { OnErr result (into.new.items ≡ []) }
        ensures call { IfOk result (λ r. self.new.calls.items ≡ self.old.calls.items ++ one_call name.now false (entry_of r)) }
        ensures no_call { OnErr result (self.new.calls.items ≡ self.old.calls.items) }
    {
        into.clear();
        let answer = match self.bytes_of(name) {
            None => Fetched::Missing,
            Some(bytes) => {
                into.extend_from_slice(&bytes[..bytes.len().min(limit + 1)])?;
                if bytes.len() <= limit {
                    Fetched::Whole
                } else {
                    Fetched::Long
                }
            }
        };
        match note(alloc, &mut self.calls, name, false, listed(answer)) {
            Ok(()) => Ok(answer),
            Err(error) => {
                into.clear();
                Err(error)
            }
        }
    }

    /// Stores a file as a depot's `store` does, and notes the call.
    pub(crate) fn store(
        &mut self,
        alloc: Global,
        name: &Text,
        bytes: &[u8],
    ) -> Result<(), AllocError>
        ensures ok { OnOk result (held_at self.new.files.items ≡ with_file (held_at self.old.files.items) name.now bytes.now) }
        ensures err { OnErr result (held_at self.new.files.items ≡ held_at self.old.files.items) }
        ensures call { OnOk result (self.new.calls.items ≡ self.old.calls.items ++ one_call name.now true Stored) }
        ensures no_call { OnErr result (self.new.calls.items ≡ self.old.calls.items) }
    {
        let file = HeldFile {
            name: name.copy(alloc)?,
            bytes: bytes.to_vec(alloc)?,
        };
        self.files.push_front(file)?;
        match note(alloc, &mut self.calls, name, true, DepotAnswer::Stored) {
            Ok(()) => Ok(()),
            Err(error) => {
                let _ = self.files.pop_front();
                Err(error)
            }
        }
    }
}

/// The answer of a fetch as the list of calls has it.
fn listed(answer: Fetched) -> DepotAnswer
    ensures { result ≡ entry_of answer }
{
    match answer {
        Fetched::Whole => DepotAnswer::Whole,
        Fetched::Long => DepotAnswer::Long,
        Fetched::Missing => DepotAnswer::Missing,
    }
}

/// Appends one call to a list of calls.
pub(crate) fn note(
    alloc: Global,
    calls: &mut Vec<DepotCall>,
    name: &Text,
    store: bool,
    answer: DepotAnswer,
) -> Result<(), AllocError>
    ensures ok { OnOk result (calls.new.items ≡ calls.old.items ++ one_call name.now store answer) }
    ensures err { OnErr result (calls.new.items ≡ calls.old.items) }
{
    let name = name.copy(alloc)?;
    calls.push(DepotCall {
        name,
        store,
        answer,
    })?;
    Ok(())
}
