//! A sink in memory whose puts can be made to fail.

ghost use Rattle.std.specs.Prelude.{◌≡◌, ◌≤◌, [], ◌∷◌, ◌++◌, ℕ, List, Option, Some, IsErrOf, OnOk, OnErr};
ghost use Rattle.tool_edge.specs.Causes.{HasCause};
ghost use Rattle.tool_edge.specs.Failing.{RefusesWhereDue, next_after, refusals_after};
ghost use Rattle.tool_edge.specs.MemorySink.{sink_bytes, sink_failing, sink_faults, sink_next, sink_next_fails};
ghost use Rattle.tool_edge.specs.Written.{AppendsPart};

use crate::sink::{Sink, SinkFault};
use std::alloc::{AllocError, Global};
use std::vec::Vec;

/// A sink in memory. Puts are numbered from 1, one that wants memory takes no number, and `fail_at`
/// makes the put of a number fail. It tells its bytes.
#[derive(Debug, Drop)]
pub struct MemorySink {
    bytes: Vec<u8>,
    failing: Vec<u32>,
    next: u64,
    faults: u64,
}

impl MemorySink {
    /// A sink that was given nothing, with no put to fail.
    pub fn new(alloc: Global) -> MemorySink
        ensures bytes { sink_bytes result ≡ [] }
        ensures failing { sink_failing result ≡ [] }
        ensures next { sink_next result ≡ 1 }
        ensures faults { sink_faults result ≡ 0 }
    {
        MemorySink {
            bytes: Vec::new(alloc),
            failing: Vec::new(alloc),
            next: 1,
            faults: 0,
        }
    }

    /// Makes the put of this number fail.
    pub fn fail_at(&mut self, call: u32) -> Result<(), AllocError>
        ensures ok { OnOk result (sink_failing self.new ≡ sink_failing self.old ++ call ∷ []) }
        ensures err { OnErr result (sink_failing self.new ≡ sink_failing self.old) }
        ensures bytes { sink_bytes self.new ≡ sink_bytes self.old }
        ensures next { sink_next self.new ≡ sink_next self.old }
        ensures faults { sink_faults self.new ≡ sink_faults self.old }
    {
        self.failing.push(call)?;
        Ok(())
    }

    /// The bytes so far.
    pub fn bytes(&self) -> &[u8]
        ensures { result.now ≡ sink_bytes self.now }
    {
        self.bytes.as_slice()
    }

    /// Whether the next put is to fail.
    fn next_fails(&self) -> bool
        ensures { result ≡ sink_next_fails self.now }
    {
        let next = self.next;
        self.failing.iter().any(|call| *call as u64 == next)
    }
}

impl Sink for MemorySink {
    ghost written = { λ sink. Some (sink_bytes sink) };

    ghost faults = { sink_faults };

    fn put(&mut self, _alloc: Global, bytes: &[u8]) -> Result<(), SinkFault>
        // What every sink owes: here an Err appends nothing at all.
        ensures appended { OnOk result (sink_bytes self.new ≡ sink_bytes self.old ++ bytes.now) }
        ensures prefix_after_err { OnErr result (AppendsPart (Some (sink_bytes self.old)) bytes.now (Some (sink_bytes self.new))) }
        ensures nothing_after_err { OnErr result (sink_bytes self.new ≡ sink_bytes self.old) }
        ensures cause { HasCause (sink_faults self.old) (sink_faults self.new) (IsErrOf result SinkFault.Failed) }

        // A put answers Failed exactly where it was due to fail, and the counts go on.
        ensures due { RefusesWhereDue (sink_next_fails self.old) result }
        ensures faults { sink_faults self.new ≡ refusals_after (sink_faults self.old) result }
        ensures next { sink_next self.new ≡ next_after (sink_next self.old) result }
        ensures failing { sink_failing self.new ≡ sink_failing self.old }
    {
        if self.next_fails() {
            self.next = self.next.saturating_add(1);
            self.faults = self.faults.saturating_add(1);
            return Err(SinkFault::Failed);
        }
        match self.bytes.extend_from_slice(bytes) {
            Ok(()) => {
                self.next = self.next.saturating_add(1);
                Ok(())
            }
            Err(_) => Err(SinkFault::NoMemory),
        }
    }
}
