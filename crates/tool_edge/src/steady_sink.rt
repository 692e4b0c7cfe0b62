//! A sink in memory that never fails.

ghost use Rattle.std.specs.Prelude.{◌≡◌, [], ℕ, List, Option, Some};
ghost use Rattle.tool_edge.specs.SteadySink.{steady_bytes};

use crate::sink::{Sink, SinkFault};
use std::alloc::Global;
use std::vec::Vec;

/// A sink in memory. It tells its bytes, and its count of faults is 0 always, so it never answers
/// `Failed`.
#[derive(Debug, Drop)]
pub struct SteadySink {
    bytes: Vec<u8>,
}

impl SteadySink {
    /// A sink that was given nothing.
    pub fn new(alloc: Global) -> SteadySink
        ensures { steady_bytes result ≡ [] }
    {
        SteadySink {
            bytes: Vec::new(alloc),
        }
    }

    /// The bytes so far.
    pub fn bytes(&self) -> &[u8]
        ensures { result.now ≡ steady_bytes self.now }
    {
        self.bytes.as_slice()
    }
}

impl Sink for SteadySink {
    ghost written = { λ sink. Some (steady_bytes sink) };

    ghost faults = { λ _. 0 };

    fn put(&mut self, _alloc: Global, bytes: &[u8]) -> Result<(), SinkFault> {
        match self.bytes.extend_from_slice(bytes) {
            Ok(()) => Ok(()),
            Err(_) => Err(SinkFault::NoMemory),
        }
    }
}
