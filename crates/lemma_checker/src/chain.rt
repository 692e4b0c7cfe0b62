//! Resolution chains.

ghost use Rattle.std.specs.Prelude.{◌≡◌};
ghost use Rattle.lemma_checker.specs.declared.chain.ChainFault.TheVariants.{NoMemory};

use std::alloc::AllocError;
use std::vec::Vec;
use thiserror::Error;

/// A first clause, and the clauses that are resolved with what came out so far, one after another:
/// their numbers in `ids`, and in `pivots` the variable of each step, one fewer.
#[derive(Debug, Drop)]
pub struct Chain {
    pub ids: Vec<u32>,
    pub pivots: Vec<u32>,
}

/// Why no clause was added.
#[derive(Clone, Copy, Debug, PartialEq, Eq, Drop, Error)]
pub enum ChainFault {
    /// 401: the chain doesn't resolve.
    #[error("the chain doesn't resolve")]
    BadStep,
    /// There was not enough memory.
    #[error("no memory")]
    NoMemory,
}

impl From<AllocError> for ChainFault {
    ghost from_gives = { λ _ fault. fault ≡ NoMemory };

    fn from(_error: AllocError) -> ChainFault {
        ChainFault::NoMemory
    }
}
