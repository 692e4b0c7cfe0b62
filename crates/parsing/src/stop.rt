//! Why a parser gives no tree.

use std::alloc::AllocError;

/// Why a parser gives no tree. It stands at the refused token then.
#[derive(Clone, Copy, Debug, PartialEq, Eq, Drop)]
pub enum Stop {
    /// There is no memory.
    Memory,
    /// The next token, or the end, can't stand here.
    Refused,
    /// The rules nest deeper than the room that was given.
    Sunk,
}

impl From<AllocError> for Stop {
    ghost use Rattle.std.specs.Prelude.{◌≡◌};
    ghost use Rattle.parsing.specs.declared.stop.Stop.TheVariants.{Memory};

    ghost from_gives = { λ _ e. e ≡ Memory };

    fn from(_: AllocError) -> Stop {
        Stop::Memory
    }
}
