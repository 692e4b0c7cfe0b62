//! Refusals of a description.

use bit_base::place::Place;
use std::alloc::AllocError;
use thiserror::Error;

/// What is wrong with a description. The variants stand in the order of their numbers, 101 to 109.
#[derive(Clone, Copy, Debug, PartialEq, Eq, Drop)]
pub enum RdlCode {
    /// 101: no token, blank or comment begins here, or a number is too large.
    RdlByte,
    /// 102: no tree has these tokens.
    RdlSyntax,
    /// 103: brackets nest too deep.
    RdlDeep,
    /// 104: a name is missing, doubled or of the wrong kind.
    RdlName,
    /// 105: a property doesn't belong here.
    RdlProperty,
    /// 106: a value isn't one that may stand here.
    RdlValue,
    /// 107: fields or registers lie where they may not.
    RdlPlace,
    /// 108: the description is too large.
    RdlSize,
    /// 109: a stored field has no reset.
    NoReset,
}

/// Why a description is refused, or want of memory.
#[derive(Clone, Copy, Debug, PartialEq, Eq, Error)]
pub enum RdlFault {
    #[error("no memory")]
    NoMemory,
    /// The refusal `code` at `place`; a refusal of the whole description is at line 0, column 0.
    #[error("{code:?} at {place:?}")]
    At { code: RdlCode, place: Place },
}

impl From<AllocError> for RdlFault {
    ghost use Rattle.std.specs.Prelude.{◌≡◌};
    ghost use Rattle.rdl_tree.specs.declared.fault.RdlFault.TheVariants.{NoMemory};

    ghost from_gives = { λ _ e. e ≡ NoMemory };

    fn from(_: AllocError) -> RdlFault {
        RdlFault::NoMemory
    }
}
