//! Refusals of a Verilog text.

ghost use Rattle.std.specs.Prelude.{◌≡◌, []};
ghost use Rattle.vlog_tree.specs.declared.fault.VlogFault.TheVariants.{At};

use bit_base::place::Place;
use bit_base::text::Text;
use sqlite_items::Items;
use std::alloc::{AllocError, Global};
use thiserror::Error;

/// What is wrong with a Verilog text. The variants stand in the order of their numbers, 201 to 214.
#[derive(Clone, Copy, Debug, PartialEq, Eq, Drop)]
pub enum VlogCode {
    /// 201: no token, blank or comment begins here.
    VlogByte,
    /// 202: a directive that isn't known or isn't right, or a macro that isn't defined.
    VlogDirective,
    /// 203: no tree has these tokens.
    VlogSyntax,
    /// 204: brackets, words or statements nest too deep.
    VlogDeep,
    /// 205: a name is missing, doubled or of the wrong kind.
    VlogName,
    /// 206: an expression isn't constant, or its constant isn't right.
    VlogConst,
    /// 207: a bit has two drivers, or none.
    VlogDrive,
    /// 208: assignments and processes wait for each other in a circle.
    VlogLoop,
    /// 209: a process doesn't assign a bit on each of its paths.
    VlogLatch,
    /// 210: a value depends on the order in which processes run.
    VlogRace,
    /// 211: a clock or a reset isn't right.
    VlogClock,
    /// 212: a word of the language that is left out here.
    VlogLeftOut,
    /// 213: the text or its design is too large.
    VlogSize,
    /// 214: a number, an expression or a net is too wide.
    VlogWide,
}

/// Why a Verilog text is refused, or want of memory.
#[derive(Debug, Error, Drop)]
pub enum VlogFault {
    #[error("no memory")]
    NoMemory,
    /// The refusal `code` at `place`; a refusal of a whole file is at line 0, column 0. `names` are the nets that 207 to
    /// 211 are about, and `path` is the path of 209; both are empty otherwise.
    #[error("{code:?} at {place:?}")]
    At {
        code: VlogCode,
        place: Place,
        names: Items<Text>,
        path: Items<u32>,
    },
}

impl From<AllocError> for VlogFault {
    ghost use Rattle.std.specs.Prelude.{◌≡◌};
    ghost use Rattle.vlog_tree.specs.declared.fault.VlogFault.TheVariants.{NoMemory};

    ghost from_gives = { λ _ e. e ≡ NoMemory };

    fn from(_: AllocError) -> VlogFault {
        VlogFault::NoMemory
    }
}

/// The refusal `code` at `place`, about no net.
pub fn fault_at(alloc: Global, code: VlogCode, place: Place) -> VlogFault
    ensures { result ≡ At code place [] [] }
{
    VlogFault::At {
        code,
        place,
        names: Items::new(alloc),
        path: Items::new(alloc),
    }
}
