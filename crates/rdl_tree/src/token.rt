//! Tokens of a description (SystemRDL 2.0, clause 4).

ghost use Rattle.std.specs.Prelude.{◌≡◌, true};
ghost use Rattle.rdl_tree.specs.Spelling.{is_token};

use crate::reserved::is_reserved;
use bit_base::place::Place;
use bit_base::text::Text;
use sqlite_items::Items;
use std::alloc::{AllocError, Global};

/// What kind of token a text is.
#[derive(Clone, Copy, Debug, PartialEq, Eq, Drop)]
pub enum RdlTokenKind {
    /// A letter or `_`, then letters, digits and `_`: a name, or a word with a meaning of its own.
    Word,
    /// A number below 2^64, plain, hexadecimal or with a size.
    Num,
    /// A string, with its quotation marks.
    Str,
    /// One of `{ } [ ] ; , = : @ -> += %= .`.
    Mark,
}

/// A token: its kind, its bytes, the number of a `Num` (0 of the others), and where it begins.
#[derive(Debug, Drop)]
pub struct RdlToken {
    pub kind: RdlTokenKind,
    pub text: Text,
    pub value: u64,
    pub place: Place,
    pub ghost spelled: { is_token kind text value ≡ true },
}

impl RdlToken {
    ghost use Rattle.std.specs.Prelude.{◌≡◌};
    ghost use Rattle.std.specs.Result.{IfOk};
    ghost use Rattle.rdl_tree.specs.Tree.{is_text, is_name};

    /// The same token once more.
    pub fn copy(&self, alloc: Global) -> Result<RdlToken, AllocError>
        ensures { IfOk result (λ token. token ≡ self.now) }
    {
        Ok(RdlToken {
            kind: self.kind,
            text: self.text.copy(alloc)?,
            value: self.value,
            place: self.place,
        })
    }

    /// The mark or the word with these bytes.
    pub fn is_text(&self, bytes: &[u8]) -> bool
        ensures { result ≡ is_text bytes.now self.now }
    {
        self.text.as_bytes() == bytes
    }

    /// A word that isn't reserved.
    pub fn is_name(&self) -> bool
        ensures { result ≡ is_name self.now }
    {
        self.kind == RdlTokenKind::Word && !is_reserved(self.text.as_bytes())
    }
}

/// The tokens of a description in order, and the place after its last byte.
#[derive(Debug, Drop)]
pub struct RdlTokens {
    pub list: Items<RdlToken>,
    pub end: Place,
}
