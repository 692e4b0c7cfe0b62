//! Tokens of Verilog (IEEE 1364-2005, clause 3).

ghost use Rattle.std.specs.Prelude.{◌≡◌, true};
ghost use Rattle.vlog_tree.specs.Spelling.{is_token};

use bit_base::place::Place;
use bit_base::text::Text;
use sqlite_items::Items;
use std::alloc::{AllocError, Global};

/// What kind of token a text is.
#[derive(Clone, Copy, Debug, PartialEq, Eq, Drop)]
pub enum VTokenKind {
    /// A letter or `_`, then letters, digits, `_` and `$`, but no word of the grammar.
    Name,
    /// A word of the grammar.
    Word,
    /// A number: decimal digits, or `'`, a base and its digits, with or without a size before it.
    Number,
    /// `$` and a name.
    System,
    /// A mark, such as `(`, `+:` or `<<<`.
    Mark,
}

/// A token: its kind, its bytes, and the place where it begins or at which it is counted.
#[derive(Debug, Drop)]
pub struct VToken {
    pub kind: VTokenKind,
    pub text: Text,
    pub place: Place,
    pub ghost spelled: { is_token kind text ≡ true },
}

impl VToken {
    ghost use Rattle.std.specs.Prelude.{◌≡◌};
    ghost use Rattle.std.specs.Result.{IfOk};
    ghost use Rattle.vlog_tree.specs.declared.token.VTokenKind.TheVariants.{Name, Number};
    ghost use Rattle.vlog_tree.specs.Tokens.{is_text, is_kind};

    /// The same token once more.
    pub fn copy(&self, alloc: Global) -> Result<VToken, AllocError>
        ensures { IfOk result (λ token. token ≡ self.now) }
    {
        self.copy_at(alloc, self.place)
    }

    /// The same token at another place.
    pub fn copy_at(&self, alloc: Global, place: Place) -> Result<VToken, AllocError>
        ensures { IfOk result (λ token. token ≡ record { kind = self.now.kind; text = self.now.text; place = place; spelled = self.now.spelled }) }
    {
        Ok(VToken {
            kind: self.kind,
            text: self.text.copy(alloc)?,
            place,
        })
    }

    /// The mark, the word or the name with these bytes.
    pub fn is_text(&self, bytes: &[u8]) -> bool
        ensures { result ≡ is_text bytes.now self.now }
    {
        self.text.as_bytes() == bytes
    }

    /// A token of this kind.
    pub fn is_kind(&self, kind: VTokenKind) -> bool
        ensures { result ≡ is_kind kind self.now }
    {
        self.kind == kind
    }
}

/// The tokens of a text in order, and the place after its last byte.
#[derive(Debug, Drop)]
pub struct VTokens {
    pub list: Items<VToken>,
    pub end: Place,
}
