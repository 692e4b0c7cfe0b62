//! The tokens that the rows of the grammar ask for, and the levels of operators (IEEE 1364-2005, 5.1).

ghost use Rattle.std.specs.Prelude.{◌≡◌};
ghost use Rattle.vlog_tree.specs.Terminals.{level_among, binary_levels};
ghost use Rattle.vlog_tree.specs.Terminals as spec;

use crate::token::{VToken, VTokenKind};

impl VToken {
    /// The mark with these bytes.
    pub fn is_mark(&self, bytes: &[u8]) -> bool
        ensures { result ≡ spec.is_mark bytes.now self.now }
    {
        self.kind == VTokenKind::Mark && self.text.as_bytes() == bytes
    }

    /// The word with these bytes.
    pub fn is_word(&self, bytes: &[u8]) -> bool
        ensures { result ≡ spec.is_word bytes.now self.now }
    {
        self.kind == VTokenKind::Word && self.text.as_bytes() == bytes
    }

    /// A system function of the subset: `$clog2`, `$signed` or `$unsigned`.
    #[tactic(auto, unfolding(crate::specs::Terminals::is_function))]
    pub fn is_function(&self) -> bool
        ensures { result ≡ spec.is_function self.now }
    {
        let bytes = self.text.as_bytes();
        let is_listed = (bytes == b"$clog2".as_slice())
            | (bytes == b"$signed".as_slice())
            | (bytes == b"$unsigned".as_slice());
        self.kind == VTokenKind::System && is_listed
    }

    /// A unary operator.
    #[tactic(auto, unfolding(crate::specs::Terminals::is_unary))]
    pub fn is_unary(&self) -> bool
        ensures { result ≡ spec.is_unary self.now }
    {
        self.kind == VTokenKind::Mark
            && matches!(
                self.text.as_bytes(),
                b"+" | b"-" | b"!" | b"~" | b"&" | b"~&" | b"|" | b"~|" | b"^" | b"~^" | b"^~"
            )
    }

    /// The level of a binary operator, from 1 for the one that binds tightest to 11; 0 of any other token.
    #[tactic(auto, unfolding(crate::specs::Terminals::level_of))]
    pub fn level(&self) -> u8
        ensures { result ≡ spec.level_of self.now }
    {
        if self.kind == VTokenKind::Mark {
            level_of_mark(self.text.as_bytes())
        } else {
            0
        }
    }
}

/// The level of a binary operator with these bytes; 0 where there is none.
pub fn level_of_mark(bytes: &[u8]) -> u8
    ensures { result ≡ level_among binary_levels 1 bytes.now }
{
    match bytes {
        b"**" => 1,
        b"*" | b"/" | b"%" => 2,
        b"+" | b"-" => 3,
        b"<<" | b">>" | b"<<<" | b">>>" => 4,
        b"<" | b"<=" | b">" | b">=" => 5,
        b"==" | b"!=" | b"===" | b"!==" => 6,
        b"&" => 7,
        b"^" | b"^~" | b"~^" => 8,
        b"|" => 9,
        b"&&" => 10,
        b"||" => 11,
        _ => 0,
    }
}
