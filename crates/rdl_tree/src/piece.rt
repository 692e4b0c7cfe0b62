//! The pieces that a description is made of.

use crate::token::RdlTokenKind;

/// A piece of a description: a blank or a comment, or a token of a kind.
#[derive(Clone, Copy, Debug, PartialEq, Eq, Drop)]
pub enum Piece {
    Gap,
    Token(RdlTokenKind),
}
