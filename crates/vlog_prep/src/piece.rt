//! The pieces of a text.

use bit_base::place::Place;
use bit_base::text::Text;
use vlog_tree::token::VToken;

/// A token, a directive or the use of a macro, or the end of a line.
#[derive(Debug, Drop)]
pub enum Piece {
    /// A token, and whether the byte directly after it is a `(`.
    Token { token: VToken, called: bool },
    /// The name behind the grave accent, and the place of the accent.
    Directive { name: Text, place: Place },
    LineEnd,
}
