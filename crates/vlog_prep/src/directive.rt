//! Directives (IEEE 1364-2005, clause 19, "Compiler directives").

ghost use Rattle.std.specs.Prelude.{◌≡◌};
ghost use Rattle.vlog_prep.specs.Pieces.{command_of, line_after};

use crate::piece::Piece;

/// What a directive does.
#[derive(Clone, Copy, Debug, PartialEq, Eq, Drop)]
pub enum Command {
    Define,
    Undef,
    Ifdef,
    Ifndef,
    Elsif,
    Else,
    Endif,
    /// `timescale` or `default_nettype`: its line is passed over.
    PassedLine,
    /// `celldefine` or `endcelldefine`, which is passed over.
    PassedWord,
    /// The use of a macro.
    Use,
}

/// To what the rest of a line belongs.
#[derive(Clone, Copy, Debug, PartialEq, Eq, Drop)]
pub enum Line {
    Plain,
    /// To a `define`.
    Defined,
    /// To a directive whose line is passed over.
    Ignored,
}

/// What the directive of this name does.
#[tactic(auto, unfolding(crate::specs::Pieces::command_of))]
pub fn command_of(name: &[u8]) -> Command
    ensures { result ≡ command_of name.now }
{
    if name == b"define".as_slice() {
        Command::Define
    } else if name == b"undef".as_slice() {
        Command::Undef
    } else if name == b"ifdef".as_slice() {
        Command::Ifdef
    } else if name == b"ifndef".as_slice() {
        Command::Ifndef
    } else if name == b"elsif".as_slice() {
        Command::Elsif
    } else if name == b"else".as_slice() {
        Command::Else
    } else if name == b"endif".as_slice() {
        Command::Endif
    } else if name == b"timescale".as_slice() || name == b"default_nettype".as_slice() {
        Command::PassedLine
    } else if name == b"celldefine".as_slice() || name == b"endcelldefine".as_slice() {
        Command::PassedWord
    } else {
        Command::Use
    }
}

/// To what the rest of the line belongs behind this piece.
pub fn line_after(line: Line, piece: &Piece) -> Line
    ensures { result ≡ line_after line piece.now }
{
    match (line, piece) {
        (_, Piece::LineEnd) => Line::Plain,
        (Line::Plain, Piece::Directive { name, .. }) => match command_of(name.as_bytes()) {
            Command::Define => Line::Defined,
            Command::PassedLine => Line::Ignored,
            _ => Line::Plain,
        },
        _ => line,
    }
}
