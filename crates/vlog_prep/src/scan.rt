//! From the bytes of a file to its pieces.

ghost use Rattle.std.specs.Prelude.{◌≡◌, ◌≤◌, ◌++◌, [], ◌∷◌, true, false, drop, fold, length, option_to_list, IfOk, IfErr, OnOk};
ghost use Rattle.vlog_tree.specs.Spelling.{is_token};
ghost use Rattle.vlog_prep.specs.declared.piece.Piece.TheVariants.{Directive};
ghost use Rattle.std.specs.List.{list_all};
ghost use Rattle.vlog_prep.specs.Lexemes.{is_lexeme, is_in_line};
ghost use Rattle.vlog_prep.specs.Pieces.{line_after, line_end, begins_with, lexeme_of, AreToken, Makes};
ghost use Rattle.vlog_prep.specs.Prepared.{most_bytes};
ghost use Rattle.vlog_prep.specs.Scanned.{strays, Appends, IsBadIn};

use crate::directive::{Line, line_after};
use crate::lengths::lexeme_at;
use crate::lexeme::Lexeme;
use crate::piece::Piece;
use crate::places::moved;
use bit_base::place::Place;
use bit_base::text::text_of;
use sqlite_items::Items;
use std::alloc::{AllocError, Global};
use vlog_tree::fault::{VlogCode, VlogFault, fault_at};
use vlog_tree::token::{VToken, VTokenKind};
use vlog_tree::words::is_quoted;

/// The longest file that is read, in bytes.
pub const MOST_BYTES: usize = 1_048_576;

/// A line is continued that isn't one of a `define`.
fn strays(line: Line, lexeme: Lexeme) -> bool
    ensures { result ≡ strays line lexeme }
{
    match (line, lexeme) {
        (Line::Defined, _) => false,
        (_, Lexeme::Continued) => true,
        _ => false,
    }
}

/// The byte is no line feed.
fn is_in_line(byte: u8) -> bool
    ensures { result ≡ is_in_line byte }
{
    byte != b'\n'
}

/// The text has no line feed.
fn stays_in_line(text: &[u8]) -> bool
    ensures { result ≡ list_all is_in_line text.now }
{
    text.iter().all(|byte| is_in_line(*byte))
}

/// The piece that ends a line, where the text has a line feed.
fn line_end(text: &[u8]) -> Option<Piece>
    ensures { option_to_list result ≡ line_end text.now }
{
    if stays_in_line(text) {
        None
    } else {
        Some(Piece::LineEnd)
    }
}

/// The byte directly after a token is a `(`.
fn is_called(after: &[u8]) -> bool
    ensures { result ≡ begins_with 40 after.now }
{
    matches!(after, [b'(', ..])
}

/// The token of this kind and text, before the bytes `after`.
fn token_of(
    alloc: Global,
    kind: VTokenKind,
    text: &[u8],
    after: &[u8],
    place: Place,
) -> Result<Option<Piece>, AllocError>
    requires { is_token kind text.now ≡ true }
    ensures { IfOk result (λ o. AreToken place after.now (lexeme_of kind) text.now (option_to_list o)) }
{
    let text = text_of(alloc, text)?;
    Ok(Some(Piece::Token {
        token: VToken { kind, text, place },
        called: is_called(after),
    }))
}

/// The directive of this text.
fn directive_of(alloc: Global, text: &[u8], place: Place) -> Result<Option<Piece>, AllocError>
    ensures { IfOk result (λ o. option_to_list o ≡ Directive (drop 1 text.now) place ∷ []) }
{
    let name = match text {
        [_, name @ ..] => text_of(alloc, name)?,
        [] => text_of(alloc, text)?,
    };
    Ok(Some(Piece::Directive { name, place }))
}

/// The piece, if any, that the lexeme of this text makes, before the bytes `after`.
#[tactic(auto, unfolding(vlog_tree::specs::Spelling::is_token))]
fn piece_of(
    alloc: Global,
    lexeme: Lexeme,
    text: &[u8],
    after: &[u8],
    place: Place,
) -> Result<Option<Piece>, AllocError>
    requires { is_lexeme lexeme text.now ≡ true }
    ensures { IfOk result (λ o. Makes place after.now lexeme text.now (option_to_list o)) }
{
    match lexeme {
        Lexeme::Blank | Lexeme::Passed => Ok(line_end(text)),
        Lexeme::Continued => Ok(None),
        Lexeme::Tick => directive_of(alloc, text, place),
        Lexeme::Identifier if is_quoted(text) => {
            token_of(alloc, VTokenKind::Word, text, after, place)
        }
        Lexeme::Identifier => token_of(alloc, VTokenKind::Name, text, after, place),
        Lexeme::Numeral => token_of(alloc, VTokenKind::Number, text, after, place),
        Lexeme::SystemName => token_of(alloc, VTokenKind::System, text, after, place),
        Lexeme::Symbol => token_of(alloc, VTokenKind::Mark, text, after, place),
    }
}

/// Puts the piece behind those that are there, and tells to what the rest of the line belongs.
fn push_piece(
    pieces: &mut Items<Piece>,
    line: Line,
    piece: Option<Piece>,
) -> Result<Line, AllocError>
    ensures pushed { OnOk result (pieces.new ≡ pieces.old ++ option_to_list piece) }
    ensures line { IfOk result (λ l. l ≡ fold line_after line (option_to_list piece)) }
{
    match piece {
        Some(piece) => {
            let line = line_after(line, &piece);
            pieces.push(piece)?;
            Ok(line)
        }
        None => Ok(line),
    }
}

/// Puts the pieces of a file, the end of its last line too, behind those that are there.
pub fn read_file(
    alloc: Global,
    file: u32,
    bytes: &[u8],
    pieces: &mut Items<Piece>,
) -> Result<(), VlogFault>
    requires { length bytes.now ≤ most_bytes }
    ensures read { OnOk result (Appends file bytes.now pieces.old pieces.new) }
    ensures refused { IfErr result (IsBadIn file bytes.now) }
{
    let mut rest = bytes;
    let mut line = Line::Plain;
    let mut place = Place {
        file,
        line: 1,
        column: 1,
    };
    while !rest.is_empty() {
        let Some((lexeme, len)) = lexeme_at(rest) else {
            return Err(fault_at(alloc, VlogCode::VlogByte, place));
        };
        if strays(line, lexeme) {
            return Err(fault_at(alloc, VlogCode::VlogByte, place));
        }
        let (text, after) = rest.split_at(len);
        let piece = piece_of(alloc, lexeme, text, after, place)?;
        line = push_piece(pieces, line, piece)?;
        place = moved(place, text);
        rest = after;
    }
    pieces.push(Piece::LineEnd)?;
    Ok(())
}
