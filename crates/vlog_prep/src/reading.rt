//! From pieces to tokens.

ghost use Rattle.std.specs.Prelude.{◌≡◌, ◌≤◌, ◌∷◌, Option, length, IfOk};
ghost use Rattle.bit_base.specs.declared.place.Place.{Place};
ghost use Rattle.vlog_prep.specs.declared.piece.Piece.TheVariants.{Directive};
ghost use Rattle.vlog_prep.specs.Pieces.{command_of};
ghost use Rattle.vlog_prep.specs.Reading.{place_at, line, obey, expansion, part_behind, Own, read_by};
ghost use Rattle.vlog_prep.specs.Behind.{behind_line, behind_name, behind};
ghost use Rattle.vlog_prep.specs.Seen.{seen, Follows, used, Goes};

use crate::directive::{Command, command_of};
use crate::piece::Piece;
use crate::progress::{Progress, line, line_len, next_name};
use bit_base::place::Place;
use std::alloc::Global;
use vlog_tree::fault::VlogFault;
use vlog_tree::token::VTokenKind;

/// The most levels of macros.
pub const MOST_LEVELS: u8 = 64;

/// Of pieces that come from a macro, all stand at the place of the outermost use.
fn place_at(at: Option<Place>, place: Place) -> Place
    ensures { result ≡ place_at at place }
{
    match at {
        Some(use_place) => use_place,
        None => place,
    }
}

/// The pieces behind a line.
fn behind_line(pieces: &[Piece]) -> &[Piece]
    ensures { result.now ≡ behind_line pieces.now }
{
    let (_, rest) = pieces.split_at(line_len(pieces));
    rest
}

/// The pieces behind the next name, all where the next piece is none.
#[tactic(auto, unfolding(crate::specs::Behind::behind_name))]
fn behind_name(pieces: &[Piece]) -> &[Piece]
    ensures { result.now ≡ behind_name pieces.now }
{
    let mut rest = pieces;
    while let Some((first, behind)) = rest.split_first() {
        match first {
            Piece::LineEnd => rest = behind,
            Piece::Token { token, .. } if token.is_kind(VTokenKind::Name) => return behind,
            _ => return rest,
        }
    }
    rest
}

/// The pieces behind a directive and what belongs to it.
fn behind_command(command: Command, pieces: &[Piece]) -> &[Piece]
    ensures { result.now ≡ behind (part_behind command) pieces.now }
{
    match command {
        Command::Define | Command::PassedLine => behind_line(pieces),
        Command::Undef | Command::Ifdef | Command::Ifndef | Command::Elsif => behind_name(pieces),
        Command::Else | Command::Endif | Command::PassedWord | Command::Use => pieces,
    }
}

/// The use of a macro, where macros may nest so many levels deep.
#[cycle(reading)]
fn use_macro<'a>(
    alloc: Global,
    levels: u8,
    place: Place,
    name: &[u8],
    progress: &mut Progress<'a>,
) -> Result<(), VlogFault>
    ensures { Follows (used levels place name.now (seen progress.old)) result (seen progress.new) }
{
    match progress.body(alloc, levels, place, name)? {
        Some(body) => read(alloc, levels - 1, Some(place), body, progress),
        None => Ok(()),
    }
}

/// A directive or the use of a macro at a place, and the pieces behind it.
#[cycle(reading)]
#[tactic(auto, unfolding(crate::specs::Reading::obey))]
fn obey<'a>(
    alloc: Global,
    levels: u8,
    place: Place,
    name: &[u8],
    behind: &'a [Piece],
    progress: &mut Progress<'a>,
) -> Result<(), VlogFault>
    ensures { Follows (obey (expansion levels) (command_of name.now) name.now place behind.now (seen progress.old)) result (seen progress.new) }
{
    match command_of(name) {
        Command::Define => progress.define(alloc, place, line(behind)),
        Command::Undef => progress.undefine(alloc, place, next_name(behind)),
        Command::Ifdef => progress.begin(alloc, place, true, next_name(behind)),
        Command::Ifndef => progress.begin(alloc, place, false, next_name(behind)),
        Command::Elsif => progress.turn(alloc, place, next_name(behind)),
        Command::Else => progress.turn_last(alloc, place),
        Command::Endif => progress.close(alloc, place),
        Command::PassedLine | Command::PassedWord => Ok(()),
        Command::Use => use_macro(alloc, levels, place, name, progress),
    }
}

/// A directive or the use of a macro at a place, and the pieces behind it. Answers the pieces behind what belongs to it.
#[cycle(reading)]
fn directive<'a>(
    alloc: Global,
    levels: u8,
    place: Place,
    name: &[u8],
    behind: &'a [Piece],
    progress: &mut Progress<'a>,
) -> Result<&'a [Piece], VlogFault>
    ensures shorter { IfOk result (λ rest. length rest.now ≤ length behind.now) }
    ensures goes { (at : Option Place) (here : Place) → place_at at here ≡ place → Goes levels at (Directive name.now here ∷ behind.now) (seen progress.old) result (seen progress.new) }
{
    match obey(alloc, levels, place, name, behind, progress) {
        Ok(()) => Ok(behind_command(command_of(name), behind)),
        Err(fault) => Err(fault),
    }
}

/// A piece, and those behind it. Answers the pieces behind what belongs to it.
#[cycle(reading)]
fn step<'a>(
    alloc: Global,
    levels: u8,
    at: Option<Place>,
    piece: &'a Piece,
    behind: &'a [Piece],
    progress: &mut Progress<'a>,
) -> Result<&'a [Piece], VlogFault>
    ensures shorter { IfOk result (λ rest. length rest.now ≤ length behind.now) }
    ensures goes { Goes levels at (piece.now ∷ behind.now) (seen progress.old) result (seen progress.new) }
{
    match piece {
        Piece::LineEnd => Ok(behind),
        Piece::Token { token, .. } => {
            let place = place_at(at, token.place);
            match progress.keep(alloc, token, place) {
                Ok(()) => Ok(behind),
                Err(fault) => Err(fault),
            }
        }
        Piece::Directive { name, place } => directive(
            alloc,
            levels,
            place_at(at, *place),
            name.as_bytes(),
            behind,
            progress,
        ),
    }
}

/// Reads pieces, in which macros may nest so many levels deep; those of a macro stand at the place `at`.
#[cycle(reading)]
pub fn read<'a>(
    alloc: Global,
    levels: u8,
    at: Option<Place>,
    pieces: &'a [Piece],
    progress: &mut Progress<'a>,
) -> Result<(), VlogFault>
    ensures { Follows (read_by (expansion levels) at Own pieces.now (seen progress.old)) result (seen progress.new) }
{
    let mut rest = pieces;
    while let Some((piece, behind)) = rest.split_first() {
        rest = step(alloc, levels, at, piece, behind, progress)?;
    }
    Ok(())
}
