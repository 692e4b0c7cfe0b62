//! From the files of a Verilog text to its tokens after directives and macros.

ghost use Rattle.std.specs.Prelude.{◌≡◌, ◌<◌, ◌^◌, [], Err, map, length, vec_items, IfOk, IfErr, OnOk};
ghost use Rattle.bit_base.specs.declared.place.Place.{Place};
ghost use Rattle.vlog_tree.specs.declared.fault.VlogCode.TheVariants.{VlogByte, VlogDirective, VlogSize};
ghost use Rattle.vlog_tree.specs.declared.fault.VlogFault.TheVariants.{At};
ghost use Rattle.vlog_prep.specs.Pieces.{AreRead};
ghost use Rattle.vlog_prep.specs.Prepared.{AreSmall, IsFirstLong, end_of, ArePrepared, IsBadAt, AreRefused, IsTooLargeAt, WithCode, HasOwnCode, OneAnswer};
ghost use Rattle.vlog_prep.specs.Seen.{seen};
ghost use Rattle.vlog_prep.specs.Files.{IsLong, IsBadFault, Means, Ends};

use crate::piece::Piece;
use crate::places::moved;
use crate::progress::Progress;
use crate::reading::{MOST_LEVELS, read};
use crate::scan::{MOST_BYTES, read_file};
use bit_base::place::Place;
use sqlite_items::Items;
use std::alloc::Global;
use vlog_tree::fault::{VlogCode, VlogFault, fault_at};
use vlog_tree::token::{VToken, VTokens};

/// 213 where a file is too long.
fn check_sizes(alloc: Global, files: &[Vec<u8>]) -> Result<(), VlogFault>
    requires { length files.now < 2 ^ 32 }
    ensures small { OnOk result (AreSmall (map vec_items files.now)) }
    ensures long { IfErr result (IsLong (map vec_items files.now)) }
{
    for (number, bytes) in files.iter().enumerate() {
        if bytes.len() > MOST_BYTES {
            let place = Place {
                file: number as u32,
                line: 0,
                column: 0,
            };
            return Err(fault_at(alloc, VlogCode::VlogSize, place));
        }
    }
    Ok(())
}

/// The pieces of all files.
fn read_files(alloc: Global, files: &[Vec<u8>]) -> Result<Items<Piece>, VlogFault>
    requires count { length files.now < 2 ^ 32 }
    requires small { AreSmall (map vec_items files.now) }
    ensures read { IfOk result (AreRead (map vec_items files.now)) }
    ensures bad { IfErr result (IsBadFault (map vec_items files.now)) }
{
    let mut pieces = Items::new(alloc);
    for (number, bytes) in files.iter().enumerate() {
        match read_file(alloc, number as u32, bytes.as_slice(), &mut pieces) {
            Ok(()) => {}
            Err(fault) => return Err(fault),
        }
    }
    Ok(pieces)
}

/// The tokens, unless a condition is open at the end.
fn finished(alloc: Global, progress: Progress<'_>) -> Result<Items<VToken>, VlogFault>
    ensures { Ends (seen progress.entry) result }
{
    let Progress {
        mut conditions,
        tokens,
        ..
    } = progress;
    match conditions.pop() {
        Some(open) => Err(fault_at(alloc, VlogCode::VlogDirective, open.place)),
        None => Ok(tokens),
    }
}

/// What the pieces mean.
#[tactic(auto, unfolding(crate::specs::Reading::prepared))]
fn tokens_of(alloc: Global, pieces: &[Piece]) -> Result<Items<VToken>, VlogFault>
    ensures { Means pieces.now result }
{
    let mut progress = Progress::new(alloc);
    read(alloc, MOST_LEVELS, None, pieces, &mut progress)?;
    finished(alloc, progress)
}

/// The place after the last byte of the last file.
fn end_of(files: &[Vec<u8>]) -> Place
    requires count { length files.now < 2 ^ 32 }
    requires small { AreSmall (map vec_items files.now) }
    ensures { result ≡ end_of (map vec_items files.now) }
{
    let count = files.len();
    if count == 0 {
        return Place {
            file: 0,
            line: 1,
            column: 1,
        };
    }
    let last = count - 1;
    let start = Place {
        file: last as u32,
        line: 1,
        column: 1,
    };
    moved(start, files[last].as_slice())
}

/// The tokens of the files after directives and macros, in the order of the files, and the place after the last byte.
/// Places are in the files by their numbers from 0, with lines and columns from 1 in bytes; a token that comes from a
/// macro stands at the place of the outermost use. Refusals, of which the first in this order comes:
///
/// - 213 at 0:0 of the first file of over 1 MiB;
/// - 201 at the first byte of what is no token, directive, blank, comment or attribute, also of a comment or an
///   attribute that isn't closed and of a `\` that doesn't continue a `define`, in parts that are left out too;
/// - 202 at a directive or the use of a macro that isn't right, or 213 at 0:0 of file 0 where there are over 200,000
///   tokens, each use of a macro counted as one more, where the texts of the macros that are used have together over
///   4,000,000 tokens and directives, or where a 1,025th condition is opened within others; of all these the one that
///   is met first, and at one directive or use 202.
pub fn prepare(alloc: Global, files: &[Vec<u8>]) -> Result<VTokens, VlogFault>
    requires { length files.now < 2 ^ 32 }
    ensures tokens { IfOk result (ArePrepared (map vec_items files.now)) }
    ensures file_too_large { (place : Place) → IsFirstLong (map vec_items files.now) place → result ≡ Err (At VlogSize place [] []) }
    ensures bad_byte { IfErr result (WithCode VlogByte (IsBadAt (map vec_items files.now))) }
    ensures directive { IfErr result (WithCode VlogDirective (AreRefused (map vec_items files.now) VlogDirective)) }
    ensures too_many { IfErr result (WithCode VlogSize (IsTooLargeAt (map vec_items files.now))) }
    ensures codes { IfErr result HasOwnCode }
{
    match check_sizes(alloc, files) {
        Ok(()) => {}
        Err(fault) => return Err(fault),
    }
    let pieces = match read_files(alloc, files) {
        Ok(pieces) => pieces,
        Err(fault) => return Err(fault),
    };
    match tokens_of(alloc, pieces.as_slice()) {
        Ok(list) => Ok(VTokens {
            list,
            end: end_of(files),
        }),
        Err(fault) => Err(fault),
    }
}

/// What preparing answers is determined by the bytes of the files, but for want of memory: the tokens and each refusal
/// exclude each other.
pub fn one_answer()
    ensures { OneAnswer }
{}
