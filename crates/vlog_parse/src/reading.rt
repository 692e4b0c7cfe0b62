//! The one tree that tokens spell, or the first refusal.

ghost use Rattle.std.specs.Prelude.{◌≡◌, ◌<◌, ◌≤◌, ◌-◌, ◌⊎◌, List, length, MatchOption, IfOk, IfErr};
ghost use Rattle.vlog_tree.specs.declared.token.VToken.{VToken};
ghost use Rattle.vlog_tree.specs.declared.tree_modules.VlogFile.{VlogFile};
ghost use Rattle.vlog_tree.specs.Modules.{IsReading};
ghost use Rattle.vlog_tree.specs.declared.fault.VlogCode.TheVariants as code;
ghost use Rattle.vlog_parse.specs.LeftOut.{HasLeftOut, HasNoneLeftOut, IsFirstLeftOut};
ghost use Rattle.vlog_parse.specs.Depth.{IsDeep, IsShallow};
ghost use Rattle.vlog_parse.specs.Cut.{StopsWith, Tells};
ghost use Rattle.vlog_parse.specs.Refusal.{Answers, Refuses, OneAnswer, OnCode, IsOfReader, HasNoReading, IsFirstFault, IsTooDeepAt, IsNested, IsFlat, IsRefusedWith, IsReadAs};

use crate::cursor::Cursor;
use crate::depth::first_deep;
use crate::items::source;
use crate::left_out::first_left_out;
use crate::levels::{MOST_LEVELS, STATEMENT_LEVELS};
use parsing::stop::Stop;
use std::alloc::Global;
use vlog_tree::fault::{VlogCode, VlogFault, fault_at};
use vlog_tree::token::VTokens;
use vlog_tree::tree_modules::VlogFile;

/// The tree, or the first impossible token, of tokens that nest no deeper than the reader bears.
fn read_flat(alloc: Global, tokens: &VTokens) -> Result<VlogFile, VlogFault>
    requires { IsFlat tokens.now.list }
    ensures { Tells tokens.now result }
{
    let list = tokens.list.as_slice();
    let room = list.len() + 1;
    let mut cursor = Cursor::new(list, room);
    match source(alloc, &mut cursor, room, room + STATEMENT_LEVELS) {
        Ok(all) => Ok(VlogFile { modules: all }),
        Err(Stop::Memory) => Err(VlogFault::NoMemory),
        Err(Stop::Refused) => {
            let place = cursor.place(tokens.end);
            Err(fault_at(alloc, VlogCode::VlogSyntax, place))
        }
        Err(Stop::Sunk) => unreachable!(),
    }
}

/// The number of the token at which so many are left of so many, where one is.
fn stopped_at(len: usize, left: usize) -> Option<usize>
    ensures { MatchOption result ((left ≡ 0) ⊎ (len < left)) (λ at. (0 < left) × ((left ≤ len) × (at ≡ len - left))) }
{
    if left == 0 {
        return None;
    }
    if left > len {
        return None;
    }
    Some(len - left)
}

/// Why the reader stops with so many tokens left: the next one is impossible, or with it too much stands in one another.
/// The tokens up to it are read once more, and none of those before it nests too deep.
fn why_stopped(alloc: Global, tokens: &VTokens, left: usize) -> Result<VlogFile, VlogFault>
    requires { (rest : List VToken) × (StopsWith tokens.now.list rest × (length rest ≡ left)) }
    ensures { Tells tokens.now result }
{
    let list = tokens.list.as_slice();
    let Some(at) = stopped_at(list.len(), left) else {
        return read_flat(alloc, tokens);
    };
    let (seen, _) = list.split_at(at + 1);
    let room = seen.len() + 1;
    let mut cursor = Cursor::new(seen, room);
    match source(alloc, &mut cursor, room, room + STATEMENT_LEVELS) {
        Ok(_) => Err(fault_at(alloc, VlogCode::VlogDeep, list[at].place)),
        Err(Stop::Memory) => Err(VlogFault::NoMemory),
        Err(Stop::Refused) => {
            if cursor.len() == 0 {
                return Err(fault_at(alloc, VlogCode::VlogDeep, list[at].place));
            }
            let place = cursor.place(tokens.end);
            Err(fault_at(alloc, VlogCode::VlogSyntax, place))
        }
        Err(Stop::Sunk) => unreachable!(),
    }
}

/// The tree, or the first refusal.
fn read(alloc: Global, tokens: &VTokens) -> Result<VlogFile, VlogFault>
    ensures { Answers tokens.now result }
{
    let list = tokens.list.as_slice();
    if let Some(place) = first_left_out(list) {
        return Err(fault_at(alloc, VlogCode::VlogLeftOut, place));
    }
    if let Some(place) = first_deep(list) {
        return Err(fault_at(alloc, VlogCode::VlogDeep, place));
    }
    let room = list.len() + 1;
    let mut cursor = Cursor::new(list, room);
    match source(alloc, &mut cursor, room, MOST_LEVELS) {
        Ok(modules) => Ok(VlogFile { modules }),
        Err(Stop::Memory) => Err(VlogFault::NoMemory),
        Err(Stop::Refused) => why_stopped(alloc, tokens, cursor.len()),
        Err(Stop::Sunk) => unreachable!(),
    }
}

/// The one tree that fits the grammar and has these tokens, with their places.
///
/// Refused are, in this order:
///
/// - 212 at the first token that is a word left out here, or a system name other than `$clog2`, `$signed` and
///   `$unsigned`;
/// - 204 at the first token at which over 64 of `( [ {`, `begin`, `case`, `casez` and `generate` are open, or over 2,048
///   tokens stand without a `;` (in a module's header a `,` in just one bracket counts as one), or over 1,024 `else`
///   stand since the last `always`, `initial`, `module` or `generate`;
/// - 203 where no fitting tree has these tokens: at the first token such that no fitting tree's tokens begin with those
///   up to and including it, or at the end's place where there is no such token.
///
/// 204 also comes at the first token with which over 1,056 items, or over 2,112 items and statements, stand in one
/// another, as by an `if` in each branch of another, unless the 203 stands at an earlier token: the stack of the program
/// isn't grown for them.
#[tactic(auto, using(crate::proofs::Faults::left_out_fault, crate::proofs::Faults::deep_fault, crate::proofs::Faults::left_out_first_of_deep, crate::proofs::Faults::left_out_first_of_syntax, crate::proofs::Faults::shallow_fault, crate::proofs::Faults::unread_fault, crate::proofs::Faults::first_of_faults, crate::proofs::Faults::reader_fault))]
pub fn parse_vlog(alloc: Global, tokens: &VTokens) -> Result<VlogFile, VlogFault>
    ensures reading { IfOk result (IsReading tokens.now.list) }
    ensures none_left_out { IfOk result (λ _. HasNoneLeftOut tokens.now.list) }
    ensures not_too_deep { IfOk result (λ _. IsShallow tokens.now.list) }
    ensures not_too_nested { IfOk result (λ _. IsFlat tokens.now.list) }
    ensures left_out { IfErr result (OnCode code.VlogLeftOut (IsFirstLeftOut tokens.now.list)) }
    ensures too_deep { IfErr result (OnCode code.VlogDeep (IsTooDeepAt tokens.now.list)) }
    ensures left_out_first { IfErr result (OnCode code.VlogDeep (λ _. HasNoneLeftOut tokens.now.list)) }
    ensures left_out_before { IfErr result (OnCode code.VlogSyntax (λ _. HasNoneLeftOut tokens.now.list)) }
    ensures syntax_last { IfErr result (OnCode code.VlogSyntax (λ _. IsShallow tokens.now.list × IsFlat tokens.now.list)) }
    ensures no_reading { IfErr result (OnCode code.VlogSyntax (λ _. HasNoReading tokens.now.list)) }
    ensures no_reading_place { IfErr result (OnCode code.VlogSyntax (IsFirstFault tokens.now)) }
    ensures codes { IfErr result IsOfReader }
    ensures refused { IfErr result (Refuses tokens.now) }
    ensures when_left_out { HasLeftOut tokens.now.list → IsRefusedWith code.VlogLeftOut result }
    ensures when_deep { HasNoneLeftOut tokens.now.list → IsDeep tokens.now.list → IsRefusedWith code.VlogDeep result }
    ensures when_nested { HasNoneLeftOut tokens.now.list → IsShallow tokens.now.list → IsNested tokens.now.list
        → IsRefusedWith code.VlogDeep result }
    ensures when_unread { HasNoneLeftOut tokens.now.list → IsShallow tokens.now.list → IsFlat tokens.now.list
        → HasNoReading tokens.now.list → IsRefusedWith code.VlogSyntax result }
    ensures when_read { (file : VlogFile) → IsReading tokens.now.list file → HasNoneLeftOut tokens.now.list
        → IsShallow tokens.now.list → IsFlat tokens.now.list → IsReadAs file result }
{
    read(alloc, tokens)
}

/// What reading answers is determined by the tokens, but for want of memory: the tree and each refusal, with its place,
/// exclude each other.
#[tactic(auto, using(crate::proofs::OneAnswer::law))]
pub fn one_answer()
    ensures { OneAnswer }
{}
