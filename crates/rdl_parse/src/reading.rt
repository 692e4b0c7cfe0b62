//! The one tree that tokens spell, or the first refusal.

ghost use Rattle.std.specs.Prelude.{◌≡◌, ◌≤◌, IfOk, IfErr, MatchOption};
ghost use Rattle.rdl_tree.specs.Tree.{IsReading};
ghost use Rattle.rdl_parse.specs.Depth as depth;
ghost use Rattle.rdl_parse.specs.Depth.{IsShallow, IsFirstDeep};
ghost use Rattle.rdl_parse.specs.Refusal.{Refuses};
ghost use Rattle.rdl_parse.specs.Refusal.{OnCode, IsOfReader, HasNoReading, IsFirstFault, HasAtMostOneReading, OneAnswer};
ghost use Rattle.rdl_tree.specs.declared.fault.RdlCode.TheVariants as code;

use crate::cursor::Cursor;
use crate::items::whole;
use bit_base::place::Place;
use parsing::stop::Stop;
use rdl_tree::fault::{RdlCode, RdlFault};
use rdl_tree::token::{RdlToken, RdlTokens};
use rdl_tree::tree::RdlFile;
use std::alloc::Global;

/// How many brackets may be open.
const LIMIT: u8 = 64;

#[tactic(auto, unfolding(crate::specs::Depth::open_with))]
fn open_with(count: u8, token: &RdlToken) -> u8
    requires { count ≤ 64 }
    ensures { result ≡ depth.open_with count token.now }
{
    if token.is_text(b"{") || token.is_text(b"[") {
        count + 1
    } else if token.is_text(b"}") || token.is_text(b"]") {
        count.saturating_sub(1)
    } else {
        count
    }
}

/// The place of the first token at which over 64 brackets are open.
fn first_deep(tokens: &[RdlToken]) -> Option<Place>
    ensures { MatchOption result (IsShallow tokens.now) (λ place. IsFirstDeep tokens.now place) }
{
    let mut open = 0;
    for token in tokens {
        open = open_with(open, token);
        if open > LIMIT {
            return Some(token.place);
        }
    }
    None
}

/// The tree, or the first refusal.
fn read(alloc: Global, tokens: &RdlTokens) -> Result<RdlFile, RdlFault>
    ensures reading { IfOk result (IsReading tokens.now) }
    ensures shallow { IfOk result (λ _. IsShallow tokens.now.list) }
    ensures refused { IfErr result (Refuses tokens.now) }
{
    let list = tokens.list.as_slice();
    if let Some(place) = first_deep(list) {
        return Err(RdlFault::At {
            code: RdlCode::RdlDeep,
            place,
        });
    }
    let mut cursor = Cursor::new(list);
    match whole(alloc, &mut cursor, list.len() + 1) {
        Ok(items) => Ok(RdlFile {
            items,
            end: tokens.end,
        }),
        Err(Stop::Memory) => Err(RdlFault::NoMemory),
        Err(Stop::Refused) => Err(RdlFault::At {
            code: RdlCode::RdlSyntax,
            place: cursor.place(tokens.end),
        }),
        Err(Stop::Sunk) => unreachable!(),
    }
}

/// The one tree that fits the grammar and has these tokens, with their places and the place of the end.
///
/// Refused are 103 at the first token at which over 64 brackets `{` and `[` are open, and else 102 where no
/// fitting tree has these tokens: at the first token such that no fitting tree's tokens begin with those up to
/// and including it, or at the end's place where there is no such token.
#[tactic(auto, using(crate::proofs::Faults::deep_fault, crate::proofs::Faults::shallow_fault, crate::proofs::Faults::unread_fault, crate::proofs::Faults::first_of_faults, crate::proofs::Faults::reader_fault))]
pub fn parse_rdl(alloc: Global, tokens: &RdlTokens) -> Result<RdlFile, RdlFault>
    ensures reading { IfOk result (IsReading tokens.now) }
    ensures not_too_deep { IfOk result (λ _. IsShallow tokens.now.list) }
    ensures too_deep { IfErr result (OnCode code.RdlDeep (IsFirstDeep tokens.now.list)) }
    ensures deep_first { IfErr result (OnCode code.RdlSyntax (λ _. IsShallow tokens.now.list)) }
    ensures no_reading { IfErr result (OnCode code.RdlSyntax (λ _. HasNoReading tokens.now)) }
    ensures no_reading_place { IfErr result (OnCode code.RdlSyntax (IsFirstFault tokens.now)) }
    ensures codes { IfErr result IsOfReader }
    ensures refused { IfErr result (Refuses tokens.now) }
{
    read(alloc, tokens)
}

/// Two fitting trees with equal tokens are equal.
#[tactic(auto, using(crate::proofs::Theorem::one_reading))]
pub fn at_most_one_reading()
    ensures { HasAtMostOneReading }
{}

/// What reading answers is determined by the tokens, but for want of memory: the tree and each refusal, with its place,
/// exclude each other.
#[tactic(auto, using(crate::proofs::OneAnswer::law))]
pub fn one_answer()
    ensures { OneAnswer }
{}
