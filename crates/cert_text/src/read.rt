//! Reading the parts of a certificate, line by line.

ghost use Rattle.std.specs.Prelude.{◌≡◌, ℕ, ◌+◌, ◌^◌, ◌<◌, ◌≤◌, true, List, [], ◌∷◌, ◌++◌, length, map, IfOk, IfErr};
ghost use Rattle.std.specs.Str.{bytes_eq};
ghost use Rattle.lemma_checker.specs.Chains.{ReachesEmpty};
ghost use Rattle.lemma_checker.specs.Checker.{link};
ghost use Rattle.gate_graph.specs.declared.circuits.Circuit.{Circuit};
ghost use Rattle.unroll_cnf.specs.declared.latch_literal.LatchLiteral.{LatchLiteral};
ghost use Rattle.unroll_cnf.specs.Latches.{AreOfLatches, weight};
ghost use Rattle.cert_text.specs.declared.fault.CertFault.TheVariants.{At};
ghost use Rattle.cert_text.specs.declared.fault.CertCode.TheVariants.{CertLine};
ghost use Rattle.cert_text.specs.Lines.{words_of, number_after, due_after};
ghost use Rattle.cert_text.specs.Reading.{State, BoundDue, CountDue, ClausesDue, ChainsDue, Link, query_clauses, closed};
ghost use Rattle.cert_text.specs.Steps.{Reads, IsDue, IsClosingFault};

use crate::chains::chain_of;
use crate::clauses::clause_of;
use crate::fault::{CertCode, CertFault};
use crate::lines::Lines;
use crate::numbers::number_of;
use crate::words::Words;
use lemma_checker::chain::{Chain, ChainFault};
use lemma_checker::formula::Formula;
use lemma_checker::lemmas::Lemmas;
use std::alloc::Global;
use std::vec::Vec;
use unroll_cnf::LatchClause;
use unroll_cnf::limits::MOST_EDGES;

/// The refusal of a line that isn't of the form that is due there.
fn wrong_line(line: u32) -> CertFault
    ensures { result ≡ At CertLine line }
{
    CertFault::At {
        code: CertCode::CertLine,
        line,
    }
}

/// Reads the very line that is due.
pub(crate) fn read_due(lines: &mut Lines<'_>, due: &[u8]) -> Result<(), CertFault>
    ensures { (c : Circuit) (s t : State) → IsDue c s due.now t → Reads c s lines.old.rest.now lines.old.number result (λ _. t) lines.new.rest.now lines.new.number }
{
    let number = lines.number;
    let line = lines.next_line()?;
    if line == due {
        Ok(())
    } else {
        Err(wrong_line(number))
    }
}

/// The number of a line that is this name and a number.
fn number_after(name: &[u8], line: &[u8]) -> Option<u32>
    ensures { result ≡ number_after name.now (words_of line.now) }
{
    let mut words = Words::new(line);
    let first = words.next_word()?;
    let second = words.next_word()?;
    if words.next_word().is_some() {
        return None;
    }
    if first == name {
        number_of(second)
    } else {
        None
    }
}

/// Reads the line of k.
pub(crate) fn read_bound(lines: &mut Lines<'_>) -> Result<u32, CertFault>
    ensures reads { (c : Circuit) → Reads c BoundDue lines.old.rest.now lines.old.number result (λ k. CountDue k) lines.new.rest.now lines.new.number }
    ensures bounds { IfOk result (λ k. (1 ≤ k) × (k ≤ MOST_EDGES)) }
{
    let number = lines.number;
    let line = lines.next_line()?;
    match number_after(b"k", line) {
        Some(k) => {
            if 0 < k && k <= MOST_EDGES {
                Ok(k)
            } else {
                Err(wrong_line(number))
            }
        }
        None => Err(wrong_line(number)),
    }
}

/// Reads the line of the set's size.
pub(crate) fn read_count(lines: &mut Lines<'_>) -> Result<u32, CertFault>
    ensures { (c : Circuit) (k : ℕ) → Reads c (CountDue k) lines.old.rest.now lines.old.number result (λ n. ClausesDue k [] n) lines.new.rest.now lines.new.number }
{
    let number = lines.number;
    let line = lines.next_line()?;
    match number_after(b"keep", line) {
        Some(count) => Ok(count),
        None => Err(wrong_line(number)),
    }
}

/// Reads the lines of so many clauses over these latches.
pub(crate) fn read_set(
    alloc: Global,
    lines: &mut Lines<'_>,
    latches: usize,
    count: u32,
) -> Result<Vec<LatchClause>, CertFault>
    ensures reads { (c : Circuit) (k : ℕ) → length c.latches.items ≡ latches → Reads c (ClausesDue k [] count) lines.old.rest.now lines.old.number result (λ set. ClausesDue k set.items 0) lines.new.rest.now lines.new.number }
    ensures of { IfOk result (λ set. AreOfLatches latches set.items) }
    ensures small { IfOk result (λ set. weight set.items + length lines.new.rest.now ≤ length lines.old.rest.now) }
{
    let mut set = Vec::new(alloc);
    'clauses: while set.len() < count as usize {
        let number = lines.number;
        let line = lines.next_line()?;
        match clause_of(alloc, latches, line)? {
            Some(clause) => set.push(clause)?,
            None => return Err(wrong_line(number)),
        }
    }
    Ok(set)
}

/// The chains that were read, where this line is due behind them and a clause of the query is empty.
fn close_query(
    lemmas: Lemmas,
    number: u32,
    line: &[u8],
    due: &[u8],
) -> Result<Vec<Chain>, CertFault>
    ensures ok { IfOk result (λ chains. (bytes_eq line.now due.now ≡ true) × (chains ≡ lemmas.chains) × ReachesEmpty lemmas.formula.clauses (map link chains.items)) }
    ensures err { IfErr result (λ fault. IsClosingFault lemmas line.now due.now number fault) }
{
    if line != due {
        return Err(wrong_line(number));
    }
    match lemmas.refuted() {
        Ok(refutation) => Ok(refutation.chains()),
        Err(_) => Err(CertFault::At {
            code: CertCode::CertShort,
            line: number,
        }),
    }
}

/// Reads the lines of a query's chains, and the line that is due behind them.
pub(crate) fn read_chains(
    alloc: Global,
    lines: &mut Lines<'_>,
    formula: Formula,
    due: &[u8],
) -> Result<Vec<Chain>, CertFault>
    requires few { length formula.clauses < 2 ^ 30 }
    ensures reads { (c : Circuit) (k : ℕ) (set : List (List LatchLiteral)) (done : List (List Link)) → formula.clauses ≡ query_clauses c k set (length done) → due.now ≡ due_after k (length done) → Reads c (ChainsDue k set done []) lines.old.rest.now lines.old.number result (λ chains. closed k set done (map link chains.items)) lines.new.rest.now lines.new.number }
    ensures refute { IfOk result (λ chains. ReachesEmpty formula.clauses (map link chains.items)) }
{
    let mut lemmas = Lemmas::of(formula);
    loop {
        let number = lines.number;
        let line = lines.next_line()?;
        let Some(chain) = chain_of(alloc, line)? else {
            return close_query(lemmas, number, line, due);
        };
        match lemmas.try_chain(chain) {
            Ok(_) => {}
            Err(ChainFault::NoMemory) => return Err(CertFault::NoMemory),
            Err(ChainFault::BadStep) => {
                return Err(CertFault::At {
                    code: CertCode::BadStep,
                    line: number,
                });
            }
        }
    }
}
