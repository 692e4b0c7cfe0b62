//! Writing a certificate.

ghost use Rattle.std.specs.Prelude.{◌≡◌, ◌+◌, ◌^◌, ◌<◌, ◌≤◌, [], ◌∷◌, ◌++◌, length, map, IfOk, OnOk};
ghost use Rattle.std.specs.List.{All};
ghost use Rattle.std.specs.Fmt.{decimal};
ghost use Rattle.lemma_checker.specs.Checker.{link};
ghost use Rattle.unroll_cnf.specs.Latches.{AreApart};
ghost use Rattle.unroll_cnf.specs.declared.limits.TheConstants.{MOST_EDGES};
ghost use Rattle.cert_text.specs.Accepting.{parts_of};
ghost use Rattle.cert_text.specs.Laws.{IsSmall};
ghost use Rattle.cert_text.specs.Reading.{IsCertificate};
ghost use Rattle.cert_text.specs.Text.{literal_word, spaced, clause_line, chain_line, query_lines, head_lines, text_of_lines, cert_text};

use crate::due::due_line;
use itoa::Buffer;
use k_induction::SafeCircuit;
use lemma_checker::chain::Chain;
use std::alloc::{AllocError, Global};
use std::vec::Vec;
use unroll_cnf::limits::MOST_EDGES;
use unroll_cnf::{LatchClause, LatchLiteral};

/// Appends a number.
fn push_number(text: &mut Vec<u8>, number: u64) -> Result<(), AllocError>
    ensures { OnOk result (text.new.items ≡ text.old.items ++ decimal number) }
{
    let mut buffer = Buffer::new();
    text.extend_from_slice(buffer.format(number).as_bytes())?;
    Ok(())
}

/// Appends a line and its line feed.
fn push_line(text: &mut Vec<u8>, line: &[u8]) -> Result<(), AllocError>
    ensures { OnOk result (text.new.items ≡ text.old.items ++ text_of_lines (line.now ∷ [])) }
{
    text.extend_from_slice(line)?;
    text.push(b'\n')?;
    Ok(())
}

/// Appends a line of a name, a space and a number.
fn push_named(text: &mut Vec<u8>, name: &[u8], number: u64) -> Result<(), AllocError>
    ensures { OnOk result (text.new.items ≡ text.old.items ++ text_of_lines ((name.now ++ (32 ∷ decimal number)) ∷ [])) }
{
    text.extend_from_slice(name)?;
    text.push(b' ')?;
    push_number(text, number)?;
    text.push(b'\n')?;
    Ok(())
}

/// Appends numbers, each behind a space.
fn push_numbers(text: &mut Vec<u8>, numbers: &[u32]) -> Result<(), AllocError>
    ensures text { OnOk result (text.new.items ≡ text.old.items ++ spaced (map decimal numbers.now)) }
    ensures small { OnOk result (All (λ n. n < 2 ^ 32) numbers.now) }
{
    for number in numbers {
        text.push(b' ')?;
        push_number(text, u64::from(*number))?;
    }
    Ok(())
}

/// Appends a literal, behind a space.
fn push_literal(text: &mut Vec<u8>, literal: LatchLiteral) -> Result<(), AllocError>
    ensures { OnOk result (text.new.items ≡ text.old.items ++ (32 ∷ literal_word literal)) }
{
    let sign: &[u8] = if literal.negated { b" -" } else { b" " };
    text.extend_from_slice(sign)?;
    push_number(text, u64::from(literal.latch) + 1)?;
    Ok(())
}

/// Appends literals, each behind a space.
fn push_literals(text: &mut Vec<u8>, literals: &[LatchLiteral]) -> Result<(), AllocError>
    ensures { OnOk result (text.new.items ≡ text.old.items ++ spaced (map literal_word literals.now)) }
{
    for literal in literals {
        push_literal(text, *literal)?;
    }
    Ok(())
}

/// Appends the line of a clause.
#[tactic(auto, unfolding(crate::specs::Text::clause_line))]
fn push_clause(text: &mut Vec<u8>, clause: &LatchClause) -> Result<(), AllocError>
    ensures text { OnOk result (text.new.items ≡ text.old.items ++ text_of_lines (clause_line clause.now ∷ [])) }
    ensures apart { OnOk result (AreApart clause.now) }
{
    text.push(b'c')?;
    push_literals(text, clause.as_slice())?;
    text.push(b'\n')?;
    Ok(())
}

/// Appends the lines of clauses.
fn push_clauses(text: &mut Vec<u8>, set: &[LatchClause]) -> Result<(), AllocError>
    ensures text { OnOk result (text.new.items ≡ text.old.items ++ text_of_lines (map clause_line set.now)) }
    ensures apart { OnOk result (All AreApart set.now) }
{
    for clause in set {
        push_clause(text, clause)?;
    }
    Ok(())
}

/// Appends the line of a chain.
#[tactic(auto, unfolding(crate::specs::Text::chain_line))]
fn push_chain(text: &mut Vec<u8>, chain: &Chain) -> Result<(), AllocError>
    ensures text { OnOk result (text.new.items ≡ text.old.items ++ text_of_lines (chain_line (link chain.now) ∷ [])) }
    ensures small { OnOk result (IsSmall (link chain.now)) }
{
    text.push(b'r')?;
    push_numbers(text, chain.ids.as_slice())?;
    text.extend_from_slice(b" /")?;
    push_numbers(text, chain.pivots.as_slice())?;
    text.push(b'\n')?;
    Ok(())
}

/// Appends the lines of chains.
fn push_chains(text: &mut Vec<u8>, chains: &[Chain]) -> Result<(), AllocError>
    ensures text { OnOk result (text.new.items ≡ text.old.items ++ text_of_lines (map chain_line (map link chains.now))) }
    ensures small { OnOk result (All IsSmall (map link chains.now)) }
{
    for chain in chains {
        push_chain(text, chain)?;
    }
    Ok(())
}

/// Appends the lines of the chains of query `j`, and the line behind them.
fn push_query(
    alloc: Global,
    text: &mut Vec<u8>,
    k: u32,
    j: u32,
    chains: &[Chain],
) -> Result<(), AllocError>
    ensures text { OnOk result (text.new.items ≡ text.old.items ++ text_of_lines (query_lines k j (map link chains.now ∷ []))) }
    ensures small { OnOk result (All IsSmall (map link chains.now)) }
{
    let due = due_line(alloc, k, j)?;
    push_chains(text, chains)?;
    push_line(text, due.as_slice())?;
    Ok(())
}

/// Appends the lines of the base queries' chains, and those behind them.
fn push_bases(
    alloc: Global,
    text: &mut Vec<u8>,
    k: u32,
    bases: &[Vec<Chain>],
) -> Result<(), AllocError>
    requires few { k ≤ MOST_EDGES }
    requires counted { length bases.now ≡ k }
    ensures text { OnOk result (text.new.items ≡ text.old.items ++ text_of_lines (query_lines k 1 (map (λ b. map link b.items) bases.now))) }
    ensures small { OnOk result (All (All IsSmall) (map (λ b. map link b.items) bases.now)) }
{
    let mut j = 0;
    for chains in bases {
        j += 1;
        push_query(alloc, text, k, j, chains.as_slice())?;
    }
    Ok(())
}

/// Appends the lines before the chains.
fn push_head(text: &mut Vec<u8>, k: u32, set: &[LatchClause]) -> Result<(), AllocError>
    ensures text { OnOk result (text.new.items ≡ text.old.items ++ text_of_lines (head_lines k set.now)) }
    ensures apart { OnOk result (All AreApart set.now) }
{
    push_line(text, b"cert 1")?;
    push_named(text, b"k", u64::from(k))?;
    push_named(text, b"keep", set.len() as u64)?;
    push_clauses(text, set)?;
    push_line(text, b"q keep")?;
    Ok(())
}

/// The certificate of a proof: its k, its set of clauses over latches, and the chains of each query,
/// as lines of ASCII text, each with its line feed.
pub fn write_cert(alloc: Global, safe: &SafeCircuit) -> Result<Vec<u8>, AllocError>
    ensures text { IfOk result (λ text. text.items ≡ cert_text (parts_of safe.now)) }
    // Reading it accepts it, as a certificate of the circuit with these parts.
    ensures accepted { IfOk result (λ text. ∥ IsCertificate safe.now.circuit text.items (parts_of safe.now) ∥₁) }
{
    let k = safe.k;
    let mut text = Vec::new(alloc);
    push_head(&mut text, k, safe.set.clauses.as_slice())?;
    push_query(alloc, &mut text, k, 0, safe.set.chains.as_slice())?;
    push_bases(alloc, &mut text, k, safe.bases.as_slice())?;
    push_query(alloc, &mut text, k, k + 1, safe.step.as_slice())?;
    Ok(text)
}
