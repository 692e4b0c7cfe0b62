//! The resolver: a set of literals as a table of marks, with the list of what was marked.

ghost use Rattle.std.specs.Prelude.{◌≡◌, ℕ, ◌+◌, ◌*◌, ◌-◌, ◌<◌, ◌≤◌, ◌≢◌, Bool, true, false, List, [], ◌++◌, length, slice_get, Option, Some, None, OnOk, OnErr, IfOk, Err};
ghost use Rattle.std.specs.Option.{option_copied};
ghost use Rattle.std.specs.Result.{result_unwrap_or};
ghost use Rattle.lemma_checker.specs.declared.literal.Literal.{Literal};
ghost use Rattle.lemma_checker.specs.declared.chain.ChainFault.{ChainFault};
ghost use Rattle.lemma_checker.specs.declared.chain.ChainFault.TheVariants.{BadStep};
ghost use Rattle.lemma_checker.specs.Clauses.{has, set_of, at, AreDistinct};
ghost use Rattle.lemma_checker.specs.Chains.{clash, clashes, resolved, numbered, chain_from, chain_result};
ghost use Rattle.lemma_checker.specs.Checker.{Lists, AreBelow, AreAllBelow, with_literal, joined};

use crate::chain::{Chain, ChainFault};
use crate::clause::has_number;
use crate::clauses::Clauses;
use crate::literal::Literal;
use std::alloc::AllocError;
use std::vec::Vec;

/// The clause of this number, from 1: the formula's clauses first, then the added ones.
pub fn clause_at<'a>(formula: &'a Clauses, added: &'a Clauses, id: u32) -> Option<&'a [Literal]>
    ensures { option_copied result ≡ numbered (formula.now ++ added.now) id }
{
    if id == 0 {
        return None;
    }
    let place = id as usize - 1;
    if place < formula.len() {
        formula.get(place)
    } else {
        added.get(place - formula.len())
    }
}

/// Whether this literal's number is marked; past the table none is.
pub fn is_marked(marks: &[bool], number: usize) -> bool
    ensures { result ≡ at marks.now number }
{
    marks.get(number).copied().unwrap_or(false)
}

/// Marks a literal, and lists it where it was not marked.
pub fn mark(
    marks: &mut [bool],
    touched: &mut Vec<Literal>,
    literal: Literal,
) -> Result<(), AllocError>
    requires below { literal.0 < length marks.old }
    requires lists { Lists marks.old touched.old.items }
    ensures lists { Lists marks.new touched.new.items }
    ensures set { OnOk result ((l : ℕ) → at marks.new l ≡ with_literal (at marks.old) literal.0 l) }
{
    let place = literal.0 as usize;
    if !marks[place] {
        touched.push(literal)?;
        marks[place] = true;
    }
    Ok(())
}

/// Marks each literal of the clause.
pub fn merge(
    marks: &mut [bool],
    touched: &mut Vec<Literal>,
    clause: &[Literal],
) -> Result<(), AllocError>
    requires below { AreBelow (length marks.old) clause.now }
    requires lists { Lists marks.old touched.old.items }
    ensures lists { Lists marks.new touched.new.items }
    ensures set { OnOk result ((l : ℕ) → at marks.new l ≡ joined (at marks.old) (set_of clause.now) l) }
{
    for literal in clause {
        mark(marks, touched, *literal)?;
    }
    Ok(())
}

/// Takes away the mark of this number, if there is one.
pub fn unmark(marks: &mut [bool], number: usize)
    ensures cleared { at marks.new number ≡ false }
    ensures others { (l : ℕ) → l ≢ number → at marks.new l ≡ at marks.old l }
{
    if number < marks.len() {
        marks[number] = false;
    }
}

/// Whether the marked set and the clause can be resolved on the variable.
#[tactic(auto, unfolding(crate::specs::Chains::clashes))]
pub fn can_resolve(marks: &[bool], clause: &[Literal], pivot: u32) -> bool
    ensures { result ≡ clashes pivot (at marks.now) (set_of clause.now) }
{
    let plain = 2 * pivot as usize;
    let negated = plain + 1;
    if is_marked(marks, plain) {
        !is_marked(marks, negated) && has_number(clause, negated) && !has_number(clause, plain)
    } else {
        is_marked(marks, negated) && has_number(clause, plain) && !has_number(clause, negated)
    }
}

/// Resolves the marked set with the clause on the variable: true where it can be.
pub fn resolve(
    marks: &mut [bool],
    touched: &mut Vec<Literal>,
    clause: &[Literal],
    pivot: u32,
) -> Result<(), ChainFault>
    requires below { AreBelow (length marks.old) clause.now }
    requires lists { Lists marks.old touched.old.items }
    ensures lists { Lists marks.new touched.new.items }
    ensures can { OnOk result (clashes pivot (at marks.old) (set_of clause.now) ≡ true) }
    ensures set { OnOk result (at marks.new ≡ resolved pivot (at marks.old) (set_of clause.now)) }
    ensures bad { result ≡ Err BadStep → clashes pivot (at marks.old) (set_of clause.now) ≡ false }
{
    if !can_resolve(marks, clause, pivot) {
        return Err(ChainFault::BadStep);
    }
    merge(marks, touched, clause)?;
    unmark(marks, 2 * pivot as usize);
    unmark(marks, 2 * pivot as usize + 1);
    Ok(())
}

/// Resolves the marked set with the clauses of these numbers, one after another, each on its pivot.
pub fn follow(
    formula: &Clauses,
    added: &Clauses,
    ids: &[u32],
    pivots: &[u32],
    marks: &mut [bool],
    touched: &mut Vec<Literal>,
) -> Result<(), ChainFault>
    requires below { AreAllBelow (length marks.old) (formula.now ++ added.now) }
    requires lists { Lists marks.old touched.old.items }
    ensures lists { Lists marks.new touched.new.items }
    ensures set { OnOk result (chain_from (formula.now ++ added.now) (at marks.old) ids.now pivots.now ≡ Some (at marks.new)) }
    ensures bad { result ≡ Err BadStep → chain_from (formula.now ++ added.now) (at marks.old) ids.now pivots.now ≡ None }
{
    for i in 0..ids.len() {
        if i >= pivots.len() {
            return Err(ChainFault::BadStep);
        }
        let Some(clause) = clause_at(formula, added, ids[i]) else {
            return Err(ChainFault::BadStep);
        };
        resolve(marks, touched, clause, pivots[i])?;
    }
    if ids.len() < pivots.len() {
        return Err(ChainFault::BadStep);
    }
    Ok(())
}

/// Takes away the marks of these literals.
fn clear_listed(marks: &mut [bool], listed: &[Literal])
    requires lists { Lists marks.old listed.now }
    ensures none { (l : ℕ) → at marks.new l ≡ false }
{
    for literal in listed {
        unmark(marks, literal.0 as usize);
    }
}

/// Takes away all marks.
pub fn clear(marks: &mut [bool], touched: &mut Vec<Literal>)
    requires lists { Lists marks.old touched.old.items }
    ensures none { (l : ℕ) → at marks.new l ≡ false }
    ensures list { touched.new.items ≡ [] }
{
    clear_listed(marks, touched.as_slice());
    touched.clear();
}

/// Makes the clause of the marked literals, each once; their marks are taken away.
fn collect(
    marks: &mut [bool],
    touched: &[Literal],
    clause: &mut Vec<Literal>,
) -> Result<(), AllocError>
    requires lists { Lists marks.old touched.now }
    ensures lists { Lists marks.new touched.now }
    ensures set { OnOk result (set_of clause.new.items ≡ at marks.old) }
    ensures distinct { OnOk result (AreDistinct clause.new.items) }
{
    clause.clear();
    for literal in touched {
        if is_marked(marks, literal.0 as usize) {
            clause.push(*literal)?;
            unmark(marks, literal.0 as usize);
        }
    }
    Ok(())
}

/// Makes the clause that the chain gives.
fn run_chain(
    formula: &Clauses,
    added: &Clauses,
    chain: &Chain,
    marks: &mut [bool],
    touched: &mut Vec<Literal>,
    clause: &mut Vec<Literal>,
) -> Result<(), ChainFault>
    requires below { AreAllBelow (length marks.old) (formula.now ++ added.now) }
    requires lists { Lists marks.old touched.old.items }
    ensures lists { Lists marks.new touched.new.items }
    ensures set { OnOk result (chain_result (formula.now ++ added.now) chain.now.ids.items chain.now.pivots.items ≡ Some (set_of clause.new.items)) }
    ensures distinct { OnOk result (AreDistinct clause.new.items) }
    ensures bad { result ≡ Err BadStep → chain_result (formula.now ++ added.now) chain.now.ids.items chain.now.pivots.items ≡ None }
{
    let ids = chain.ids.as_slice();
    if ids.is_empty() {
        return Err(ChainFault::BadStep);
    }
    let Some(first) = clause_at(formula, added, ids[0]) else {
        return Err(ChainFault::BadStep);
    };
    clear(marks, touched);
    merge(marks, touched, first)?;
    follow(
        formula,
        added,
        &ids[1..],
        chain.pivots.as_slice(),
        marks,
        touched,
    )?;
    collect(marks, touched.as_slice(), clause)?;
    Ok(())
}

/// Makes the table at least so long.
fn grow(marks: &mut Vec<bool>, touched: &[Literal], size: usize) -> Result<(), AllocError>
    requires lists { Lists marks.old.items touched.now }
    requires room { length marks.old.items ≤ size }
    ensures lists { Lists marks.new.items touched.now }
    ensures room { length marks.new.items ≤ size }
    ensures size { OnOk result (length marks.new.items ≡ size) }
{
    marks.resize(size, false)?;
    Ok(())
}

/// Makes the clause that the chain gives, with a table of marks that is made long enough first.
pub fn derive(
    formula: &Clauses,
    added: &Clauses,
    chain: &Chain,
    size: usize,
    marks: &mut Vec<bool>,
    touched: &mut Vec<Literal>,
    clause: &mut Vec<Literal>,
) -> Result<(), ChainFault>
    requires below { AreAllBelow size (formula.now ++ added.now) }
    requires lists { Lists marks.old.items touched.old.items }
    requires room { length marks.old.items ≤ size }
    ensures lists { Lists marks.new.items touched.new.items }
    ensures room { length marks.new.items ≤ size }
    ensures set { OnOk result (chain_result (formula.now ++ added.now) chain.now.ids.items chain.now.pivots.items ≡ Some (set_of clause.new.items)) }
    ensures distinct { OnOk result (AreDistinct clause.new.items) }
    ensures bad { result ≡ Err BadStep → chain_result (formula.now ++ added.now) chain.now.ids.items chain.now.pivots.items ≡ None }
{
    grow(marks, touched.as_slice(), size)?;
    run_chain(formula, added, chain, marks.as_mut_slice(), touched, clause)?;
    Ok(())
}
