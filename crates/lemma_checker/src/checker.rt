//! Adding what chains give, and the two answers.

ghost use Rattle.std.specs.Prelude.{◌≡◌, ◌≢◌, ℕ, ◌+◌, ◌*◌, ◌^◌, ◌<◌, ◌≤◌, ◌==◌, ◌↔◌, Bool, true, false, List, [], ◌∷◌, ◌++◌, length, map, Option, Some, None, Err, IsTrue, IsSome, IsOk, IfOk, IfErr, OnOk, OnErr, vec_len};
ghost use Rattle.std.specs.List.{list_all};
ghost use Rattle.lemma_checker.specs.declared.chain.ChainFault.TheVariants.{BadStep};
ghost use Rattle.lemma_checker.specs.Clauses.{AreDistinct, Solves, assigned, clause_true, literal_true};
ghost use Rattle.lemma_checker.specs.Chains.{chain_result, has_empty};
ghost use Rattle.lemma_checker.specs.Checker.{HasOneMore};

use crate::answer::{Refutation, Satisfied};
use crate::chain::{Chain, ChainFault};
use crate::clauses::Clauses;
use crate::formula::Formula;
use crate::lemmas::Lemmas;
use crate::literal::Literal;
use crate::resolver::derive;
use std::alloc::AllocError;
use std::vec::Vec;

/// Adds both, or neither.
fn append(
    added: &mut Clauses,
    chains: &mut Vec<Chain>,
    clause: &[Literal],
    chain: Chain,
) -> Result<(), AllocError>
    requires distinct { AreDistinct clause.now }
    ensures added { OnOk result (added.new ≡ added.old ++ clause.now ∷ []) }
    ensures chains { OnOk result (chains.new.items ≡ chains.old.items ++ chain ∷ []) }
    ensures err { OnErr result ((added.new ≡ added.old) × (chains.new.items ≡ chains.old.items)) }
{
    chains.push(chain)?;
    match added.push(clause) {
        Ok(()) => Ok(()),
        Err(_) => {
            let _ = chains.pop();
            Err(AllocError)
        }
    }
}

/// Whether one of the clauses is empty.
fn any_empty(clauses: &Clauses) -> bool
    ensures { result ≡ has_empty clauses.now }
{
    for i in 0..clauses.len() {
        if clauses.clause(i).is_empty() {
            return true;
        }
    }
    false
}

impl Lemmas {
    /// The formula with nothing added. It takes no memory.
    pub fn of(formula: Formula) -> Lemmas
        ensures vars { result.formula.vars ≡ formula.vars }
        ensures clauses { result.formula.clauses ≡ formula.clauses }
        ensures added { result.added ≡ [] }
        ensures chains { result.chains.items ≡ [] }
    {
        let alloc = formula.clauses.allocator();
        Lemmas {
            formula,
            added: Clauses::new(alloc),
            chains: Vec::new(alloc),
            marks: Vec::new(alloc),
            touched: Vec::new(alloc),
            clause: Vec::new(alloc),
        }
    }

    /// Adds the clause that the chain gives, with the chain, and answers the clause's number. It
    /// answers `BadStep` where the chain doesn't resolve.
    pub fn try_chain(&mut self, chain: Chain) -> Result<u32, ChainFault>
        requires few { length self.old.formula.clauses + length self.old.added < 2 ^ 31 }
        ensures vars { self.new.formula.vars ≡ self.old.formula.vars }
        ensures clauses { self.new.formula.clauses ≡ self.old.formula.clauses }
        ensures added { IfOk result (λ n. HasOneMore self.old.formula.clauses self.old.added self.new.added self.old.chains.items self.new.chains.items chain n) }
        ensures bad { result ≡ Err BadStep → chain_result (self.old.formula.clauses ++ self.old.added) chain.ids.items chain.pivots.items ≡ None }
        ensures err { OnErr result ((self.new.added ≡ self.old.added) × (self.new.chains.items ≡ self.old.chains.items)) }
    {
        let formula = &self.formula;
        let size = 2 * formula.vars as usize + 2;
        derive(
            &formula.clauses,
            &self.added,
            &chain,
            size,
            &mut self.marks,
            &mut self.touched,
            &mut self.clause,
        )?;
        append(
            &mut self.added,
            &mut self.chains,
            self.clause.as_slice(),
            chain,
        )?;
        Ok((self.formula.clauses.len() + self.added.len()) as u32)
    }

    /// Adds the clause that a chain that resolves gives.
    pub fn resolve_chain(&mut self, chain: Chain) -> Result<u32, AllocError>
        requires few { length self.old.formula.clauses + length self.old.added < 2 ^ 31 }
        requires resolves { IsSome (chain_result (self.old.formula.clauses ++ self.old.added) chain.ids.items chain.pivots.items) }
        ensures vars { self.new.formula.vars ≡ self.old.formula.vars }
        ensures clauses { self.new.formula.clauses ≡ self.old.formula.clauses }
        ensures added { IfOk result (λ n. HasOneMore self.old.formula.clauses self.old.added self.new.added self.old.chains.items self.new.chains.items chain n) }
        ensures err { OnErr result ((self.new.added ≡ self.old.added) × (self.new.chains.items ≡ self.old.chains.items)) }
    {
        match self.try_chain(chain) {
            Ok(number) => Ok(number),
            Err(ChainFault::NoMemory) => Err(AllocError),
            Err(ChainFault::BadStep) => unreachable!(),
        }
    }

    /// The formula alone.
    pub fn into_formula(self) -> Formula
        ensures vars { result.vars ≡ self.formula.vars }
        ensures clauses { result.clauses ≡ self.formula.clauses }
    {
        self.formula
    }

    /// The refutation where one of the clauses is empty, else the lemmas as they were.
    pub fn refuted(self) -> Result<Refutation, Lemmas>
        ensures exactly { IsOk result ↔ IsTrue (has_empty (self.formula.clauses ++ self.added)) }
        ensures ok { IfOk result (λ r. (r.formula.vars ≡ self.formula.vars) × ((r.formula.clauses ≡ self.formula.clauses) × (r.chains ≡ self.chains))) }
        ensures err { IfErr result (λ l. l ≡ self) }
    {
        if any_empty(&self.formula.clauses) || any_empty(&self.added) {
            let Lemmas {
                formula,
                chains,
                ..
            } = self;
            Ok(Refutation { formula, chains })
        } else {
            Err(self)
        }
    }
}

impl Refutation {
    ghost use Rattle.lemma_checker.specs.Chains.{ReachesEmpty};
    ghost use Rattle.lemma_checker.specs.Checker.{link};

    /// Its chains, which reach the empty clause in its formula.
    pub fn chains(self) -> Vec<Chain>
        ensures kept { result ≡ self.chains }
        ensures refuting { ReachesEmpty self.formula.clauses (map link result.items) }
    {
        self.chains
    }
}

/// Whether the values, of which the first is that of variable 1, make the literal true.
#[tactic(auto, unfolding(crate::specs::Clauses::literal_true))]
fn is_true(values: &[bool], literal: Literal) -> bool
    ensures { result ≡ literal_true (assigned values.now) literal.0 }
{
    let place = (literal.variable() as usize).saturating_sub(1);
    let value = values.get(place).copied().unwrap_or(false);
    if literal.is_negated() { !value } else { value }
}

/// Whether the values make one of these literals true.
fn any_true(values: &[bool], clause: &[Literal]) -> bool
    ensures { result ≡ clause_true (assigned values.now) clause.now }
{
    clause.iter().any(|literal| is_true(values, *literal))
}

/// Whether the values make each clause true.
fn all_true(values: &[bool], clauses: &Clauses) -> bool
    ensures { result ≡ list_all (clause_true (assigned values.now)) clauses.now }
{
    for i in 0..clauses.len() {
        if !any_true(values, clauses.clause(i)) {
            return false;
        }
    }
    true
}

/// The formula with the values, where they are one per variable and satisfy it; else both as they were.
pub fn model_of(formula: Formula, values: Vec<bool>) -> Result<Satisfied, (Formula, Vec<bool>)>
    ensures exactly { IsOk result ↔ ((vec_len values ≡ formula.vars) × Solves (assigned values.items) formula.clauses) }
    ensures ok { IfOk result (λ s. (s.formula.vars ≡ formula.vars) × ((s.formula.clauses ≡ formula.clauses) × (s.values ≡ values))) }
    ensures err { IfErr result (λ p. (p.0 ≡ formula) × (p.1 ≡ values)) }
{
    let fits = values.len() == formula.vars as usize;
    if fits && all_true(values.as_slice(), &formula.clauses) {
        Ok(Satisfied { formula, values })
    } else {
        Err((formula, values))
    }
}
