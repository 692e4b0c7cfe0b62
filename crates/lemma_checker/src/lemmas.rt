//! A formula with the clauses that chains added to it.

ghost use Rattle.std.specs.Prelude.{◌≡◌, ◌+◌, ◌*◌, ◌≤◌, ◌++◌, length, map};
ghost use Rattle.lemma_checker.specs.Clauses.{AreOver};
ghost use Rattle.lemma_checker.specs.Chains.{AreDerived};
ghost use Rattle.lemma_checker.specs.Checker.{Lists, link};

use crate::chain::Chain;
use crate::clauses::Clauses;
use crate::formula::Formula;
use crate::literal::Literal;
use std::vec::Vec;

/// A formula, and clauses that follow from it: each is what its chain gives from the clauses before
/// it. They are numbered on from the formula's.
#[derive(Debug, Drop)]
pub struct Lemmas {
    pub formula: Formula,
    pub added: Clauses,
    pub chains: Vec<Chain>,
    pub(crate) marks: Vec<bool>,
    pub(crate) touched: Vec<Literal>,
    pub(crate) clause: Vec<Literal>,
    pub ghost over: { AreOver formula.vars added },
    pub ghost derived: { AreDerived formula.clauses added (map link chains.items) },
    ghost lists: { Lists marks.items touched.items },
    ghost room: { length marks.items ≤ 2 * formula.vars + 2 },
}
