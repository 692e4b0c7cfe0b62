//! The two answers about a formula: chains that refute it, or values that satisfy it.

ghost use Rattle.std.specs.Prelude.{◌≡◌, map, vec_len};
ghost use Rattle.lemma_checker.specs.Clauses.{Solves, assigned};
ghost use Rattle.lemma_checker.specs.Chains.{ReachesEmpty};
ghost use Rattle.lemma_checker.specs.Checker.{link};

use crate::chain::Chain;
use crate::formula::Formula;
use std::vec::Vec;

/// A formula with chains that reach the empty clause in it, so that no assignment satisfies it.
#[derive(Debug, Drop)]
pub struct Refutation {
    pub formula: Formula,
    pub chains: Vec<Chain>,
    pub ghost refuted: { ReachesEmpty formula.clauses (map link chains.items) },
}

/// A formula with values that satisfy it, one per variable: the first is that of variable 1.
#[derive(Debug, Drop)]
pub struct Satisfied {
    pub formula: Formula,
    pub values: Vec<bool>,
    pub ghost each: { vec_len values ≡ formula.vars },
    pub ghost met: { Solves (assigned values.items) formula.clauses },
}
