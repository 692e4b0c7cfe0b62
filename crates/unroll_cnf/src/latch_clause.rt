//! Clauses over latches.

ghost use Rattle.std.specs.Prelude.{◌≡◌, ◌≢◌, [], ◌∷◌, IfOk};
ghost use Rattle.std.specs.List.{list_any};
ghost use Rattle.gate_graph.specs.Values.{at};
ghost use Rattle.unroll_cnf.specs.Latches.{AreApart, holds, meets};

use crate::latch_literal::LatchLiteral;
use std::alloc::{AllocError, Global};
use std::marker::Model;
use std::vec::Vec;

/// Whether the state has the value of this number, false past its end.
fn value_in(state: &[bool], latch: u32) -> bool
    ensures { result ≡ at state.now latch }
{
    state.get(latch as usize).copied().unwrap_or(false)
}

/// Whether the literal holds in the state.
fn holds_in(state: &[bool], literal: LatchLiteral) -> bool
    ensures { result ≡ holds state.now literal }
{
    let value = value_in(state, literal.latch);
    if literal.negated { !value } else { value }
}

/// Whether one of the literals holds in the state.
fn any_holds(state: &[bool], literals: &[LatchLiteral]) -> bool
    ensures { result ≡ list_any (holds state.now) literals.now }
{
    literals.iter().any(|literal| holds_in(state, *literal))
}

/// Latch literals, no literal twice. A state meets the clause where latch 0, `live`, is 0, or where
/// one of the literals holds. It is seen as the list of its literals.
#[derive(Debug, Drop)]
pub struct LatchClause {
    literals: Vec<LatchLiteral>,
}

impl Model for LatchClause {
    ghost use Rattle.std.specs.Prelude.{List};
    ghost use Rattle.unroll_cnf.specs.declared.latch_literal.LatchLiteral.{LatchLiteral};

    ghost Value = { List LatchLiteral };

    ghost use Rattle.unroll_cnf.specs.Latches.{AreApart};

    ghost view = { λ d. d.literals.items };

    ghost invariant = { λ d. AreApart d.literals.items };
}

impl LatchClause {
    /// The clause of these literals.
    pub fn of(literals: Vec<LatchLiteral>) -> LatchClause
        requires apart { AreApart literals.items }
        ensures { result ≡ literals.items }
    {
        LatchClause { literals }
    }

    /// The clause of one literal.
    #[tactic(auto, using(crate::proofs::ClauseLemmas::apart_one))]
    pub fn one(alloc: Global, literal: LatchLiteral) -> Result<LatchClause, AllocError>
        ensures { IfOk result (λ d. d ≡ literal ∷ []) }
    {
        let mut literals = Vec::new(alloc);
        literals.push(literal)?;
        Ok(LatchClause { literals })
    }

    /// The clause of two literals of different latches.
    #[tactic(auto, using(crate::proofs::ClauseLemmas::apart_two))]
    pub fn two(
        alloc: Global,
        first: LatchLiteral,
        second: LatchLiteral,
    ) -> Result<LatchClause, AllocError>
        requires different { first.latch ≢ second.latch }
        ensures { IfOk result (λ d. d ≡ first ∷ second ∷ []) }
    {
        let mut literals = Vec::new(alloc);
        literals.push(first)?;
        literals.push(second)?;
        Ok(LatchClause { literals })
    }

    /// Whether the state, one value for each latch, meets the clause.
    #[tactic(auto, unfolding(crate::specs::Latches::meets))]
    pub fn meets(&self, state: &[bool]) -> bool
        ensures { result ≡ meets state.now self.now }
    {
        !value_in(state, 0) || any_holds(state, self.literals.as_slice())
    }

    /// Its literals.
    pub fn as_slice(&self) -> &[LatchLiteral]
        ensures value { result.now ≡ self.now }
        ensures apart { AreApart self.now }
    {
        self.literals.as_slice()
    }
}
