//! Propagating and choosing until a clause is false or all variables have values.

ghost use Rattle.std.specs.Prelude.{◌≡◌, ℕ, ◌+◌, ◌-◌, ◌*◌, ◌^◌, ◌<◌, ◌≤◌, Bool, true, false, List, ◌++◌, length, Option, Some, None, OnOk, IfOk, IfSome, IfNone};
ghost use Rattle.lemma_checker.specs.Clauses.{at, set_of};
ghost use Rattle.watch_lists.specs.Watches.{Holds, Fits};
ghost use Rattle.clause_solver.specs.Solver.{all_of, AreAssigned, IsFree, EndIs, IsState};

use crate::order::Order;
use lemma_checker::lemmas::Lemmas;
use lemma_checker::literal::Literal;
use lemma_checker::resolver::is_marked;
use std::alloc::AllocError;
use watch_lists::trail::Trail;
use watch_lists::watches::Watches;

/// Whether the literal is of the variables, and neither true nor false.
fn is_free(values: &[bool], vars: u32, literal: Literal) -> bool
    requires small { vars < 2 ^ 31 }
    ensures { result ≡ true → IsFree vars (at values.now) literal.0 }
{
    let end = 2 * u64::from(vars) + 2;
    literal.0 >= 2
        && u64::from(literal.0) < end
        && !is_marked(values, literal.0 as usize)
        && !is_marked(values, literal.opposite().0 as usize)
}

/// The hint, or another literal of a variable that has no value.
fn free_literal(values: &[bool], vars: u32, hint: Literal) -> Option<Literal>
    requires small { vars < 2 ^ 31 }
    ensures some { IfSome result (λ l. IsFree vars (at values.now) l.0) }
    ensures none { IfNone result (AreAssigned vars (at values.now)) }
{
    if is_free(values, vars, hint) {
        return Some(hint);
    }
    for variable in 1..vars + 1 {
        let literal = Literal(2 * variable + 1);
        let negated = is_marked(values, 2 * variable as usize + 1);
        if !is_marked(values, 2 * variable as usize) && !negated {
            return Some(literal);
        }
    }
    None
}

/// Propagates and chooses until a clause is false, whose number it answers, or until each variable
/// has a value.
pub fn descend(
    lemmas: &Lemmas,
    watches: &mut Watches,
    trail: &mut Trail,
    order: &mut Order,
) -> Result<Option<u32>, AllocError>
    requires state { IsState lemmas.now trail.old }
    requires holds { Holds watches.old lemmas.now.formula.vars (all_of lemmas.now) }
    requires fits { Fits watches.old trail.old }
    ensures state { OnOk result (IsState lemmas.now trail.new) }
    ensures end { IfOk result (λ o. EndIs o (all_of lemmas.now) lemmas.now.formula.vars (set_of trail.new.literals.items)) }
    ensures holds { OnOk result (Holds watches.new lemmas.now.formula.vars (all_of lemmas.now)) }
    ensures fits { OnOk result (Fits watches.new trail.new) }
{
    let formula = &lemmas.formula;
    let vars = formula.vars;
    'descent: loop {
        let before = trail.literals.len();
        let told = watches.propagate(trail)?;
        order.note_from(trail, before);
        if let Some(number) = told {
            return Ok(Some(number));
        }
        let hint = order.next(trail.values.as_slice());
        match free_literal(trail.values.as_slice(), vars, hint) {
            Some(literal) => trail.choose(literal)?,
            None => return Ok(None),
        }
    }
}
