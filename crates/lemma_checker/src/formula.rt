//! Formulas: clauses over numbered variables.

ghost use Rattle.std.specs.Prelude.{◌≡◌, ◌+◌, ◌*◌, ◌^◌, ◌<◌, ◌≤◌, ◌↔◌};
ghost use Rattle.std.specs.List.{list_all};
ghost use Rattle.lemma_checker.specs.Clauses.{AreOver, in_range};

use crate::clauses::Clauses;
use crate::literal::Literal;

/// Clauses, all of which have to be true, over the variables 1 to `vars`. Clauses are numbered from 1
/// in this order.
#[derive(Debug, Drop)]
pub struct Formula {
    pub vars: u32,
    pub clauses: Clauses,
    pub ghost small: { vars < 2 ^ 31 },
    pub ghost over: { AreOver vars clauses },
}

/// Whether the literals are of the variables 1 to `vars`.
fn is_over(vars: u32, clause: &[Literal]) -> bool
    ensures { result ≡ list_all (in_range vars) clause.now }
{
    let end = 2 * u64::from(vars) + 2;
    clause.iter().all(|x| 2 <= x.0 && u64::from(x.0) < end)
}

/// Whether each clause is of the variables 1 to `vars`.
fn are_over(vars: u32, clauses: &Clauses) -> bool
    ensures { result ≡ list_all (λ c. list_all (in_range vars) c) clauses.now }
{
    for i in 0..clauses.len() {
        if !is_over(vars, clauses.clause(i)) {
            return false;
        }
    }
    true
}

impl Formula {
    ghost use Rattle.std.specs.Prelude.{◌≡◌, ◌↔◌, IfSome, IsSome};

    /// The formula of these clauses, unless the variables are too many or a literal is of none of them.
    pub fn check(vars: u32, clauses: Clauses) -> Option<Formula>
        ensures some { IfSome result (λ f. (f.vars ≡ vars) × (f.clauses ≡ clauses)) }
        ensures exactly { IsSome result ↔ ((vars < 2 ^ 31) × AreOver vars clauses) }
    {
        if vars < 0x8000_0000 && are_over(vars, &clauses) {
            Some(Formula { vars, clauses })
        } else {
            None
        }
    }
}
