//! Clauses: lists of literals, none twice.

ghost use Rattle.std.specs.Prelude.{◌≡◌, ◌↔◌, IsTrue};
ghost use Rattle.lemma_checker.specs.Clauses.{has, AreDistinct};

use crate::literal::Literal;

/// Whether one of the literals has this number.
pub fn has_number(clause: &[Literal], number: usize) -> bool
    ensures { result ≡ has number clause.now }
{
    clause.iter().any(|x| x.0 as usize == number)
}

/// Whether no literal stands twice.
pub fn are_distinct(literals: &[Literal]) -> bool
    ensures { IsTrue result ↔ AreDistinct literals.now }
{
    for i in 0..literals.len() {
        let literal = literals[i];
        if has_number(&literals[..i], literal.0 as usize) {
            return false;
        }
    }
    true
}
