//! A look at one clause of which a watched literal became false.

ghost use Rattle.std.specs.Prelude.{◌≡◌, ◌≢◌, ℕ, ◌+◌, ◌<◌, ◌≤◌, Bool, true, false, List, length, take, Option, Some, None, IsTrue, ◌↔◌, IfSome, IfNone, slice_get};
ghost use Rattle.lemma_checker.specs.Clauses.{at, set_of, has, opposite};
ghost use Rattle.watch_lists.specs.Watching.{AreTwo, literal_at};
ghost use Rattle.watch_lists.specs.Looks.{IsFacing, IsOther, FoundIs};

use lemma_checker::literal::Literal;
use lemma_checker::resolver::is_marked;

/// What is found in a clause of which a watched literal became false.
#[derive(Clone, Copy, Debug, Drop)]
pub enum Found {
    /// It isn't watched at that literal.
    Away,
    /// This literal of it is true.
    Met(Literal),
    /// It is watched now at the first literal in place of the false one, and still at the second.
    Moved(Literal, Literal),
    /// All other literals are false, and this one is open.
    Forced(Literal),
    /// All literals are false.
    False,
}

/// Puts the literal into the second place, if it is one of the first two: whether it is.
fn face(clause: &mut [Literal], literal: Literal) -> bool
    requires two { AreTwo clause.old }
    ensures facing { IsFacing clause.old clause.new }
    ensures second { result ≡ true → literal_at clause.new 1 ≡ literal.0 }
    ensures away { result ≡ false → has literal.0 (take 2 clause.new) ≡ false }
{
    if clause[0].0 == literal.0 {
        clause.swap(0, 1);
    }
    clause[1].0 == literal.0
}

/// A literal past the first two that is true.
fn true_literal(clause: &[Literal], values: &[bool]) -> Option<Literal>
    ensures member { IfSome result (λ l. has l.0 clause.now ≡ true) }
    ensures holds { IfSome result (λ l. at values.now l.0 ≡ true) }
{
    for place in 2..clause.len() {
        let literal = clause[place];
        if is_marked(values, literal.0 as usize) {
            return Some(literal);
        }
    }
    None
}

/// The place of a literal past the first two that isn't false, and is not the first one.
fn other_place(clause: &[Literal], values: &[bool]) -> Option<usize>
    requires two { AreTwo clause.now }
    ensures some { IfSome result (λ p. IsOther clause.now (at values.now) p) }
    ensures none { IfNone result ((p : ℕ) → 2 ≤ p → p < length clause.now → literal_at clause.now p ≢ literal_at clause.now 0 → at values.now (opposite (literal_at clause.now p)) ≡ true) }
{
    let first = clause[0];
    for place in 2..clause.len() {
        let literal = clause[place];
        if !is_marked(values, literal.opposite().0 as usize) && literal.0 != first.0 {
            return Some(place);
        }
    }
    None
}

/// Looks at a clause of which a literal became false: where it was watched and no literal of the
/// clause is true, an open one is watched in its place, if there is one beside the other watch.
pub fn look_at(clause: &mut [Literal], literal: Literal, values: &[bool]) -> Found
    requires two { AreTwo clause.old }
    requires denied { at values.now (opposite literal.0) ≡ true }
    ensures { FoundIs result literal.0 clause.old clause.new (at values.now) }
{
    if !face(clause, literal) {
        return Found::Away;
    }
    let first = clause[0];
    if is_marked(values, first.0 as usize) {
        return Found::Met(first);
    }
    if let Some(met) = true_literal(clause, values) {
        return Found::Met(met);
    }
    match other_place(clause, values) {
        Some(place) => {
            let open = clause[place];
            clause.swap(1, place);
            Found::Moved(open, first)
        }
        None => {
            if is_marked(values, first.opposite().0 as usize) {
                Found::False
            } else {
                Found::Forced(first)
            }
        }
    }
}
