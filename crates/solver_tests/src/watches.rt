//! The trail's calls, and propagation by watches beside propagation by looking at all clauses.

ghost use Rattle.std.specs.Prelude.{◌≡◌, ℕ, ◌+◌, ◌*◌, ◌<◌, ◌≤◌, Bool, true, false, List, [], ◌++◌, length};
ghost use Rattle.lemma_checker.specs.Clauses.{at, opposite};

use lemma_checker::clause::are_distinct;
use lemma_checker::clauses::Clauses;
use lemma_checker::formula::Formula;
use lemma_checker::literal::Literal;
use lemma_checker::resolver::is_marked;
use std::alloc::{AllocError, Global};
use std::test::Fail;
use std::vec::Vec;
use watch_lists::scan::propagate;
use watch_lists::trail::Trail;
use watch_lists::watches::Watches;

#[test]
fn trail_grows_and_goes_back(rt: HostRuntime) -> Result<(), Fail> {
    let alloc = rt.alloc();
    let mut trail = Trail::new(alloc, 3)?;
    assert_eq!(rt; trail.values.len(), 8);
    trail.push(Literal(3), 1)?;
    trail.choose(Literal(4))?;
    assert_eq!(rt; trail.starts.as_slice(), [1].as_slice());
    assert_eq!(rt; trail.reasons.as_slice(), [1, 0].as_slice());
    Ok(())
}

/// Random clauses of `least` to three literals over the variables 1 to 6, by a linear congruence.
fn random_clauses(alloc: Global, count: u32, least: u64, seed: u64) -> Result<Clauses, AllocError> {
    let mut clauses = Clauses::new(alloc);
    let mut state = seed % 0x8000_0000;
    for _ in 0..count {
        let mut literals: Vec<Literal> = Vec::new(alloc);
        state = (state % 0x8000_0000 * 1_103_515_245 + 12_345) % 0x8000_0000;
        for _ in 0..(state / 65_536 % 6 / 2 + 1).max(least) {
            state = (state % 0x8000_0000 * 1_103_515_245 + 12_345) % 0x8000_0000;
            let literal = Literal((state / 65_536 % 12) as u32 + 2);
            if !literals.contains(&literal) {
                literals.push(literal)?;
            }
        }
        if are_distinct(literals.as_slice()) {
            clauses.push(literals.as_slice())?;
        }
    }
    Ok(clauses)
}

/// Whether the literal is of the table, and neither true nor false.
fn is_open(values: &[bool], literal: Literal) -> bool
    ensures { result ≡ true → (2 ≤ literal.0) × ((literal.0 < length values.now) × ((at values.now literal.0 ≡ false) × (at values.now (opposite literal.0) ≡ false))) }
{
    literal.0 >= 2
        && (literal.0 as usize) < values.len()
        && !is_marked(values, literal.0 as usize)
        && !is_marked(values, literal.opposite().0 as usize)
}

/// Both kinds of propagation, level by level: each of these literals that is still open is chosen in
/// turn. How many levels there were, and whether a clause was false then; None where they differ.
fn same(
    alloc: Global,
    formula: &Formula,
    choices: &[Literal],
) -> Result<Option<(usize, bool)>, AllocError> {
    let mut plain = Trail::new(alloc, formula.vars)?;
    let mut watched = Trail::new(alloc, formula.vars)?;
    let mut watches = Watches::of(alloc, formula)?;
    if formula.clauses.len() >= 1000 {
        return Ok(None);
    }
    let none = Clauses::new(alloc);
    for choice in choices {
        let first = propagate(&formula.clauses, &none, &mut plain)?;
        let second = watches.propagate(&mut watched)?;
        if let Some(_) = second {
            return Ok(first.is_some().then_some((plain.starts.len(), true)));
        }
        if let Some(_) = first {
            return Ok(None);
        }
        if plain.values.as_slice() != watched.values.as_slice() {
            return Ok(None);
        }
        if !is_open(plain.values.as_slice(), *choice) {
            continue;
        }
        if !is_open(watched.values.as_slice(), *choice) {
            return Ok(None);
        }
        plain.choose(*choice)?;
        watched.choose(*choice)?;
    }
    Ok(Some((plain.starts.len(), false)))
}

#[test]
fn watches_find_what_a_look_at_all_clauses_finds(rt: HostRuntime) -> Result<(), Fail> {
    let alloc = rt.alloc();
    let mut choices = Vec::new(alloc);
    for number in 1..7u32 {
        choices.push(Literal(2 * number + number % 2))?;
    }
    choices.push(Literal(0))?;
    let mut conflicts = 0u32;
    let mut most = 0usize;
    for seed in 0..500u64 {
        let least = seed % 2 + 1;
        let count = if least == 1 { 9 } else { 18 };
        let clauses = random_clauses(alloc, count, least, seed * 7919 + 1)?;
        let formula = Formula::check(6, clauses).ok_or("literals of six variables")?;
        let found = same(alloc, &formula, choices.as_slice())?.ok_or("they differ")?;
        if found.1 && found.0 > 0 && conflicts < 1000 {
            conflicts += 1;
        }
        most = most.max(found.0);
    }
    assert!(rt; conflicts > 50 && most > 2, "{conflicts} {most}");
    Ok(())
}
