//! The three answers, each looked at by itself.

use clause_solver::answer::Solved;
use clause_solver::solver::solve;
use lemma_checker::chain::{Chain, ChainFault};
use lemma_checker::clause::are_distinct;
use lemma_checker::clauses::Clauses;
use lemma_checker::formula::Formula;
use lemma_checker::lemmas::Lemmas;
use lemma_checker::literal::Literal;
use std::alloc::{AllocError, Global};
use std::test::Fail;
use std::vec::Vec;

/// What an answer should be.
#[derive(Clone, Copy, Debug, PartialEq, Eq, Drop)]
enum Kind {
    Sat,
    Unsat,
    Spent,
}

/// The literal of a signed number.
fn literal_of(number: i32) -> Literal {
    let variable = number.unsigned_abs() % 1000;
    if number < 0 {
        Literal(2 * variable + 1)
    } else {
        Literal(2 * variable)
    }
}

fn formula_of(alloc: Global, vars: u32, lists: &[Vec<i32>]) -> Result<Option<Formula>, AllocError> {
    let mut clauses = Clauses::new(alloc);
    for list in lists {
        let mut literals = Vec::new(alloc);
        for number in list {
            literals.push(literal_of(*number))?;
        }
        if are_distinct(literals.as_slice()) {
            clauses.push(literals.as_slice())?;
        }
    }
    Ok(Formula::check(vars, clauses))
}

/// The variable that says that the pigeon sits in the hole.
fn variable_of(pigeon: i32, hole: i32, holes: i32) -> i32 {
    pigeon
        .wrapping_mul(holes)
        .wrapping_add(hole)
        .wrapping_add(1)
}

/// That so many pigeons don't fit into one hole fewer.
fn pigeons(alloc: Global, holes: i32) -> Result<Vec<Vec<i32>>, AllocError> {
    let mut lists = Vec::new(alloc);
    let holes = holes.clamp(1, 8);
    for pigeon in 0..holes + 1 {
        let mut places = Vec::new(alloc);
        for hole in 0..holes {
            places.push(variable_of(pigeon, hole, holes))?;
        }
        lists.push(places)?;
    }
    for hole in 0..holes {
        for first in 0..holes + 1 {
            for second in 0..first {
                let mut pair = Vec::new(alloc);
                pair.push(variable_of(first, hole, holes).wrapping_neg())?;
                pair.push(variable_of(second, hole, holes).wrapping_neg())?;
                lists.push(pair)?;
            }
        }
    }
    Ok(lists)
}

/// That each variable of a cycle of so many differs from the next one.
fn cycle(alloc: Global, length: i32) -> Result<Vec<Vec<i32>>, AllocError> {
    let mut lists = Vec::new(alloc);
    for variable in 1..length.clamp(2, 90).wrapping_add(1) {
        let next = if variable == length {
            1
        } else {
            variable.wrapping_add(1)
        };
        let mut either = Vec::new(alloc);
        either.push(variable)?;
        either.push(next)?;
        lists.push(either)?;
        let mut not_both = Vec::new(alloc);
        not_both.push(variable.wrapping_neg())?;
        not_both.push(next.wrapping_neg())?;
        lists.push(not_both)?;
    }
    Ok(lists)
}

/// Runs the chains again over the formula: whether they add an empty clause.
fn refutes(alloc: Global, formula: Formula, chains: Vec<Chain>) -> Result<bool, AllocError> {
    let mut lemmas = Lemmas::of(formula);
    for chain in chains {
        let formula = &lemmas.formula;
        if formula.clauses.len() > 100_000 || lemmas.added.len() > 100_000 {
            return Ok(false);
        }
        match lemmas.try_chain(chain) {
            Ok(_) => {}
            Err(ChainFault::BadStep) => return Ok(false),
            Err(ChainFault::NoMemory) => return Err(AllocError),
        }
    }
    Ok(lemmas.refuted().is_ok())
}

/// Whether the values make each clause true.
fn satisfies(values: &[bool], lists: &[Vec<i32>]) -> bool {
    lists.iter().all(|list| {
        list.iter().any(|number| {
            let place = (number.unsigned_abs() as usize).saturating_sub(1);
            values.get(place).copied() == Some(*number > 0)
        })
    })
}

/// The kind of the answer, or None where it isn't right.
fn kind_of(
    alloc: Global,
    vars: u32,
    lists: &[Vec<i32>],
    budget: u32,
) -> Result<Option<Kind>, AllocError> {
    let (Some(formula), Some(again)) = (
        formula_of(alloc, vars, lists)?,
        formula_of(alloc, vars, lists)?,
    ) else {
        return Ok(None);
    };
    if formula.clauses.len() > 100_000 || budget == 0 || budget > 100_000 {
        return Ok(None);
    }
    match solve(alloc, formula, budget)? {
        Solved::Sat(s) => Ok(satisfies(s.values.as_slice(), lists).then_some(Kind::Sat)),
        Solved::Unsat(r) => Ok(refutes(alloc, again, r.chains())?.then_some(Kind::Unsat)),
        Solved::Spent(l) => Ok((l.added.len() >= budget as usize).then_some(Kind::Spent)),
    }
}

/// Lists of signed numbers.
fn lists_of(alloc: Global, tables: &[&[i32]]) -> Result<Vec<Vec<i32>>, AllocError> {
    let mut lists = Vec::new(alloc);
    for table in tables {
        lists.push(table.to_vec(alloc)?)?;
    }
    Ok(lists)
}

/// Random clauses of three literals each, by a linear congruence.
fn random_clauses(
    alloc: Global,
    vars: u64,
    count: u32,
    seed: u64,
) -> Result<Vec<Vec<i32>>, AllocError> {
    let mut lists = Vec::new(alloc);
    let mut state = seed % 0x8000_0000;
    for _ in 0..count {
        let mut list: Vec<i32> = Vec::new(alloc);
        for _ in 0..3 {
            state = (state % 0x8000_0000 * 1_103_515_245 + 12_345) % 0x8000_0000;
            let variable = i32::try_from(state / 65_536 % vars.clamp(1, 100)).unwrap_or(0) % 1000
                + 1;
            let number = if state / 4096 % 2 == 0 {
                variable
            } else {
                -variable
            };
            if !list.contains(&number) {
                list.push(number)?;
            }
        }
        lists.push(list)?;
    }
    Ok(lists)
}

/// Whether some values of the variables, of at most 16, satisfy the clauses.
fn has_model(alloc: Global, vars: u32, lists: &[Vec<i32>]) -> Result<bool, AllocError> {
    for bits in 0..65_536u32 {
        let mut values = Vec::new(alloc);
        for place in 0..vars.min(16) {
            values.push(bits / 2u32.pow(place) % 2 == 1)?;
        }
        if satisfies(values.as_slice(), lists) {
            return Ok(true);
        }
        if bits + 1 >= 2u32.pow(vars.min(16)) {
            return Ok(false);
        }
    }
    Ok(false)
}

#[test]
fn random_answers_are_those_of_all_values(rt: HostRuntime) -> Result<(), Fail> {
    let alloc = rt.alloc();
    for seed in 0..200u64 {
        let lists = random_clauses(alloc, 9, 38, seed * 7919)?;
        let kind = if has_model(alloc, 9, lists.as_slice())? {
            Kind::Sat
        } else {
            Kind::Unsat
        };
        assert_eq!(rt;
            kind_of(alloc, 9, lists.as_slice(), 10_000)?,
            Some(kind),
            "{seed}"
        );
    }
    Ok(())
}

#[test]
fn answers_are_right(rt: HostRuntime) -> Result<(), Fail> {
    let alloc = rt.alloc();
    let none = lists_of(alloc, &[])?;
    assert_eq!(rt; kind_of(alloc, 1, none.as_slice(), 1)?, Some(Kind::Sat));
    let all = lists_of(alloc, &[&[1, 2], &[1, -2], &[-1, 2], &[-1, -2]])?;
    assert_eq!(rt; kind_of(alloc, 2, all.as_slice(), 9)?, Some(Kind::Unsat));
    for (holes, budget, kind) in [
        (1, 10, Kind::Unsat),
        (2, 100, Kind::Unsat),
        (4, 10_000, Kind::Unsat),
        (5, 20_000, Kind::Unsat),
        (6, 50_000, Kind::Unsat),
        (6, 1, Kind::Spent),
        (6, 2, Kind::Spent),
        (6, 10, Kind::Spent),
    ] {
        let lists = pigeons(alloc, holes)?;
        let found = kind_of(alloc, 90, lists.as_slice(), budget)?;
        assert_eq!(rt; found, Some(kind), "{holes} {budget}");
    }
    for (length, kind) in [
        (5, Kind::Unsat),
        (6, Kind::Sat),
        (89, Kind::Unsat),
        (90, Kind::Sat),
    ] {
        let lists = cycle(alloc, length)?;
        let found = kind_of(alloc, 90, lists.as_slice(), 1000)?;
        assert_eq!(rt; found, Some(kind), "{length}");
    }
    Ok(())
}
