//! Chains that resolve and chains that break one rule, and both answers.

use lemma_checker::chain::{Chain, ChainFault};
use lemma_checker::checker::model_of;
use lemma_checker::clause::{are_distinct, has_number};
use lemma_checker::clauses::Clauses;
use lemma_checker::formula::Formula;
use lemma_checker::lemmas::Lemmas;
use lemma_checker::literal::Literal;
use std::alloc::{AllocError, Global};
use std::test::Fail;
use std::vec::Vec;

/// The clauses 1 to 9 over the variables 1 to 4, by the numbers of their literals.
static CLAUSES: [&[u32]; 9] = [
    &[2, 4],
    &[3, 4],
    &[2, 5],
    &[3, 5],
    &[2],
    &[4, 6],
    &[5, 8],
    &[2, 3, 6],
    &[7, 9],
];

/// A chain, and the numbers of the literals that it gives, if it resolves.
#[derive(Drop)]
struct Case {
    ids: &'static [u32],
    pivots: &'static [u32],
    gives: Option<&'static [u32]>,
}

const fn chain_case(
    ids: &'static [u32],
    pivots: &'static [u32],
    gives: Option<&'static [u32]>,
) -> Case {
    Case { ids, pivots, gives }
}

fn literals_of(alloc: Global, numbers: &[u32]) -> Result<Vec<Literal>, AllocError> {
    numbers.iter().map(|number| Literal(*number)).collect(alloc)
}

fn formula_of(alloc: Global, vars: u32, lists: &[&[u32]]) -> Result<Option<Formula>, AllocError> {
    let mut clauses = Clauses::new(alloc);
    for list in lists {
        let literals = literals_of(alloc, list)?;
        if are_distinct(literals.as_slice()) {
            clauses.push(literals.as_slice())?;
        }
    }
    Ok(Formula::check(vars, clauses))
}

/// The result of the chain, where there are few clauses.
fn try_case(alloc: Global, lemmas: &mut Lemmas, case: &Case) -> Result<Option<u32>, AllocError> {
    let chain = Chain {
        ids: case.ids.to_vec(alloc)?,
        pivots: case.pivots.to_vec(alloc)?,
    };
    let formula = &lemmas.formula;
    if formula.clauses.len() > 100 || lemmas.added.len() > 100 {
        return Ok(None);
    }
    match lemmas.try_chain(chain) {
        Ok(number) => Ok(Some(number)),
        Err(ChainFault::BadStep) => Ok(None),
        Err(ChainFault::NoMemory) => Err(AllocError),
    }
}

/// Whether the clause has just these literals.
fn is_just(clause: &[Literal], numbers: &[u32]) -> bool {
    clause.len() == numbers.len() && numbers.iter().all(|n| has_number(clause, *n as usize))
}

/// Whether the chain gives what it should, under the next number, or is refused and adds nothing.
fn is_right(alloc: Global, lemmas: &mut Lemmas, case: &Case) -> Result<bool, AllocError> {
    let before = lemmas.added.len();
    let number = try_case(alloc, lemmas, case)?;
    match (number, case.gives) {
        (None, None) => Ok(lemmas.added.len() == before && lemmas.chains.len() == before),
        (Some(number), Some(gives)) => match lemmas.added.get(before) {
            Some(clause) => Ok(number as usize == 10 + before && is_just(clause, gives)),
            None => Ok(false),
        },
        _ => Ok(false),
    }
}

#[test]
fn chains_resolve_or_break_one_rule(rt: HostRuntime) -> Result<(), Fail> {
    let alloc = rt.alloc();
    let cases = [
        chain_case(&[], &[], None),
        chain_case(&[0], &[], None),
        chain_case(&[10], &[], None),
        chain_case(&[11], &[], None),
        chain_case(&[1], &[1], None),
        chain_case(&[1, 2], &[], None),
        chain_case(&[1, 2], &[1, 2], None),
        chain_case(&[5, 1], &[1], None),
        chain_case(&[1, 2], &[2], None),
        chain_case(&[1, 2], &[3], None),
        chain_case(&[1, 2], &[0], None),
        chain_case(&[8, 4], &[1], None),
        chain_case(&[4, 8], &[1], None),
        chain_case(&[1, 10], &[1], None),
        chain_case(&[1, 2, 0], &[1, 2], None),
        chain_case(&[1], &[], Some(&[2, 4])),
        chain_case(&[8], &[], Some(&[2, 3, 6])),
        chain_case(&[1, 2], &[1], Some(&[4])),
        chain_case(&[2, 1], &[1], Some(&[4])),
        chain_case(&[3, 4], &[1], Some(&[5])),
        chain_case(&[1, 3], &[2], Some(&[2])),
        chain_case(&[2, 4], &[2], Some(&[3])),
        chain_case(&[4, 5], &[1], Some(&[5])),
        chain_case(&[6, 7], &[2], Some(&[6, 8])),
        chain_case(&[7, 6], &[2], Some(&[6, 8])),
        chain_case(&[9, 6], &[3], Some(&[4, 9])),
        chain_case(&[6, 7, 9], &[2, 3], Some(&[8, 9])),
        chain_case(&[1, 2, 4], &[1, 2], Some(&[3])),
        chain_case(&[10, 12, 4], &[2, 2], None),
        chain_case(&[1, 2, 4, 5], &[1, 2, 1], Some(&[])),
    ];
    let Some(formula) = formula_of(alloc, 4, &CLAUSES)? else {
        return Err(Fail::from("the clauses are of the variables"));
    };
    let mut lemmas = Lemmas::of(formula);
    for case in &cases {
        assert!(rt;
            is_right(alloc, &mut lemmas, case)?,
            "{:?} {:?}",
            case.ids,
            case.pivots
        );
    }
    assert_eq!(rt; lemmas.added.len(), 14);
    let Ok(refutation) = lemmas.refuted() else {
        return Err(Fail::from("the last clause is empty"));
    };
    assert_eq!(rt; refutation.chains().len(), 14);
    Ok(())
}

#[test]
fn values_satisfy_or_do_not(rt: HostRuntime) -> Result<(), Fail> {
    let alloc = rt.alloc();
    let lists: [&[u32]; 2] = [&[2, 5], &[3, 4]];
    let cases: [(&[bool], bool); 6] = [
        (&[], false),
        (&[true], false),
        (&[true, true], true),
        (&[false, false], true),
        (&[true, false], false),
        (&[true, true, true], false),
    ];
    for (values, fits) in &cases {
        let Some(formula) = formula_of(alloc, 2, &lists)? else {
            return Err(Fail::from("the clauses are of the variables"));
        };
        let lemmas = Lemmas::of(formula);
        let Err(lemmas) = lemmas.refuted() else {
            return Err(Fail::from("no clause is empty"));
        };
        let met = model_of(lemmas.into_formula(), values.to_vec(alloc)?).is_ok();
        assert_eq!(rt; met, *fits);
    }
    assert!(rt;
        formula_of(alloc, 1, &lists)?.is_none(),
        "a literal of no variable"
    );
    let twice = literals_of(alloc, &[2, 4, 2])?;
    assert!(rt; !are_distinct(twice.as_slice()), "a literal twice");
    Ok(())
}

#[test]
fn a_chain_that_resolves_is_added(rt: HostRuntime) -> Result<(), Fail> {
    let alloc = rt.alloc();
    let Some(formula) = formula_of(alloc, 4, &CLAUSES)? else {
        return Err(Fail::from("the clauses are of the variables"));
    };
    let first = formula.clauses.is_empty();
    assert!(rt; !first);
    let few = formula.clauses.len();
    assert!(rt; few < 100);
    let mut lemmas = Lemmas::of(formula);
    let chain = Chain {
        ids: vec![in alloc; 1]?,
        pivots: Vec::new(alloc),
    };
    assert_eq!(rt; lemmas.resolve_chain(chain)?, 10);
    Ok(())
}

#[test]
fn clauses_stand_one_after_another(rt: HostRuntime) -> Result<(), Fail> {
    let alloc = rt.alloc();
    let mut clauses = Clauses::new(alloc);
    assert!(rt; clauses.is_empty());
    let lists: [&[Literal]; 3] = [&[Literal(2), Literal(5)], &[], &[Literal(4)]];
    for list in &lists {
        if are_distinct(list) {
            clauses.push(list)?;
        }
    }
    assert_eq!(rt; clauses.len(), 3);
    for (i, list) in lists.iter().enumerate() {
        assert_eq!(rt; clauses.get(i), Some(*list));
    }
    assert_eq!(rt; clauses.get(3), None);
    Ok(())
}
