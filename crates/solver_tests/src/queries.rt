//! The queries of one small circuit, and a run of it.

ghost use Rattle.std.specs.Prelude.{◌≡◌, true, [], ◌∷◌, length, IfOk};

use gate_graph::{Circuit, Graph, Latch, Start, Wire};
use lemma_checker::checker::model_of;
use lemma_checker::formula::Formula;
use lemma_checker::literal::Literal;
use std::alloc::{AllocError, Global};
use std::test::Fail;
use std::vec::Vec;
use unroll_cnf::{LatchClause, LatchLiteral, base_query, keep_query, run_of, step_query};

/// Latch 1 takes at an edge with latch 0 the value of the input, and is bad. Node 0 is constant,
/// nodes 1 and 2 are the latches, node 3 the input, node 4 the gate.
fn remembers(alloc: Global) -> Result<Circuit, AllocError>
    ensures { IfOk result (λ c. length c.latches.items ≡ 2) }
{
    let mut graph = Graph::new(alloc)?;
    let live = graph.latch()?;
    let kept = graph.latch()?;
    let input = graph.input()?;
    let next = graph.and(live, input)?;
    let mut latches = Vec::new(alloc);
    latches.push(Latch {
        start: Start::Zero,
        next: Wire(1),
    })?;
    latches.push(Latch {
        start: Start::Zero,
        next,
    })?;
    let _size = graph.size();
    Ok(Circuit {
        graph,
        latches,
        inputs: 1,
        bad: kept,
        address_first: 0,
        address_bits: 0,
        addresses: Vec::new(alloc),
        control: Vec::new(alloc),
    })
}

/// Whether the formula has just these clauses, by the numbers of their literals.
fn has_clauses(formula: &Formula, expected: &[&[u32]]) -> bool {
    if formula.clauses.len() != expected.len() {
        return false;
    }
    for i in 0..formula.clauses.len() {
        let clause = formula.clauses.clause(i);
        if clause.len() != expected[i].len() {
            return false;
        }
        for j in 0..clause.len() {
            if clause[j] != Literal(expected[i][j]) {
                return false;
            }
        }
    }
    true
}

/// The set of the clause that latch 1 is 0.
fn never_kept(alloc: Global) -> Result<LatchClause, AllocError>
    ensures { IfOk result (λ d. d ≡ record { latch = 1; negated = true } ∷ []) }
{
    LatchClause::one(
        alloc,
        LatchLiteral {
            latch: 1,
            negated: true,
        },
    )
}

/// The clauses of each query, worked out by hand: node i at edge t is variable i + 5 t + 1. The bad wire
/// depends on its latch alone, and an edge before on the latch's next wire.
#[test]
fn queries_have_these_clauses(rt: HostRuntime) -> Result<(), Fail> {
    let circuit = remembers(rt.alloc())?;
    let base = base_query(rt.alloc(), &circuit, 1)?;
    assert_eq!(rt; base.vars, 5);
    let expected: [&[u32]; 3] = [&[5], &[7], &[6]];
    assert!(rt; has_clauses(&base, &expected));
    Ok(())
}

/// The set has the clause that latch 1 is 0, which is weakened by latch 0.
#[test]
fn queries_of_a_set_have_these_clauses(rt: HostRuntime) -> Result<(), Fail> {
    let circuit = remembers(rt.alloc())?;
    let set = [never_kept(rt.alloc())?];
    assert!(rt; set[0].meets(&[false, true]) && set[0].meets(&[true, false]));
    assert!(rt; !set[0].meets(&[true, true]));
    let keep = keep_query(rt.alloc(), &circuit, &set)?;
    assert_eq!(rt; keep.vars, 6);
    let expected: [&[u32]; 8] = [
        &[3],
        &[11, 4],
        &[11, 8],
        &[10, 5, 9],
        &[5, 7],
        &[13, 3],
        &[13, 10],
        &[12],
    ];
    assert!(rt; has_clauses(&keep, &expected));
    let step = step_query(rt.alloc(), &circuit, 1, &set)?;
    assert_eq!(rt; step.vars, 10);
    let expected: [&[u32]; 8] = [
        &[5, 7],
        &[11, 4],
        &[11, 8],
        &[10, 5, 9],
        &[17, 10],
        &[16, 11],
        &[7],
        &[16],
    ];
    assert!(rt; has_clauses(&step, &expected));
    Ok(())
}

/// Of three edges from the start, the last is bad where the input is 1 at the second.
#[test]
fn values_stand_for_a_run(rt: HostRuntime) -> Result<(), Fail> {
    let circuit = remembers(rt.alloc())?;
    let base = base_query(rt.alloc(), &circuit, 3)?;
    let mut values = Vec::new(rt.alloc());
    values.extend_from_slice(&[false, false, false, false, false])?;
    values.extend_from_slice(&[false, true, false, true, true])?;
    values.extend_from_slice(&[false, true, true, false, false])?;
    let Ok(model) = model_of(base, values) else {
        assert!(rt; false);
        return Ok(());
    };
    let run = run_of(rt.alloc(), &circuit, 3, &model)?;
    assert_eq!(rt; run.start.as_slice(), [false, false].as_slice());
    assert_eq!(rt; run.inputs.len(), 3);
    let second = run.inputs.as_slice().get(1).map(|x| x.as_slice());
    assert_eq!(rt; second, Some([true].as_slice()));
    Ok(())
}
