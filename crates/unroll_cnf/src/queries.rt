//! The queries.

ghost use Rattle.std.specs.Prelude.{◌≡◌, ◌+◌, ◌*◌, ◌^◌, ◌<◌, ◌≤◌, length, IfOk};
ghost use Rattle.unroll_cnf.specs.Latches.{AreOfLatches, weight};
ghost use Rattle.unroll_cnf.specs.Queries.{base_clauses, step_clauses, keep_clauses};

use crate::cones::{bad_cones, set_cone};
use crate::edges::{first_variable, push_bad, push_edge, push_good, push_run, push_starts};
use crate::latch_clause::LatchClause;
use crate::limits::{MOST_EDGES, MOST_WEIGHT};
use crate::places::latch_nodes;
use crate::sets::{Scratch, push_all_broken, push_set, push_some};
use gate_graph::Circuit;
use lemma_checker::clauses::Clauses;
use lemma_checker::formula::Formula;
use std::alloc::{AllocError, Global};
use std::vec::Vec;

/// The clauses of the base query.
fn base_list(alloc: Global, circuit: &Circuit, k: u32) -> Result<Clauses, AllocError>
    requires some { 1 ≤ k }
    requires few { k ≤ MOST_EDGES }
    ensures { IfOk result (λ list. list ≡ base_clauses circuit.now k) }
{
    let cones = bad_cones(alloc, circuit, false, k - 1)?;
    let mut out = Clauses::new(alloc);
    push_starts(&mut out, circuit)?;
    push_run(&mut out, circuit, cones.as_slice(), k - 1)?;
    push_bad(&mut out, circuit, k - 1)?;
    Ok(out)
}

/// Empty lists.
fn scratch(alloc: Global) -> Scratch {
    Scratch {
        latches: Vec::new(alloc),
        literals: Vec::new(alloc),
    }
}

/// The clauses of the step query.
fn step_list(
    alloc: Global,
    circuit: &Circuit,
    k: u32,
    set: &[LatchClause],
) -> Result<Clauses, AllocError>
    requires few { k ≤ MOST_EDGES }
    requires of { AreOfLatches (length circuit.now.latches.items) set.now }
    ensures { IfOk result (λ list. list ≡ step_clauses circuit.now set.now k) }
{
    let places = latch_nodes(alloc, circuit)?;
    let cones = bad_cones(alloc, circuit, true, k)?;
    let mut scratch = scratch(alloc);
    let mut out = Clauses::new(alloc);
    let first = first_variable(circuit, 0);
    push_set(
        &mut out,
        circuit,
        places.as_slice(),
        first,
        set,
        &mut scratch,
    )?;
    push_run(&mut out, circuit, cones.as_slice(), k)?;
    push_good(&mut out, circuit, k)?;
    push_bad(&mut out, circuit, k)?;
    Ok(out)
}

/// The clauses of the keep query.
fn keep_list(alloc: Global, circuit: &Circuit, set: &[LatchClause]) -> Result<Clauses, AllocError>
    requires of { AreOfLatches (length circuit.now.latches.items) set.now }
    requires small { length set.now ≤ MOST_WEIGHT }
    ensures { IfOk result (λ list. list ≡ keep_clauses circuit.now set.now) }
{
    let places = latch_nodes(alloc, circuit)?;
    let mut scratch = scratch(alloc);
    let cone = set_cone(alloc, circuit, set, &mut scratch.latches)?;
    let mut out = Clauses::new(alloc);
    let first = first_variable(circuit, 0);
    let second = first_variable(circuit, 1);
    push_edge(&mut out, circuit, cone.as_slice(), 0)?;
    push_set(
        &mut out,
        circuit,
        places.as_slice(),
        first,
        set,
        &mut scratch,
    )?;
    push_all_broken(&mut out, circuit, first, second, set, &mut scratch)?;
    push_some(&mut out, second, set, &mut scratch)?;
    Ok(out)
}

/// The base query of `k` edges: the runs of `k` edges from the start that are bad at the last edge.
pub fn base_query(alloc: Global, circuit: &Circuit, k: u32) -> Result<Formula, AllocError>
    requires some { 1 ≤ k }
    requires few { k ≤ MOST_EDGES }
    ensures query { IfOk result (λ f. f.clauses ≡ base_clauses circuit.now k) }
    ensures few_clauses { IfOk result (λ f. length f.clauses < 2 ^ 30) }
    ensures few_variables { IfOk result (λ f. f.vars ≡ k * length circuit.now.graph) }
{
    let vars = k * circuit.graph.size();
    let clauses = base_list(alloc, circuit, k)?;
    Ok(Formula { vars, clauses })
}

/// The step query of `k` edges: the runs of `k + 1` edges from a state that meets the set, good at
/// the first `k` and bad at the last.
pub fn step_query(
    alloc: Global,
    circuit: &Circuit,
    k: u32,
    set: &[LatchClause],
) -> Result<Formula, AllocError>
    requires few { k ≤ MOST_EDGES }
    requires of { AreOfLatches (length circuit.now.latches.items) set.now }
    requires small { weight set.now ≤ MOST_WEIGHT }
    ensures query { IfOk result (λ f. f.clauses ≡ step_clauses circuit.now set.now k) }
    ensures few_clauses { IfOk result (λ f. length f.clauses < 2 ^ 30) }
    ensures few_variables { IfOk result (λ f. f.vars ≡ (k + 1) * length circuit.now.graph) }
{
    let vars = (k + 1) * circuit.graph.size();
    let clauses = step_list(alloc, circuit, k, set)?;
    Ok(Formula { vars, clauses })
}

/// The keep query of the set: the edges from a state that meets it to a state that doesn't.
pub fn keep_query(
    alloc: Global,
    circuit: &Circuit,
    set: &[LatchClause],
) -> Result<Formula, AllocError>
    requires of { AreOfLatches (length circuit.now.latches.items) set.now }
    requires small { weight set.now ≤ MOST_WEIGHT }
    ensures query { IfOk result (λ f. f.clauses ≡ keep_clauses circuit.now set.now) }
    ensures few_clauses { IfOk result (λ f. length f.clauses < 2 ^ 30) }
    ensures few_variables { IfOk result (λ f. f.vars ≡ length circuit.now.graph + length set.now) }
{
    let clauses = keep_list(alloc, circuit, set)?;
    let vars = circuit.graph.size() + set.len() as u32;
    Ok(Formula { vars, clauses })
}
