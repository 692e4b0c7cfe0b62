//! The run that a satisfying assignment stands for.

ghost use Rattle.std.specs.Prelude.{◌≡◌, ℕ, ◌+◌, ◌-◌, ◌*◌, ◌^◌, ◌<◌, ◌≤◌, List, [], ◌∷◌, length, map, IfOk};
ghost use Rattle.lemma_checker.specs.Clauses.{assigned};
ghost use Rattle.unroll_cnf.specs.declared.latch_literal.LatchLiteral.{LatchLiteral};
ghost use Rattle.unroll_cnf.specs.Latches.{AreOfLatches};
ghost use Rattle.unroll_cnf.specs.Runs.{IsBaseRun, IsStepRun, IsKeepEdge};
ghost use Rattle.unroll_cnf.specs.Queries.{base_clauses, step_clauses, keep_clauses};
ghost use Rattle.unroll_cnf.specs.Meaning.{shifted, StandsFor, first_state, run_inputs, edges_of, HasSizes, IsQueryOf};

use crate::edges::first_variable;
use crate::places::{input_nodes, latch_nodes};
use crate::run::CircuitRun;
use gate_graph::Circuit;
use lemma_checker::answer::Satisfied;
use std::alloc::{AllocError, Global};
use std::vec::Vec;

/// The value of a variable.
fn value_of(values: &[bool], variable: usize) -> bool
    requires counted { 1 ≤ variable }
    ensures { result ≡ assigned values.now variable }
{
    values.get(variable - 1).copied().unwrap_or(false)
}

/// The values of these nodes at the edge where node 0 has the variable `first`.
fn values_at(
    alloc: Global,
    values: &[bool],
    places: &[u32],
    first: u32,
) -> Result<Vec<bool>, AllocError>
    requires counted { 1 ≤ first }
    ensures { IfOk result (λ v. v.items ≡ map (shifted (assigned values.now) first) places.now) }
{
    let mut list = Vec::new(alloc);
    for place in places {
        list.push(value_of(values, *place as usize + first as usize))?;
    }
    Ok(list)
}

/// The inputs of the first `edges` edges.
fn inputs_of(
    alloc: Global,
    circuit: &Circuit,
    edges: u32,
    values: &[bool],
) -> Result<Vec<Vec<bool>>, AllocError>
    requires few { edges ≤ 33 }
    ensures { IfOk result (λ v. map (λ x. x.items) v.items ≡ run_inputs circuit.now (assigned values.now) edges) }
{
    let places = input_nodes(alloc, circuit)?;
    let mut list = Vec::new(alloc);
    for t in 0..edges {
        let first = first_variable(circuit, t);
        let inputs = values_at(alloc, values, places.as_slice(), first)?;
        list.push(inputs)?;
    }
    Ok(list)
}

/// The first state.
fn start_of(alloc: Global, circuit: &Circuit, values: &[bool]) -> Result<Vec<bool>, AllocError>
    ensures { IfOk result (λ v. v.items ≡ first_state circuit.now (assigned values.now)) }
{
    let places = latch_nodes(alloc, circuit)?;
    let first = first_variable(circuit, 0);
    let start = values_at(alloc, values, places.as_slice(), first)?;
    Ok(start)
}

/// The state and the inputs that the values give.
fn read_run(
    alloc: Global,
    circuit: &Circuit,
    edges: u32,
    values: &[bool],
) -> Result<CircuitRun, AllocError>
    requires few { edges ≤ 33 }
    ensures start { IfOk result (λ r. r.start.items ≡ first_state circuit.now (assigned values.now)) }
    ensures inputs { IfOk result (λ r. edges_of r ≡ run_inputs circuit.now (assigned values.now) edges) }
{
    let start = start_of(alloc, circuit, values)?;
    let inputs = inputs_of(alloc, circuit, edges, values)?;
    Ok(CircuitRun { start, inputs })
}

/// The run of a query that the values of a satisfied query stand for: of `edges` edges, from the
/// start and bad at the last for a base query; from a state that meets the set, and bad first at the
/// last edge, for a step query; one edge to a state that doesn't meet the set for a keep query.
pub fn run_of(
    alloc: Global,
    circuit: &Circuit,
    edges: u32,
    model: &Satisfied,
) -> Result<CircuitRun, AllocError>
    requires some { 1 ≤ edges }
    requires few { edges ≤ 33 }
    requires query { IsQueryOf circuit.now edges model.now.formula.clauses }
    ensures run { IfOk result (λ r. StandsFor circuit.now (assigned model.now.values.items) r.start.items (edges_of r)) }
    ensures sizes { IfOk result (λ r. HasSizes circuit.now r) }
    ensures base { model.now.formula.clauses ≡ base_clauses circuit.now edges → IfOk result (λ r. IsBaseRun circuit.now edges r.start.items (edges_of r)) }
    ensures step { (set : List (List LatchLiteral)) (k : ℕ) → AreOfLatches (length circuit.now.latches.items) set → edges ≡ k + 1 → model.now.formula.clauses ≡ step_clauses circuit.now set k → IfOk result (λ r. IsStepRun circuit.now set k r.start.items (edges_of r)) }
    ensures keep { (set : List (List LatchLiteral)) → AreOfLatches (length circuit.now.latches.items) set → edges ≡ 1 → model.now.formula.clauses ≡ keep_clauses circuit.now set → IfOk result (λ r. IsKeepEdge circuit.now set r.start.items (edges_of r)) }
{
    let found = read_run(alloc, circuit, edges, model.values.as_slice())?;
    Ok(found)
}
