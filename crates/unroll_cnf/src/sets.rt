//! The clauses of a set: that a state meets it, and that the next state doesn't.

ghost use Rattle.std.specs.Prelude.{◌≡◌, ◌≢◌, ◌+◌, ◌*◌, ◌/◌, ◌^◌, ◌<◌, ◌≤◌, [], ◌∷◌, ◌++◌, length, map, slice_get, OnOk, All};
ghost use Rattle.std.specs.List.{list_any};
ghost use Rattle.unroll_cnf.specs.Latches.{AreApart, is_not_live, weakened, IsOfLatches, AreOfLatches};
ghost use Rattle.unroll_cnf.specs.Queries.{plain, negated, denied, latch_places, latch_literal, set_clause, next_literal, broken_clauses, all_broken, some_of};

use crate::edges::push_two;
use crate::latch_clause::LatchClause;
use crate::latch_literal::LatchLiteral;
use crate::literals::{
    denied_literal, negated_literal, plain_literal, signed_literal, wire_literal,
};
use gate_graph::Circuit;
use lemma_checker::clauses::Clauses;
use lemma_checker::literal::Literal;
use std::alloc::AllocError;
use std::vec::Vec;

/// The literal that holds where `live` is 0.
const NOT_LIVE: LatchLiteral = LatchLiteral {
    latch: 0,
    negated: true,
};

/// Whether one of the literals is that one.
fn denies_live(clause: &[LatchLiteral]) -> bool
    ensures { result ≡ list_any is_not_live clause.now }
{
    clause.iter().any(|l| l.latch == 0 && l.negated)
}

/// Writes the clause with the literal that holds where `live` is 0.
pub(crate) fn weaken(
    clause: &[LatchLiteral],
    into: &mut Vec<LatchLiteral>,
) -> Result<(), AllocError>
    ensures { OnOk result (into.new.items ≡ weakened clause.now) }
{
    into.clear();
    if denies_live(clause) {
        into.extend_from_slice(clause)?;
        return Ok(());
    }
    into.push(NOT_LIVE)?;
    into.extend_from_slice(clause)?;
    Ok(())
}

/// The literal of a latch at an edge; `places` are the numbers of the latches' nodes.
fn state_literal(circuit: &Circuit, places: &[u32], first: u32, literal: LatchLiteral) -> Literal
    requires places { places.now ≡ latch_places 0 circuit.now.graph }
    requires of { literal.latch < length circuit.now.latches.items }
    requires first { first ≤ 2 ^ 26 }
    ensures { result ≡ latch_literal circuit.now first literal }
{
    let place = places[literal.latch as usize];
    signed_literal(literal.negated, plain_literal(place + first))
}

/// Writes the literals of these latches at an edge.
fn write_literals(
    circuit: &Circuit,
    places: &[u32],
    first: u32,
    clause: &[LatchLiteral],
    into: &mut Vec<Literal>,
) -> Result<(), AllocError>
    requires places { places.now ≡ latch_places 0 circuit.now.graph }
    requires of { IsOfLatches (length circuit.now.latches.items) clause.now }
    requires first { first ≤ 2 ^ 26 }
    ensures { OnOk result (into.new.items ≡ map (latch_literal circuit.now first) clause.now) }
{
    into.clear();
    for literal in clause {
        into.push(state_literal(circuit, places, first, *literal))?;
    }
    Ok(())
}

/// Lists that are used again for each clause.
#[derive(Drop)]
pub(crate) struct Scratch {
    pub(crate) latches: Vec<LatchLiteral>,
    pub(crate) literals: Vec<Literal>,
}

/// Adds that the state before an edge meets the clause.
fn push_set_clause(
    out: &mut Clauses,
    circuit: &Circuit,
    places: &[u32],
    first: u32,
    clause: &LatchClause,
    latches: &mut Vec<LatchLiteral>,
    literals: &mut Vec<Literal>,
) -> Result<(), AllocError>
    requires places { places.now ≡ latch_places 0 circuit.now.graph }
    requires of { IsOfLatches (length circuit.now.latches.items) clause.now }
    requires first { first ≤ 2 ^ 26 }
    ensures { OnOk result (out.new ≡ out.old ++ set_clause circuit.now first clause.now ∷ []) }
{
    weaken(clause.as_slice(), latches)?;
    write_literals(circuit, places, first, latches.as_slice(), literals)?;
    out.push(literals.as_slice())?;
    Ok(())
}

/// Adds that the state before an edge meets each clause of the set.
pub(crate) fn push_set(
    out: &mut Clauses,
    circuit: &Circuit,
    places: &[u32],
    first: u32,
    set: &[LatchClause],
    scratch: &mut Scratch,
) -> Result<(), AllocError>
    requires places { places.now ≡ latch_places 0 circuit.now.graph }
    requires of { AreOfLatches (length circuit.now.latches.items) set.now }
    requires first { first ≤ 2 ^ 26 }
    ensures { OnOk result (out.new ≡ out.old ++ map (set_clause circuit.now first) set.now) }
{
    let latches = &mut scratch.latches;
    let literals = &mut scratch.literals;
    for i in 0..set.len() {
        push_set_clause(out, circuit, places, first, &set[i], latches, literals)?;
    }
    Ok(())
}

/// The literal of a latch in the state after an edge.
fn after_literal(circuit: &Circuit, first: u32, literal: LatchLiteral) -> Literal
    requires of { literal.latch < length circuit.now.latches.items }
    requires first { first ≤ 2 ^ 26 }
    ensures value { result ≡ next_literal circuit.now first literal }
    ensures variable { result.0 / 2 < first + length circuit.now.graph }
{
    let latch = circuit.latches[literal.latch as usize];
    signed_literal(literal.negated, wire_literal(first, latch.next))
}

/// Adds that none of these literals holds in the state after an edge, where variable `y` is true.
fn push_broken(
    out: &mut Clauses,
    circuit: &Circuit,
    first: u32,
    y: u32,
    clause: &[LatchLiteral],
) -> Result<(), AllocError>
    requires of { IsOfLatches (length circuit.now.latches.items) clause.now }
    requires first { first ≤ 2 ^ 26 }
    requires later { first + length circuit.now.graph ≤ y }
    requires small { y < 2 ^ 31 }
    ensures { OnOk result (out.new ≡ out.old ++ map (λ l. negated y ∷ denied (next_literal circuit.now first l) ∷ []) clause.now) }
{
    for literal in clause {
        let after = after_literal(circuit, first, *literal);
        push_two(out, negated_literal(y), denied_literal(after))?;
    }
    Ok(())
}

/// Adds that the state after an edge doesn't meet the clause, where variable `y` is true.
fn push_broken_clause(
    out: &mut Clauses,
    circuit: &Circuit,
    first: u32,
    y: u32,
    clause: &LatchClause,
    latches: &mut Vec<LatchLiteral>,
) -> Result<(), AllocError>
    requires of { IsOfLatches (length circuit.now.latches.items) clause.now }
    requires first { first ≤ 2 ^ 26 }
    requires later { first + length circuit.now.graph ≤ y }
    requires small { y < 2 ^ 31 }
    ensures { OnOk result (out.new ≡ out.old ++ broken_clauses circuit.now first y clause.now) }
{
    weaken(clause.as_slice(), latches)?;
    push_broken(out, circuit, first, y, latches.as_slice())
}

/// Adds the same for each clause of the set, with the variables from `y` on.
pub(crate) fn push_all_broken(
    out: &mut Clauses,
    circuit: &Circuit,
    first: u32,
    y: u32,
    set: &[LatchClause],
    scratch: &mut Scratch,
) -> Result<(), AllocError>
    requires of { AreOfLatches (length circuit.now.latches.items) set.now }
    requires first { first ≤ 2 ^ 26 }
    requires later { first + length circuit.now.graph ≤ y }
    requires small { y + length set.now < 2 ^ 31 }
    ensures { OnOk result (out.new ≡ out.old ++ all_broken circuit.now first y set.now) }
{
    let latches = &mut scratch.latches;
    for i in 0..set.len() {
        push_broken_clause(out, circuit, first, y + i as u32, &set[i], latches)?;
    }
    Ok(())
}

/// Adds that one of the variables from `y` on is true, one for each clause of the set.
pub(crate) fn push_some(
    out: &mut Clauses,
    y: u32,
    set: &[LatchClause],
    scratch: &mut Scratch,
) -> Result<(), AllocError>
    requires small { y + length set.now < 2 ^ 31 }
    ensures { OnOk result (out.new ≡ out.old ++ some_of y set.now ∷ []) }
{
    let literals = &mut scratch.literals;
    write_some(literals, y, set)?;
    out.push(literals.as_slice())?;
    Ok(())
}

/// Writes the variables from `y` on, one for each clause of the set.
fn write_some(literals: &mut Vec<Literal>, y: u32, set: &[LatchClause]) -> Result<(), AllocError>
    requires small { y + length set.now < 2 ^ 31 }
    ensures { OnOk result (literals.new.items ≡ some_of y set.now) }
{
    literals.clear();
    for i in 0..set.len() {
        literals.push(plain_literal(y + i as u32))?;
    }
    Ok(())
}
