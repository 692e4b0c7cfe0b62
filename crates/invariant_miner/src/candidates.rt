//! The candidate clauses of a circuit.

ghost use Rattle.std.specs.Prelude.{◌≡◌, ◌≢◌, ℕ, ◌+◌, ◌-◌, ◌<◌, ◌≤◌, List, [], ◌∷◌, ◌++◌, map, length, All, OnOk, IfOk};
ghost use Rattle.std.specs.List.{list_all, flat_map, range_with_len};
ghost use Rattle.std.specs.List.Sorted.{IsStrictlyIncreasing};
ghost use Rattle.invariant_miner.specs.Samples.{in_all_rows, in_all_samples};
ghost use Rattle.invariant_miner.specs.Thinned.{IsAskable};
ghost use Rattle.invariant_miner.specs.Columns.{AreColumns};
ghost use Rattle.invariant_miner.specs.Candidates.{same_literal, has_literal, same_literals, is_there, with_new, constant_clauses, relation_clauses, latch_clauses, pair_clause, pair_clauses, control_clauses, candidates_by, candidates};

use crate::columns::{add_column, least_equal, least_opposite, no_columns};
use crate::rows::{always_holds, negated, no_samples, one_holds, plain};
use crate::samples::sample_rows;
use gate_graph::Circuit;
use std::alloc::{AllocError, Global};
use std::vec::Vec;
use unroll_cnf::{LatchClause, LatchLiteral};

/// Whether the two literals are the same.
fn is_same(x: LatchLiteral, y: LatchLiteral) -> bool
    ensures { result ≡ same_literal x y }
{
    x.latch == y.latch && x.negated == y.negated
}

/// Whether the clause has this literal.
fn has(clause: &[LatchLiteral], x: LatchLiteral) -> bool
    ensures { result ≡ has_literal clause.now x }
{
    clause.iter().any(|y| is_same(x, *y))
}

/// Whether the clause has all these literals.
fn has_all(clause: &[LatchLiteral], literals: &[LatchLiteral]) -> bool
    ensures { result ≡ list_all (has_literal clause.now) literals.now }
{
    literals.iter().all(|x| has(clause, *x))
}

/// Whether the two clauses have the same literals.
#[tactic(auto, unfolding(crate::specs::Candidates::same_literals))]
fn are_same(d: &[LatchLiteral], e: &[LatchLiteral]) -> bool
    ensures { result ≡ same_literals d.now e.now }
{
    has_all(e, d) && has_all(d, e)
}

/// Whether the list has a clause of the same literals.
#[tactic(auto, unfolding(crate::specs::Candidates::is_there))]
fn is_there(clause: &[LatchLiteral], list: &[LatchClause]) -> bool
    ensures { result ≡ is_there clause.now list.now }
{
    list.iter().any(|d| are_same(clause, d.as_slice()))
}

/// Adds the clause, unless it is there already.
fn add(list: &mut Vec<LatchClause>, clause: LatchClause) -> Result<(), AllocError>
    ensures { OnOk result (list.new.items ≡ with_new list.old.items (clause ∷ [])) }
{
    if !is_there(clause.as_slice(), list.as_slice()) {
        list.push(clause)?;
    }
    Ok(())
}

/// Adds a clause of one literal.
fn push_one(alloc: Global, list: &mut Vec<LatchClause>, x: LatchLiteral) -> Result<(), AllocError>
    ensures { OnOk result (list.new.items ≡ list.old.items ++ (x ∷ []) ∷ []) }
{
    list.push(LatchClause::one(alloc, x)?)?;
    Ok(())
}

/// Adds two clauses of two literals each.
fn push_both(
    alloc: Global,
    list: &mut Vec<LatchClause>,
    first: (LatchLiteral, LatchLiteral),
    second: (LatchLiteral, LatchLiteral),
) -> Result<(), AllocError>
    requires first { first.0.latch ≢ first.1.latch }
    requires second { second.0.latch ≢ second.1.latch }
    ensures { OnOk result (list.new.items ≡ list.old.items ++ ((first.0 ∷ first.1 ∷ []) ∷ (second.0 ∷ second.1 ∷ []) ∷ [])) }
{
    list.push(LatchClause::two(alloc, first.0, first.1)?)?;
    list.push(LatchClause::two(alloc, second.0, second.1)?)?;
    Ok(())
}

/// Adds the clause of two literals, unless it is there already.
fn add_two(
    alloc: Global,
    list: &mut Vec<LatchClause>,
    x: LatchLiteral,
    y: LatchLiteral,
) -> Result<(), AllocError>
    requires { x.latch ≢ y.latch }
    ensures { OnOk result (list.new.items ≡ with_new list.old.items ((x ∷ y ∷ []) ∷ [])) }
{
    let clause = LatchClause::two(alloc, x, y)?;
    add(list, clause)
}

/// Adds the literal that holds in all sample states where the latch is constant.
fn add_constant(
    alloc: Global,
    list: &mut Vec<LatchClause>,
    rows: &[Vec<u64>],
    n: u32,
) -> Result<(), AllocError>
    ensures { OnOk result (list.new.items ≡ list.old.items ++ constant_clauses (in_all_rows (map (λ v. v.items) rows.now)) n) }
{
    if always_holds(rows, plain(n)) {
        return push_one(alloc, list, plain(n));
    }
    if always_holds(rows, negated(n)) {
        return push_one(alloc, list, negated(n));
    }
    Ok(())
}

/// Adds the clauses of a latch with the earlier one that it is related to.
#[tactic(auto, unfolding(crate::specs::Candidates::relation_clauses))]
fn add_relation(
    alloc: Global,
    list: &mut Vec<LatchClause>,
    rows: &[Vec<u64>],
    columns: &[Vec<u32>],
    n: u32,
) -> Result<(), AllocError>
    requires some { 0 < length columns.now }
    requires columns { AreColumns (map (λ v. v.items) rows.now) (length columns.now) n (map (λ v. v.items) columns.now) }
    ensures { OnOk result (list.new.items ≡ list.old.items ++ relation_clauses (in_all_rows (map (λ v. v.items) rows.now)) n) }
{
    if let Some(m) = least_equal(rows, columns, n) {
        let both = (plain(m), negated(n));
        return push_both(alloc, list, both, (negated(m), plain(n)));
    }
    if let Some(m) = least_opposite(rows, columns, n) {
        let both = (plain(m), plain(n));
        return push_both(alloc, list, both, (negated(m), negated(n)));
    }
    Ok(())
}

/// Adds the clause of two literals where all sample states meet it, and neither literal holds in all.
#[tactic(auto, unfolding(crate::specs::Candidates::pair_clause))]
fn add_pair(
    alloc: Global,
    list: &mut Vec<LatchClause>,
    rows: &[Vec<u64>],
    x: LatchLiteral,
    y: LatchLiteral,
) -> Result<(), AllocError>
    requires { x.latch ≢ y.latch }
    ensures { OnOk result (list.new.items ≡ with_new list.old.items (pair_clause (in_all_rows (map (λ v. v.items) rows.now)) x y)) }
{
    if one_holds(rows, x, y) && !always_holds(rows, x) && !always_holds(rows, y) {
        return add_two(alloc, list, x, y);
    }
    Ok(())
}

/// Adds the clauses of two latches, by their signs.
#[tactic(auto, unfolding(crate::specs::Candidates::pair_clauses))]
fn add_signs(
    alloc: Global,
    list: &mut Vec<LatchClause>,
    rows: &[Vec<u64>],
    a: u32,
    b: u32,
) -> Result<(), AllocError>
    requires { a < b }
    ensures { OnOk result (list.new.items ≡ with_new list.old.items (pair_clauses (in_all_rows (map (λ v. v.items) rows.now)) a b)) }
{
    add_pair(alloc, list, rows, plain(a), plain(b))?;
    add_pair(alloc, list, rows, plain(a), negated(b))?;
    add_pair(alloc, list, rows, negated(a), plain(b))?;
    add_pair(alloc, list, rows, negated(a), negated(b))?;
    Ok(())
}

/// Adds the clauses of a latch with each of these later ones.
fn add_pairs(
    alloc: Global,
    list: &mut Vec<LatchClause>,
    rows: &[Vec<u64>],
    a: u32,
    later: &[u32],
) -> Result<(), AllocError>
    requires { All (λ b. a < b) later.now }
    ensures { OnOk result (list.new.items ≡ with_new list.old.items (flat_map (pair_clauses (in_all_rows (map (λ v. v.items) rows.now)) a) later.now)) }
{
    for b in later {
        add_signs(alloc, list, rows, a, *b)?;
    }
    Ok(())
}

/// Adds the clauses of each two control latches.
fn add_controls(
    alloc: Global,
    list: &mut Vec<LatchClause>,
    rows: &[Vec<u64>],
    control: &[u32],
) -> Result<(), AllocError>
    requires rising { IsStrictlyIncreasing control.now }
    ensures { OnOk result (list.new.items ≡ with_new list.old.items (control_clauses (in_all_rows (map (λ v. v.items) rows.now)) control.now)) }
{
    for i in 0..control.len() {
        let later = &control[i + 1..];
        add_pairs(alloc, list, rows, control[i], later)?;
    }
    Ok(())
}

/// Adds the clauses of one latch.
#[tactic(auto, unfolding(crate::specs::Candidates::latch_clauses))]
fn add_latch(
    alloc: Global,
    list: &mut Vec<LatchClause>,
    rows: &[Vec<u64>],
    columns: &[Vec<u32>],
    n: u32,
) -> Result<(), AllocError>
    requires some { 0 < length columns.now }
    requires columns { AreColumns (map (λ v. v.items) rows.now) (length columns.now) n (map (λ v. v.items) columns.now) }
    ensures { OnOk result (list.new.items ≡ list.old.items ++ latch_clauses (in_all_rows (map (λ v. v.items) rows.now)) n) }
{
    add_constant(alloc, list, rows, n)?;
    add_relation(alloc, list, rows, columns, n)?;
    Ok(())
}

/// Adds the clauses of each latch but `live`.
fn add_latches(
    alloc: Global,
    list: &mut Vec<LatchClause>,
    rows: &[Vec<u64>],
    latches: u32,
) -> Result<(), AllocError>
    ensures { OnOk result (list.new.items ≡ list.old.items ++ (flat_map (latch_clauses (in_all_rows (map (λ v. v.items) rows.now))) (range_with_len 1 (latches - 1)))) }
{
    let mut columns = no_columns(alloc, latches as usize + 1)?;
    for n in 1..latches {
        add_latch(alloc, list, rows, columns.as_slice(), n)?;
        add_column(&mut columns, rows, n)?;
    }
    Ok(())
}

/// The candidates that these rows of sample states give.
#[tactic(auto, unfolding(crate::specs::Candidates::candidates_by))]
fn candidates_of(
    alloc: Global,
    rows: &[Vec<u64>],
    latches: u32,
    control: &[u32],
) -> Result<Vec<LatchClause>, AllocError>
    requires rising { IsStrictlyIncreasing control.now }
    ensures { IfOk result (λ list. list.items ≡ candidates_by (in_all_rows (map (λ v. v.items) rows.now)) latches control.now) }
{
    let mut list = Vec::new(alloc);
    if no_samples(rows) {
        return Ok(list);
    }
    add_latches(alloc, &mut list, rows, latches)?;
    add_controls(alloc, &mut list, rows, control)?;
    Ok(list)
}

/// The candidate clauses of the circuit: what its sample states of this seed have in common.
pub fn candidates(
    alloc: Global,
    circuit: &Circuit,
    seed: u64,
) -> Result<Vec<LatchClause>, AllocError>
    ensures list { IfOk result (λ list. list.items ≡ candidates circuit.now seed) }
    ensures askable { IfOk result (λ list. IsAskable circuit.now list.items) }
{
    let rows = sample_rows(alloc, circuit, seed)?;
    let latches = circuit.latches.len() as u32;
    let list = candidates_of(alloc, rows.as_slice(), latches, circuit.control.as_slice())?;
    Ok(list)
}
