//! The clauses of a run's edges, and of its start.

ghost use Rattle.std.specs.Prelude.{◌≡◌, ◌≢◌, ◌+◌, ◌*◌, ◌/◌, ◌^◌, ◌<◌, ◌≤◌, [], ◌∷◌, ◌++◌, length, map, slice_get, OnOk, IfSome};
ghost use Rattle.gate_graph.specs.Gates.{IsOf, IsLow};
ghost use Rattle.gate_graph.specs.Values.{at};
ghost use Rattle.unroll_cnf.specs.Cones.{marks_at};
ghost use Rattle.unroll_cnf.specs.Queries.{offset, within, gate_clauses, same_clauses, next_clauses, latch_clauses, first_clauses, starting, start_clauses, literal_at, edge_clauses, link_clauses, starts_clauses, run_clauses, good_clauses};

use crate::cones::is_marked;
use crate::literals::{denied_literal, negated_literal, plain_literal, wire_literal};
use gate_graph::{Circuit, Latch, Node, Start};
use lemma_checker::clauses::Clauses;
use lemma_checker::literal::Literal;
use std::alloc::AllocError;
use std::vec::Vec;

/// Adds a clause of one literal.
pub(crate) fn push_one(out: &mut Clauses, a: Literal) -> Result<(), AllocError>
    ensures { OnOk result (out.new ≡ out.old ++ (a ∷ []) ∷ []) }
{
    out.push(&[a])?;
    Ok(())
}

/// Adds a clause of two literals.
pub(crate) fn push_two(out: &mut Clauses, a: Literal, b: Literal) -> Result<(), AllocError>
    requires { a.0 ≢ b.0 }
    ensures { OnOk result (out.new ≡ out.old ++ (a ∷ b ∷ []) ∷ []) }
{
    out.push(&[a, b])?;
    Ok(())
}

/// Adds a clause of three literals.
fn push_three(out: &mut Clauses, a: Literal, b: Literal, c: Literal) -> Result<(), AllocError>
    requires ab { a.0 ≢ b.0 }
    requires ac { a.0 ≢ c.0 }
    requires bc { b.0 ≢ c.0 }
    ensures { OnOk result (out.new ≡ out.old ++ (a ∷ b ∷ c ∷ []) ∷ []) }
{
    out.push(&[a, b, c])?;
    Ok(())
}

/// The variable of node 0 at edge `t`.
pub(crate) fn first_variable(circuit: &Circuit, t: u32) -> u32
    requires early { t ≤ 33 }
    ensures value { result ≡ offset circuit.now t }
    ensures small { result ≤ 2 ^ 26 }
{
    t * circuit.graph.size() + 1
}

/// Adds that node `i` has the value that it says.
fn push_gate(out: &mut Clauses, first: u32, i: u32, node: Node) -> Result<(), AllocError>
    requires first { first ≤ 2 ^ 26 }
    requires place { i < 2 ^ 20 }
    requires low { IsLow i node }
    ensures { OnOk result (out.new ≡ out.old ++ gate_clauses first i node) }
{
    let variable = i + first;
    match node {
        Node::Zero => push_one(out, negated_literal(variable)),
        Node::Latch(_) | Node::Input(_) => Ok(()),
        Node::And(a, b) => {
            let left = wire_literal(first, a);
            let right = wire_literal(first, b);
            push_two(out, negated_literal(variable), left)?;
            push_two(out, negated_literal(variable), right)?;
            push_three(
                out,
                plain_literal(variable),
                denied_literal(left),
                denied_literal(right),
            )
        }
    }
}

/// Adds that node `i`, if it is marked, has the value that it says.
fn push_marked_gate(
    out: &mut Clauses,
    marks: &[bool],
    first: u32,
    i: u32,
    node: Node,
) -> Result<(), AllocError>
    requires first { first ≤ 2 ^ 26 }
    requires place { i < 2 ^ 20 }
    requires low { IsLow i node }
    ensures { OnOk result (out.new ≡ out.old ++ within (at marks.now) (gate_clauses first) i node) }
{
    if is_marked(marks, i) {
        push_gate(out, first, i, node)
    } else {
        Ok(())
    }
}

/// Adds that each marked node has at edge `t` the value that it says.
pub(crate) fn push_edge(
    out: &mut Clauses,
    circuit: &Circuit,
    marks: &[bool],
    t: u32,
) -> Result<(), AllocError>
    requires early { t ≤ 33 }
    ensures { OnOk result (out.new ≡ out.old ++ edge_clauses circuit.now (at marks.now) t) }
{
    let first = first_variable(circuit, t);
    for i in 0..circuit.graph.size() {
        push_marked_gate(out, marks, first, i, circuit.graph.node(i))?;
    }
    Ok(())
}

/// Latch `n`, if there is one.
pub(crate) fn latch_of(circuit: &Circuit, n: u32) -> Option<Latch>
    ensures value { result ≡ slice_get circuit.now.latches.items n }
    ensures of { IfSome result (λ l. IsOf l.next circuit.now.graph) }
{
    circuit.latches.get(n as usize).copied()
}

/// Adds that the variable has the value of the literal.
fn push_same(out: &mut Clauses, variable: u32, literal: Literal) -> Result<(), AllocError>
    requires small { variable < 2 ^ 31 }
    requires other { literal.0 / 2 ≢ variable }
    ensures { OnOk result (out.new ≡ out.old ++ same_clauses variable literal) }
{
    push_two(out, negated_literal(variable), literal)?;
    push_two(out, plain_literal(variable), denied_literal(literal))
}

/// Adds that the latch's variable has the value of its next wire at the edge before.
fn push_next(
    out: &mut Clauses,
    circuit: &Circuit,
    first: u32,
    variable: u32,
    number: u32,
) -> Result<(), AllocError>
    requires first { first ≤ 2 ^ 26 }
    requires small { variable < 2 ^ 31 }
    requires later { first + length circuit.now.graph ≤ variable }
    ensures { OnOk result (out.new ≡ out.old ++ next_clauses first variable (slice_get circuit.now.latches.items number)) }
{
    match latch_of(circuit, number) {
        Some(latch) => push_same(out, variable, wire_literal(first, latch.next)),
        None => Ok(()),
    }
}

/// Adds that node `i`, if it is a latch, goes to the edge where node 0 has the variable `second`.
fn push_latch(
    out: &mut Clauses,
    circuit: &Circuit,
    first: u32,
    second: u32,
    i: u32,
    node: Node,
) -> Result<(), AllocError>
    requires first { first ≤ 2 ^ 26 }
    requires second { second ≤ 2 ^ 26 }
    requires place { i < 2 ^ 20 }
    requires later { first + length circuit.now.graph ≤ second }
    ensures { OnOk result (out.new ≡ out.old ++ latch_clauses circuit.now.latches.items first second i node) }
{
    match node {
        Node::Latch(number) => push_next(out, circuit, first, i + second, number),
        Node::Zero | Node::Input(_) | Node::And(_, _) => Ok(()),
    }
}

/// Adds that node `i`, if it is a marked latch, goes to the edge where node 0 has the variable `second`.
fn push_marked_latch(
    out: &mut Clauses,
    circuit: &Circuit,
    marks: &[bool],
    first: u32,
    second: u32,
    i: u32,
    node: Node,
) -> Result<(), AllocError>
    requires first { first ≤ 2 ^ 26 }
    requires second { second ≤ 2 ^ 26 }
    requires place { i < 2 ^ 20 }
    requires later { first + length circuit.now.graph ≤ second }
    ensures { OnOk result (out.new ≡ out.old ++ within (at marks.now) (latch_clauses circuit.now.latches.items first second) i node) }
{
    if is_marked(marks, i) {
        push_latch(out, circuit, first, second, i, node)
    } else {
        Ok(())
    }
}

/// Adds that each marked latch goes from edge `t` to the next.
pub(crate) fn push_link(
    out: &mut Clauses,
    circuit: &Circuit,
    marks: &[bool],
    t: u32,
) -> Result<(), AllocError>
    requires early { t < 33 }
    ensures { OnOk result (out.new ≡ out.old ++ link_clauses circuit.now (at marks.now) t) }
{
    let first = first_variable(circuit, t);
    let second = first_variable(circuit, t + 1);
    for i in 0..circuit.graph.size() {
        let node = circuit.graph.node(i);
        push_marked_latch(out, circuit, marks, first, second, i, node)?;
    }
    Ok(())
}

/// Adds that the latch's variable has a value that the latch may start with.
fn push_first(
    out: &mut Clauses,
    circuit: &Circuit,
    variable: u32,
    number: u32,
) -> Result<(), AllocError>
    requires small { variable < 2 ^ 31 }
    ensures { OnOk result (out.new ≡ out.old ++ starting variable (slice_get circuit.now.latches.items number)) }
{
    match latch_of(circuit, number) {
        Some(latch) => push_start(out, variable, latch.start),
        None => Ok(()),
    }
}

/// Adds that the variable has a value of this start.
fn push_start(out: &mut Clauses, variable: u32, start: Start) -> Result<(), AllocError>
    requires small { variable < 2 ^ 31 }
    ensures { OnOk result (out.new ≡ out.old ++ first_clauses variable start) }
{
    match start {
        Start::Zero => push_one(out, negated_literal(variable)),
        Start::One => push_one(out, plain_literal(variable)),
        Start::Free => Ok(()),
    }
}

/// Adds that node `i`, if it is a latch, starts as it may.
fn push_started(
    out: &mut Clauses,
    circuit: &Circuit,
    first: u32,
    i: u32,
    node: Node,
) -> Result<(), AllocError>
    requires first { first ≤ 2 ^ 26 }
    requires place { i < 2 ^ 20 }
    ensures { OnOk result (out.new ≡ out.old ++ start_clauses circuit.now.latches.items first i node) }
{
    match node {
        Node::Latch(number) => push_first(out, circuit, i + first, number),
        Node::Zero | Node::Input(_) | Node::And(_, _) => Ok(()),
    }
}

/// Adds that each latch starts as it may.
pub(crate) fn push_starts(out: &mut Clauses, circuit: &Circuit) -> Result<(), AllocError>
    ensures { OnOk result (out.new ≡ out.old ++ starts_clauses circuit.now) }
{
    let first = first_variable(circuit, 0);
    for i in 0..circuit.graph.size() {
        push_started(out, circuit, first, i, circuit.graph.node(i))?;
    }
    Ok(())
}

/// Adds the edges 0 to `last`, each linked to the next; `cones` marks the nodes of each, those of the
/// last edge first.
pub(crate) fn push_run(
    out: &mut Clauses,
    circuit: &Circuit,
    cones: &[Vec<bool>],
    last: u32,
) -> Result<(), AllocError>
    requires early { last ≤ 33 }
    requires cones { length cones.now ≡ last + 1 }
    ensures { OnOk result (out.new ≡ out.old ++ run_clauses circuit.now (marks_at (map (λ m. m.items) cones.now) last) last) }
{
    push_edge(out, circuit, cones[last as usize].as_slice(), 0)?;
    for t in 0..last {
        let marks = cones[(last - t - 1) as usize].as_slice();
        push_link(out, circuit, marks, t)?;
        push_edge(out, circuit, marks, t + 1)?;
    }
    Ok(())
}

/// Adds that edge `t` is bad.
pub(crate) fn push_bad(out: &mut Clauses, circuit: &Circuit, t: u32) -> Result<(), AllocError>
    requires early { t ≤ 33 }
    ensures { OnOk result (out.new ≡ out.old ++ (literal_at (offset circuit.now t) circuit.now.bad ∷ []) ∷ []) }
{
    push_one(out, wire_literal(first_variable(circuit, t), circuit.bad))
}

/// Adds that the first `k` edges are good.
pub(crate) fn push_good(out: &mut Clauses, circuit: &Circuit, k: u32) -> Result<(), AllocError>
    requires early { k ≤ 33 }
    ensures { OnOk result (out.new ≡ out.old ++ good_clauses circuit.now k) }
{
    for t in 0..k {
        let literal = wire_literal(first_variable(circuit, t), circuit.bad);
        push_one(out, denied_literal(literal))?;
    }
    Ok(())
}
