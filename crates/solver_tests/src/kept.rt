//! A list of clauses, thinned to those that every edge keeps.

ghost use Rattle.std.specs.Prelude.{◌≡◌, ◌+◌, ◌^◌, ◌<◌, ◌≤◌, length, IfOk, OnOk};
ghost use Rattle.unroll_cnf.specs.Latches.{weight};
ghost use Rattle.invariant_miner.specs.Thinned.{IsAskable};

use gate_graph::{Circuit, Graph, Latch, Start, Wire};
use invariant_miner::thin::thin;
use invariant_miner::thinned::Thinned;
use std::alloc::{AllocError, Global};
use std::test::Fail;
use std::vec::Vec;
use unroll_cnf::{LatchClause, LatchLiteral};

/// Latches 1 and 2 take the input at each edge with latch 0; the circuit is bad where latch 1 is 1.
fn two_equal(alloc: Global) -> Result<Circuit, AllocError>
    ensures { IfOk result (λ c. length c.latches.items ≡ 3) }
{
    let mut graph = Graph::new(alloc)?;
    let live = graph.latch()?;
    let left = graph.latch()?;
    let _right = graph.latch()?;
    let input = graph.input()?;
    let next = graph.and(live, input)?;
    let mut latches = Vec::new(alloc);
    latches.push(Latch {
        start: Start::Zero,
        next: Wire(1),
    })?;
    latches.push(Latch {
        start: Start::Zero,
        next,
    })?;
    latches.push(Latch {
        start: Start::Zero,
        next,
    })?;
    let _size = graph.size();
    Ok(Circuit {
        graph,
        latches,
        inputs: 1,
        bad: left,
        address_first: 0,
        address_bits: 0,
        addresses: Vec::new(alloc),
        control: Vec::new(alloc),
    })
}

/// A latch literal.
fn literal(latch: u32, negated: bool) -> LatchLiteral
    ensures { result.latch ≡ latch }
{
    LatchLiteral { latch, negated }
}

/// The clause that latch 1 is 0, then the two clauses that latches 1 and 2 are equal.
fn candidates(alloc: Global, circuit: &Circuit) -> Result<Vec<LatchClause>, AllocError>
    requires latches { length circuit.now.latches.items ≡ 3 }
    ensures { IfOk result (λ v. IsAskable circuit.now v.items) }
{
    let first = LatchClause::one(alloc, literal(1, true))?;
    let second = LatchClause::two(alloc, literal(1, false), literal(2, true))?;
    let third = LatchClause::two(alloc, literal(1, true), literal(2, false))?;
    let mut list = Vec::new(alloc);
    list.push(first)?;
    list.push(second)?;
    list.push(third)?;
    Ok(list)
}

/// The relation is kept; that latch 1 is 0 isn't, since the input may be 1.
#[test]
fn the_relation_is_kept(rt: HostRuntime) -> Result<(), Fail> {
    let circuit = two_equal(rt.alloc())?;
    let list = candidates(rt.alloc(), &circuit)?;
    let Thinned::Kept(set) = thin(rt.alloc(), &circuit, list, 1000)? else {
        assert!(rt; false);
        return Ok(());
    };
    assert_eq!(rt; set.clauses.len(), 2);
    let met = set
        .clauses
        .iter()
        .all(|clause| clause.meets(&[true, true, true]));
    assert!(rt; met);
    let not_met = set
        .clauses
        .iter()
        .all(|clause| clause.meets(&[true, false, true]));
    assert!(rt; !not_met);
    assert!(rt; !set.chains.is_empty());
    Ok(())
}
