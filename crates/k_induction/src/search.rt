//! The search over base and step queries.

ghost use Rattle.std.specs.Prelude.{◌≡◌, ◌+◌, ◌^◌, ◌<◌, ◌≤◌, length, map, IfOk};
ghost use Rattle.invariant_miner.specs.Thinned.{IsAskable};
ghost use Rattle.k_induction.specs.Verdicts.{FoundIs};

use crate::answer::Answer;
use crate::asking::{ask_base, ask_step};
use crate::found::Found;
use crate::query::Query;
use gate_graph::Circuit;
use invariant_miner::MOST_LEMMAS;
use std::alloc::{AllocError, Global};
use std::vec::Vec;
use unroll_cnf::LatchClause;
use unroll_cnf::limits::MOST_EDGES;

/// Asks base and step queries of 1 edge, then 2, up to the bound, until one of them settles it.
pub(crate) fn search(
    alloc: Global,
    circuit: &Circuit,
    set: &[LatchClause],
    bound: u32,
    budget: u32,
) -> Result<Found, AllocError>
    requires some { 1 ≤ bound }
    requires few { bound ≤ MOST_EDGES }
    requires budget { 1 ≤ budget }
    requires small_budget { budget ≤ MOST_LEMMAS }
    requires askable { IsAskable circuit.now set.now }
    ensures { IfOk result (FoundIs circuit.now set.now bound budget) }
{
    let mut bases = Vec::new(alloc);
    for i in 0..bound {
        let k = i + 1;
        match ask_base(alloc, circuit, k, budget)? {
            Answer::Refuted(chains) => bases.push(chains)?,
            Answer::Holds(bad) => return Ok(Found::Bad(bad)),
            Answer::Spent(lemmas) => {
                return Ok(Found::BudgetSpent {
                    query: Query::Base,
                    k,
                    lemmas,
                });
            }
        }
        match ask_step(alloc, circuit, set, k, budget)? {
            Answer::Refuted(step) => return Ok(Found::Proof { k, bases, step }),
            Answer::Holds(loose) => {
                if k == bound {
                    return Ok(Found::Loose(loose));
                }
            }
            Answer::Spent(lemmas) => {
                if k == bound {
                    return Ok(Found::BudgetSpent {
                        query: Query::Step,
                        k,
                        lemmas,
                    });
                }
            }
        }
    }
    unreachable!()
}
