//! Laws of the queries, each the contract of a function that does nothing.

ghost use Rattle.unroll_cnf.specs.Laws.{BaseMeans, StepMeans, KeepMeans, BaseRunsAreStoodFor, StepRunsAreStoodFor, KeepRunsAreStoodFor};

/// The base query of `k` edges is satisfied exactly by the assignments that stand for a run of `k`
/// edges from the start that is bad at its last edge.
pub fn base_query_means()
    ensures { BaseMeans }
{}

/// The step query of `k` edges is satisfied exactly by the assignments that stand for a run of `k + 1`
/// edges from a state that meets the set, good at the first `k` and bad at the last.
pub fn step_query_means()
    ensures { StepMeans }
{}

/// The keep query is satisfied exactly by the assignments that stand for an edge from a state that
/// meets the set to one that doesn't.
pub fn keep_query_means()
    ensures { KeepMeans }
{}

/// Each run of the base query is stood for by an assignment that satisfies it.
pub fn base_runs_are_stood_for()
    ensures { BaseRunsAreStoodFor }
{}

/// Each run of the step query is stood for by an assignment that satisfies it.
pub fn step_runs_are_stood_for()
    ensures { StepRunsAreStoodFor }
{}

/// Each edge that the keep query asks for is stood for by an assignment that satisfies it.
pub fn keep_runs_are_stood_for()
    ensures { KeepRunsAreStoodFor }
{}
