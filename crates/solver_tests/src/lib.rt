//! Tests of clauses, propagation, the solver, queries, candidates and verdicts.
#![tactic(auto)]

#[cfg(test)]
mod candidates;
#[cfg(test)]
mod clauses;
#[cfg(test)]
mod kept;
#[cfg(test)]
mod queries;
#[cfg(test)]
mod solver;
#[cfg(test)]
mod verdicts;
#[cfg(test)]
mod watches;
