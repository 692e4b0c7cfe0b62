//! Trails of literals, and unit propagation over clauses.
#![tactic(auto)]

pub mod build;
pub mod laws;
pub mod look;
pub mod scan;
pub mod trail;
pub mod visit;
pub mod watch;
pub mod watches;
