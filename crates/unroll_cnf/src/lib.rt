//! Queries about the runs of a circuit, as formulas.
#![tactic(auto)]

mod cones;
mod edges;
pub mod latch_clause;
pub mod latch_literal;
pub mod laws;
pub mod limits;
mod literals;
mod model;
mod places;
mod queries;
pub mod run;
mod sets;

pub use latch_clause::LatchClause;
pub use latch_literal::LatchLiteral;
pub use model::run_of;
pub use queries::{base_query, keep_query, step_query};
pub use run::CircuitRun;
