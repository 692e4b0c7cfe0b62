//! The register machine of a map: what its fields answer, show and become at an edge.
#![tactic(auto)]

mod answer;
mod bits;
mod expr;
mod hardware;
pub mod laws;
pub mod machine;
mod output;
mod software;
mod state;
mod step;
mod turn;
