//! Clauses that every reachable state of a circuit may meet, taken from sample states, and the sets of
//! them that every edge keeps.
#![tactic(auto)]

pub mod asked;
pub mod candidates;
mod columns;
mod draws;
mod lanes;
pub mod laws;
mod rows;
mod samples;
pub mod set;
mod sift;
pub mod thin;
pub mod thinned;

pub use set::InductiveSet;
pub use thin::MOST_LEMMAS;
pub use thinned::Thinned;
