//! Every field of a register map at an edge, as gates.
#![tactic(auto)]

pub mod edges;
pub mod hits;

pub use edges::map_edges;
pub use hits::hit_words;
