//! Every field of a register map as others see it, as gates.
#![tactic(auto)]

pub mod laws;
pub mod views;

pub use views::map_views;
