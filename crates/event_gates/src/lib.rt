//! A bus event as gates, the words that it is at, and a field's places in it.
#![tactic(auto)]

pub mod hits;
pub mod laws;
pub mod places;

pub use hits::{EventGates, HitGates, hit_gates, payload_gates, write_wire};
pub use places::{enabled_word, payload_word};
