//! Fields of a register map: what software and hardware may do to them, by the field access
//! policies, and the map itself with all that holds of a valid one.
#![tactic(auto)]

pub mod effect;
pub mod extra;
pub mod field;
pub mod map;
pub mod policy;
pub mod signal;
pub mod table;
