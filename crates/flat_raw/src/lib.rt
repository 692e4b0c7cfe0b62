//! Flat designs as elaboration makes them, before their checks: nets and items that fit each other.
#![tactic(auto)]

pub mod assigned;
pub mod marks;
pub mod net;
pub mod path;
pub mod raw;
