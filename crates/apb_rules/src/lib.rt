//! The rules of AMBA APB: which bus wires a master may drive, and which event an edge carries.
#![tactic(auto)]

pub mod drive;
pub mod event;
pub mod legal;
pub mod phase;
pub mod style;
pub mod wires;
