//! The register machine of a map, as gates.
#![tactic(auto)]

pub mod build;
pub mod outputs;

pub use build::{MachineGates, build_machine};
pub use event_gates::EventGates;
pub use outputs::all_outputs;
