//! The step of one field of a register map, as gates.
#![tactic(auto)]

pub mod effects;
pub mod known;
pub mod laws;
pub mod next;
pub mod sides;
pub mod software;
pub mod step;

pub use effects::{read_word, write_word};
pub use next::next_word;
pub use sides::{by_hardware_wire, by_software_wire, next_used_wire, software_wire, written_wire};
pub use software::software_word;
pub use step::{SeenGates, SideGates, StepGates, field_step};
