//! What fields' properties read of other fields and of hardware inputs, as wires.
#![tactic(auto)]

pub mod expr;
pub mod gate;
pub mod laws;
pub mod view;

pub use expr::{expr_word, given_wire};
pub use gate::{open_wire, open_word};
pub use view::{FieldView, view_gates};
