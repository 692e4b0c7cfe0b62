//! The parts of a field step: what the two sides of a field are, and what a field is.

use crate::hardware::Side;

/// What the two sides of a field are at an edge.
#[derive(Clone, Copy, Drop)]
pub struct Turn {
    /// Software is active by a write.
    pub written: bool,
    /// Software is active.
    pub software: bool,
    pub hardware: Side,
    /// Software gives the field.
    pub by_software: bool,
    /// Hardware gives the field.
    pub by_hardware: bool,
}

/// What a field is before or after an edge.
#[derive(Clone, Copy, Drop)]
pub struct FieldState {
    pub value: u32,
    pub used: bool,
    pub known: bool,
}
