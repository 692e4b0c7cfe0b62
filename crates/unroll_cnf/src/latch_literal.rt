//! Literals over latches.

/// A latch by its number, counted from 0, or its negation.
#[derive(Clone, Copy, Debug, PartialEq, Eq, Drop)]
pub struct LatchLiteral {
    pub latch: u32,
    pub negated: bool,
}
