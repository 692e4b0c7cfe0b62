//! Counters and interrupt fields.

use crate::signal::{Gate, HwExpr};
use std::vec::Vec;

/// A counter's properties (SystemRDL 2.0, clause 9, counter properties).
#[derive(Clone, Copy, Debug, PartialEq, Eq, Drop)]
pub struct Counter {
    /// Counts up where its bit is 1.
    pub incr: Option<HwExpr>,
    /// Counts down where its bit is 1.
    pub decr: Option<HwExpr>,
    /// What one count up adds.
    pub up: u32,
    /// What one count down takes away.
    pub down: u32,
    /// Stays at the greatest value where it would pass it (`incrsaturate`), else goes round.
    pub up_stops: bool,
    /// Stays at 0 where it would fall below (`decrsaturate`), else goes round.
    pub down_stops: bool,
}

/// An interrupt field's properties (SystemRDL 2.0, clause 9, interrupt properties).
#[derive(Debug, Drop)]
pub struct Intr {
    /// Holds the first event until the field is 0 again.
    pub sticky: bool,
    /// Which bits reach the register's interrupt output: `high` is true for `enable`, false for `mask`.
    pub filter: Option<Gate>,
    /// The numbers of the register's interrupt fields, at the first of them; empty at the others.
    pub members: Vec<u32>,
}

/// What a field is beside its access properties.
#[derive(Debug, Drop)]
pub enum Extra {
    Plain,
    Counter(Counter),
    Intr(Intr),
}
