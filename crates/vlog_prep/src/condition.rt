//! Conditions (IEEE 1364-2005, 19.4).

use bit_base::place::Place;

/// Which part of a condition is read.
#[derive(Clone, Copy, Debug, PartialEq, Eq, Drop)]
pub enum Choice {
    /// None so far.
    Seeking,
    /// This one.
    Reading,
    /// One before this one.
    Done,
    /// None, since the condition stands in a part that is left out.
    Skipped,
}

/// An open condition: the place of its `ifdef` or `ifndef`, and whether its `else` has come.
#[derive(Clone, Copy, Debug, PartialEq, Eq, Drop)]
pub struct Condition {
    pub place: Place,
    pub choice: Choice,
    pub last: bool,
}
