//! The kinds of queries.

/// A query about runs from the start, or from a state that meets a set.
#[derive(Clone, Copy, Debug, PartialEq, Eq, Drop)]
pub enum Query {
    Base,
    Step,
}
