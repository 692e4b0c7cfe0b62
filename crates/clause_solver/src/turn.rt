//! What a turn of the solver ends with.

/// What a turn ends with.
#[derive(Clone, Copy, Debug, PartialEq, Eq, Drop)]
pub enum Turn {
    /// Each variable has a value, and no clause is false.
    Assigned,
    /// A lemma was added.
    Learned,
    /// The empty clause was added.
    Refuted,
}
