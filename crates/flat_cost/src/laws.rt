//! The law of what a cost counts, as a function that does nothing: its contract is the law.

ghost use Rattle.flat_cost.specs.Loads.{LoadsDrive};

/// The bits that the cost of a statement counts are those that the statement drives.
pub fn loads_drive()
    ensures { LoadsDrive }
{}
