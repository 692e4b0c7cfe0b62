//! Laws of the sets that every edge keeps, each the contract of a function that does nothing.

ghost use Rattle.invariant_miner.specs.Laws.{SetsHoldAtTheStart, ClosedSetsJoin, GreatestIsOne, InductiveSetsAreClosed};

/// Every state that a run may start with meets every set.
pub fn sets_hold_at_the_start()
    ensures { SetsHoldAtTheStart }
{}

/// Two sets that every edge keeps are together one that every edge keeps.
pub fn closed_sets_join()
    ensures { ClosedSetsJoin }
{}

/// A list of clauses has one greatest closed set, and no other.
pub fn greatest_is_one()
    ensures { GreatestIsOne }
{}

/// Every edge keeps a set whose chains refute its keep query.
pub fn inductive_sets_are_closed()
    ensures { InductiveSetsAreClosed }
{}
