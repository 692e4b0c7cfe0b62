//! Laws of clauses, chains, propagation and new clauses, each the contract of a function that does
//! nothing.

ghost use Rattle.lemma_checker.specs.Laws.{ResolventFollows, ChainFollows, AddedFollow, RefutedHasNoSolution, PropagationGrows, LeastDoesNotConflict, NewIsNotGiven, NewContainsNone, NewHasNoVariableTwice, ResolventIsNotNew, ChainGoesBySets, AddedGoBySets, EmptyGoesBySets};

/// A resolvent of two clauses follows from them.
pub fn resolvent_follows()
    ensures { ResolventFollows }
{}

/// What a chain that resolves gives follows from the clauses.
pub fn chain_follows()
    ensures { ChainFollows }
{}

/// Each clause that chains add follows from the clauses that they start with.
pub fn added_follow()
    ensures { AddedFollow }
{}

/// Clauses in which chains reach the empty clause have no solution.
pub fn refuted_has_no_solution()
    ensures { RefutedHasNoSolution }
{}

/// Unit propagation from more literals over more clauses gives more.
pub fn propagation_grows()
    ensures { PropagationGrows }
{}

/// Where some closed set has no conflict, the least has none.
pub fn least_does_not_conflict()
    ensures { LeastDoesNotConflict }
{}

/// Unit propagation from the opposites of a new clause's other literals has no conflict and doesn't
/// give its literal.
pub fn new_is_not_given()
    ensures { NewIsNotGiven }
{}

/// A new clause contains no clause of the list.
pub fn new_contains_none()
    ensures { NewContainsNone }
{}

/// A new clause has no variable twice.
pub fn new_has_no_variable_twice()
    ensures { NewHasNoVariableTwice }
{}

/// A resolvent of two clauses of the list that share no literal is never new to it.
pub fn resolvent_is_not_new()
    ensures { ResolventIsNotNew }
{}

/// What chains give, and whether a clause is empty, depends on the clauses as sets of literals alone.
pub fn chains_go_by_sets()
    ensures result { ChainGoesBySets }
    ensures added { AddedGoBySets }
    ensures empty { EmptyGoesBySets }
{}
