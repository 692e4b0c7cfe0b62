//! Unit propagation by watched literals.

ghost use Rattle.std.specs.Prelude.{◌≡◌, ◌≢◌, ℕ, ◌+◌, ◌-◌, ◌*◌, ◌^◌, ◌<◌, ◌≤◌, Bool, true, false, List, [], ◌∷◌, ◌++◌, length, take, count_by, not, Option, Some, None, Ok, OnOk, OnErr, IfOk, IfSome, IfNone, IsNone, ◌↔◌, slice_get, slice_set};
ghost use Rattle.lemma_checker.specs.Clauses.{at, set_of, has, opposite};
ghost use Rattle.watch_lists.specs.Watching.{copy, lists_of, list_at, literal_at, AreTwo, IsTable};
ghost use Rattle.watch_lists.specs.Visits.{AreWatching, IsGrown, RanIs, AreBrief, MetIs};

use crate::scan::{Status, status_of};
use crate::trail::Trail;
use crate::visit::visit_list;
use crate::watch::Watch;
use lemma_checker::literal::Literal;
use std::alloc::AllocError;
use std::vec::Vec;

/// The clauses' literals, each clause's two watched ones first, one clause after another; where each
/// starts, and where the last ends; by literal number the clauses that are watched at it; the
/// clauses of fewer than two literals, and how many of these were looked at. Clauses have their
/// numbers less 1 here.
#[derive(Debug, Drop)]
pub struct Watches {
    pub(crate) literals: Vec<Literal>,
    pub(crate) starts: Vec<usize>,
    pub(crate) lists: Vec<Vec<Watch>>,
    pub(crate) short: Vec<u32>,
    pub(crate) looked: usize,
}

/// The copy of the clause of this number less 1.
fn copy_at<'a>(literals: &'a [Literal], starts: &[usize], clause: u32) -> &'a [Literal]
    requires table { IsTable literals.now starts.now }
    requires below { clause + 1 < length starts.now }
    ensures { result.now ≡ copy literals.now starts.now clause }
{
    let place = clause as usize;
    &literals[starts[place]..starts[place + 1]]
}

/// Looks at short clauses, each of one literal or none: the number of a clause, if one is false.
fn visit_short(
    literals: &[Literal],
    starts: &[usize],
    lists: &[Vec<Watch>],
    short: &[u32],
    trail: &mut Trail,
) -> Result<Option<u32>, AllocError>
    requires watching { AreWatching literals.now starts.now (lists_of lists.now) trail.old }
    requires brief { AreBrief literals.now starts.now short.now }
    ensures watching { OnOk result (AreWatching literals.now starts.now (lists_of lists.now) trail.new) }
    ensures grown { OnOk result (IsGrown literals.now starts.now literals.now trail.old trail.new) }
    ensures done { trail.new.done ≡ trail.old.done }
    ensures met { IfOk result (λ o. MetIs o literals.now starts.now short.now trail.new) }
{
    for clause in short {
        let copy = copy_at(literals, starts, *clause);
        match status_of(copy, trail.values.as_slice()) {
            Status::Quiet => {}
            Status::False => return Ok(Some(*clause + 1)),
            Status::Unit(literal) => trail.push(literal, *clause + 1)?,
        }
    }
    Ok(None)
}

/// Propagates the literals of the trail that aren't propagated yet: the number of a clause, if one
/// is false.
fn visit_all(
    literals: &mut [Literal],
    starts: &[usize],
    lists: &mut [Vec<Watch>],
    trail: &mut Trail,
) -> Result<Option<u32>, AllocError>
    requires watching { AreWatching literals.old starts.now (lists_of lists.old) trail.old }
    ensures grown { OnOk result (IsGrown literals.old starts.now literals.new trail.old trail.new) }
    ensures ran { IfOk result (λ o. RanIs o literals.old starts.now literals.new (lists_of lists.new) trail.new) }
{
    while trail.done < trail.literals.len() {
        let denied = trail.literals[trail.done].opposite();
        if let Some(number) = visit_list(literals, starts, lists, trail, denied)? {
            return Ok(Some(number));
        }
        trail.done += 1;
    }
    Ok(None)
}

impl Watches {
    ghost use Rattle.lemma_checker.specs.Propagation.{IsInEachClosed, IsPropagation, DoesNotConflict};
    ghost use Rattle.watch_lists.specs.Scans.{IsTrailOf, ToldIs, IsConflictNumber};
    ghost use Rattle.watch_lists.specs.Watching.{AreForced};
    ghost use Rattle.watch_lists.specs.Watches.{Holds, Fits};

    /// Looks at the short clauses, and then at those of the literals that are not propagated yet.
    fn run(&mut self, trail: &mut Trail) -> Result<Option<u32>, AllocError>
        requires fits { Fits self.old trail.old }
        ensures told { IfOk result (λ o. (vars : ℕ) (clauses : List (List Literal)) → Holds self.old vars clauses → ToldIs o clauses (set_of trail.new.literals.items)) }
        ensures only_appends { OnOk result ((vars : ℕ) (clauses : List (List Literal)) → Holds self.old vars clauses → AreForced clauses trail.old.literals.items trail.old.reasons.items trail.new.literals.items trail.new.reasons.items) }
        ensures trail { OnOk result ((vars : ℕ) (clauses : List (List Literal)) → Holds self.old vars clauses → IsTrailOf clauses trail.old → IsTrailOf clauses trail.new) }
        ensures least { OnOk result ((vars : ℕ) (clauses : List (List Literal)) → Holds self.old vars clauses → IsInEachClosed clauses (set_of trail.old.literals.items) (set_of trail.new.literals.items)) }
        ensures starts { OnOk result (trail.new.starts.items ≡ trail.old.starts.items) }
        ensures done { result ≡ Ok None → trail.new.done ≡ length trail.new.literals.items }
        ensures size { OnOk result (length trail.new.values.items ≡ length trail.old.values.items) }
        ensures fewer { OnOk result (count_by not trail.new.values.items ≤ count_by not trail.old.values.items) }
        ensures stays_fitting { OnOk result (Fits self.new trail.new) }
        ensures same_clauses { OnOk result ((vars : ℕ) (clauses : List (List Literal)) → Holds self.old vars clauses → Holds self.new vars clauses) }
    {
        let from = if trail.done == 0 { 0 } else { self.looked };
        if let Some(number) = visit_short(
            self.literals.as_slice(),
            self.starts.as_slice(),
            self.lists.as_slice(),
            &self.short[from..],
            trail,
        )? {
            return Ok(Some(number));
        }
        self.looked = self.short.len();
        let told = visit_all(
            self.literals.as_mut_slice(),
            self.starts.as_slice(),
            self.lists.as_mut_slice(),
            trail,
        )?;
        Ok(told)
    }

    /// Adds what unit propagation gives: the number of a clause, if all its literals are false, which is
    /// so exactly where unit propagation conflicts.
    pub fn propagate(&mut self, trail: &mut Trail) -> Result<Option<u32>, AllocError>
        requires fits { Fits self.old trail.old }
        ensures closed { IfOk result (λ o. (vars : ℕ) (clauses : List (List Literal)) → Holds self.old vars clauses → (IsNone o ↔ DoesNotConflict clauses (set_of trail.old.literals.items))) }
        ensures given { IfOk result (λ o. IfNone o ((vars : ℕ) (clauses : List (List Literal)) → Holds self.old vars clauses → IsPropagation clauses (set_of trail.old.literals.items) (set_of trail.new.literals.items))) }
        ensures conflict { IfOk result (λ o. IfSome o (λ number. (vars : ℕ) (clauses : List (List Literal)) → Holds self.old vars clauses → IsConflictNumber clauses number (set_of trail.new.literals.items))) }
        ensures told { IfOk result (λ o. (vars : ℕ) (clauses : List (List Literal)) → Holds self.old vars clauses → ToldIs o clauses (set_of trail.new.literals.items)) }
        ensures only_appends { OnOk result ((vars : ℕ) (clauses : List (List Literal)) → Holds self.old vars clauses → AreForced clauses trail.old.literals.items trail.old.reasons.items trail.new.literals.items trail.new.reasons.items) }
        ensures trail { OnOk result ((vars : ℕ) (clauses : List (List Literal)) → Holds self.old vars clauses → IsTrailOf clauses trail.old → IsTrailOf clauses trail.new) }
        ensures least { OnOk result ((vars : ℕ) (clauses : List (List Literal)) → Holds self.old vars clauses → IsInEachClosed clauses (set_of trail.old.literals.items) (set_of trail.new.literals.items)) }
        ensures starts { OnOk result (trail.new.starts.items ≡ trail.old.starts.items) }
        ensures done { result ≡ Ok None → trail.new.done ≡ length trail.new.literals.items }
        ensures size { OnOk result (length trail.new.values.items ≡ length trail.old.values.items) }
        ensures fewer { OnOk result (count_by not trail.new.values.items ≤ count_by not trail.old.values.items) }
        ensures stays_fitting { OnOk result (Fits self.new trail.new) }
        ensures same_clauses { OnOk result ((vars : ℕ) (clauses : List (List Literal)) → Holds self.old vars clauses → Holds self.new vars clauses) }
    {
        let told = self.run(trail)?;
        Ok(told)
    }
}
