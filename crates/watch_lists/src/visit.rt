//! The way along the list of a literal that became false.

ghost use Rattle.std.specs.Prelude.{◌≡◌, ◌≢◌, ℕ, ◌+◌, ◌-◌, ◌^◌, ◌<◌, ◌≤◌, Bool, true, false, List, [], ◌∷◌, ◌++◌, length, take, Option, Some, None, OnOk, IfOk, IfSome, IfNone, slice_get, slice_set};
ghost use Rattle.std.specs.List.{swap_remove};
ghost use Rattle.lemma_checker.specs.Clauses.{at, set_of, has, opposite};
ghost use Rattle.watch_lists.specs.Watching.{copy, lists_of, list_at, literal_at, AreTwo, IsTable, IsEntry};
ghost use Rattle.watch_lists.specs.declared.watch.Watch.{Watch};
ghost use Rattle.watch_lists.specs.Looks.{FoundIs};
ghost use Rattle.watch_lists.specs.Visits.{IsPassing, IsGrown, StepIs, PassedIs};

use crate::look::{Found, look_at};
use crate::trail::Trail;
use crate::watch::Watch;
use lemma_checker::literal::Literal;
use lemma_checker::resolver::is_marked;
use std::alloc::AllocError;
use std::vec::Vec;

/// What comes after a look at a watch of a list.
#[derive(Clone, Copy, Debug, Drop)]
pub enum Step {
    /// The watch at this place of the list.
    At(usize),
    /// The clause of this number is false.
    Conflict(u32),
}

/// Takes the watch at a place of a list away, and puts another one at the end of another list.
fn move_watch(
    lists: &mut [Vec<Watch>],
    from: Literal,
    i: usize,
    to: Literal,
    watch: Watch,
) -> Result<(), AllocError>
    requires from { from.0 < length lists.old }
    requires to { to.0 < length lists.old }
    requires different { to.0 ≢ from.0 }
    requires within { i < length (list_at (lists_of lists.old) from.0) }
    ensures { OnOk result (lists_of lists.new ≡ slice_set (slice_set (lists_of lists.old) to.0 (list_at (lists_of lists.old) to.0 ++ watch ∷ [])) from.0 (swap_remove (list_at (lists_of lists.old) from.0) i watch)) }
{
    lists[to.0 as usize].push(watch)?;
    let _ = lists[from.0 as usize].swap_remove(i);
    Ok(())
}

/// The watch at a place of a list.
fn watch_at(lists: &[Vec<Watch>], list: usize, i: usize) -> Watch
    requires list { list < length lists.now }
    requires within { i < length (list_at (lists_of lists.now) list) }
    ensures read { slice_get (list_at (lists_of lists.now) list) i ≡ Some result }
    ensures small { i + 1 < 2 ^ 64 }
{
    lists[list][i]
}

/// Puts a watch in the place of another one.
fn set_watch(lists: &mut [Vec<Watch>], list: usize, i: usize, watch: Watch)
    requires list { list < length lists.old }
    requires within { i < length (list_at (lists_of lists.old) list) }
    ensures { lists_of lists.new ≡ slice_set (lists_of lists.old) list (slice_set (list_at (lists_of lists.old) list) i watch) }
{
    lists[list][i] = watch;
}

/// Looks at the copy of the watch's clause, of which a literal became false.
fn look_at_copy(
    literals: &mut [Literal],
    starts: &[usize],
    watch: Watch,
    denied: Literal,
    values: &[bool],
) -> Found
    requires table { IsTable literals.old starts.now }
    requires entry { IsEntry literals.old starts.now watch }
    requires two { AreTwo (copy literals.old starts.now watch.clause) }
    requires denied { at values.now (opposite denied.0) ≡ true }
    ensures found { FoundIs result denied.0 (copy literals.old starts.now watch.clause) (copy literals.new starts.now watch.clause) (at values.now) }
    ensures others { (j : ℕ) → j + 1 < length starts.now → j ≢ watch.clause → copy literals.new starts.now j ≡ copy literals.old starts.now j }
{
    let copy = &mut literals[watch.start as usize..watch.end as usize];
    look_at(copy, denied, values)
}

/// The watches of a list.
fn watches_of(lists: &[Vec<Watch>], list: usize) -> &[Watch]
    requires list { list < length lists.now }
    ensures { result.now ≡ list_at (lists_of lists.now) list }
{
    lists[list].as_slice()
}

/// The first place from this one on whose watch's literal isn't true; the end, if there is none.
fn next_open(watches: &[Watch], values: &[bool], start: usize) -> usize
    requires within { start ≤ length watches.now }
    ensures past { start ≤ result }
    ensures within { result ≤ length watches.now }
    ensures blocked { (j : ℕ) (w : Watch) → start ≤ j → j < result → slice_get watches.now j ≡ Some w → at values.now w.blocker.0 ≡ true }
    ensures open { (w : Watch) → slice_get watches.now result ≡ Some w → at values.now w.blocker.0 ≡ false }
{
    let mut i = start;
    while i < watches.len() && is_marked(values, watches[i].blocker.0 as usize) {
        i += 1;
    }
    i
}

/// Looks at the watch at place i of the literal's list, where the literal became false.
fn visit_watch(
    literals: &mut [Literal],
    starts: &[usize],
    lists: &mut [Vec<Watch>],
    trail: &mut Trail,
    denied: Literal,
    i: usize,
) -> Result<Step, AllocError>
    requires passing { IsPassing literals.old starts.now (lists_of lists.old) trail.old denied.0 i }
    requires within { i < length (list_at (lists_of lists.old) denied.0) }
    requires list { denied.0 < length lists.old }
    ensures grown { OnOk result (IsGrown literals.old starts.now literals.new trail.old trail.new) }
    ensures done { trail.new.done ≡ trail.old.done }
    ensures step { IfOk result (λ s. StepIs s (list_at (lists_of lists.old) denied.0) i literals.old starts.now literals.new (lists_of lists.new) trail.new denied.0) }
{
    let list = denied.0 as usize;
    let watch = watch_at(lists, list, i);
    if is_marked(trail.values.as_slice(), watch.blocker.0 as usize) {
        let next = next_open(watches_of(lists, list), trail.values.as_slice(), i + 1);
        return Ok(Step::At(next));
    }
    match look_at_copy(literals, starts, watch, denied, trail.values.as_slice()) {
        Found::Away => Ok(Step::At(i + 1)),
        Found::Met(blocker) => {
            set_watch(lists, list, i, Watch { blocker, ..watch });
            Ok(Step::At(i + 1))
        }
        Found::Moved(to, blocker) => {
            move_watch(lists, denied, i, to, Watch { blocker, ..watch })?;
            Ok(Step::At(i))
        }
        Found::Forced(literal) => {
            trail.push(literal, watch.clause + 1)?;
            Ok(Step::At(i + 1))
        }
        Found::False => Ok(Step::Conflict(watch.clause + 1)),
    }
}

/// How many watches a list has.
fn list_len(lists: &[Vec<Watch>], list: usize) -> usize
    requires list { list < length lists.now }
    ensures { result ≡ length (list_at (lists_of lists.now) list) }
{
    lists[list].len()
}

/// Looks at all watches of the literal's list, where the literal became false: the number of a
/// clause, if one is false.
pub fn visit_list(
    literals: &mut [Literal],
    starts: &[usize],
    lists: &mut [Vec<Watch>],
    trail: &mut Trail,
    denied: Literal,
) -> Result<Option<u32>, AllocError>
    requires passing { IsPassing literals.old starts.now (lists_of lists.old) trail.old denied.0 0 }
    requires list { denied.0 < length lists.old }
    ensures grown { OnOk result (IsGrown literals.old starts.now literals.new trail.old trail.new) }
    ensures done { trail.new.done ≡ trail.old.done }
    ensures passed { IfOk result (λ o. PassedIs o literals.old starts.now literals.new (lists_of lists.new) trail.new denied.0) }
{
    let list = denied.0 as usize;
    let mut i = 0;
    while i < list_len(lists, list) {
        match visit_watch(literals, starts, lists, trail, denied, i)? {
            Step::At(next) => i = next,
            Step::Conflict(number) => return Ok(Some(number)),
        }
    }
    Ok(None)
}
