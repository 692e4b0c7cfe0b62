//! Making watches of clauses.

ghost use Rattle.std.specs.Prelude.{◌≡◌, ◌≢◌, ℕ, ◌+◌, ◌-◌, ◌*◌, ◌^◌, ◌<◌, ◌≤◌, true, List, [], ◌∷◌, ◌++◌, length, take, replicate, OnOk, OnErr, IfOk};
ghost use Rattle.lemma_checker.specs.Clauses.{has, AreDistinct};
ghost use Rattle.watch_lists.specs.Watches.{ArePair};
ghost use Rattle.watch_lists.specs.Watching.{lists_of};
ghost use Rattle.watch_lists.specs.Building.{with_first, with_both};

use crate::watch::Watch;
use crate::watches::Watches;
use lemma_checker::formula::Formula;
use lemma_checker::literal::Literal;
use std::alloc::{AllocError, Global};
use std::vec::Vec;

/// Adds the literals of a clause, these two of it first.
fn copy_clause(
    literals: &mut Vec<Literal>,
    clause: &[Literal],
    first: Literal,
    second: Literal,
) -> Result<(), AllocError>
    ensures literals { OnOk result (literals.new.items ≡ literals.old.items ++ with_first clause.now first second) }
    ensures err { OnErr result (take (length literals.old.items) literals.new.items ≡ literals.old.items) }
{
    literals.push(first)?;
    literals.push(second)?;
    for literal in clause {
        if literal.0 != first.0 && literal.0 != second.0 {
            literals.push(*literal)?;
        }
    }
    Ok(())
}

/// Adds the literals of a clause, these two of it first, and where they end; or neither.
fn add_copy(
    literals: &mut Vec<Literal>,
    starts: &mut Vec<usize>,
    clause: &[Literal],
    first: Literal,
    second: Literal,
) -> Result<(), AllocError>
    ensures literals { OnOk result (literals.new.items ≡ literals.old.items ++ with_first clause.now first second) }
    ensures starts { OnOk result (starts.new.items ≡ starts.old.items ++ length literals.new.items ∷ []) }
    ensures err { OnErr result ((literals.new.items ≡ literals.old.items) × (starts.new.items ≡ starts.old.items)) }
{
    let before = literals.len();
    if copy_clause(literals, clause, first, second).is_err() {
        literals.truncate(before);
        return Err(AllocError);
    }
    match starts.push(literals.len()) {
        Ok(()) => Ok(()),
        Err(_) => {
            literals.truncate(before);
            Err(AllocError)
        }
    }
}

/// Lists a clause, whose copy starts and ends at these places, at two literals, or at neither.
fn list_both(
    lists: &mut [Vec<Watch>],
    clause: u32,
    start: usize,
    end: usize,
    first: Literal,
    second: Literal,
) -> Result<(), AllocError>
    requires first { first.0 < length lists.old }
    requires second { second.0 < length lists.old }
    requires different { first.0 ≢ second.0 }
    ensures lists { OnOk result (lists_of lists.new ≡ with_both (lists_of lists.old) first.0 second.0 (record { clause = clause; blocker = second; start = start; end = end }) (record { clause = clause; blocker = first; start = start; end = end })) }
    ensures err { OnErr result (lists_of lists.new ≡ lists_of lists.old) }
{
    if start > 0xffff_ffff || end > 0xffff_ffff {
        return Err(AllocError);
    }
    let watch = Watch {
        clause,
        blocker: second,
        start: start as u32,
        end: end as u32,
    };
    lists[first.0 as usize].push(watch)?;
    let other = Watch {
        blocker: first,
        ..watch
    };
    match lists[second.0 as usize].push(other) {
        Ok(()) => Ok(()),
        Err(_) => {
            let _ = lists[first.0 as usize].pop();
            Err(AllocError)
        }
    }
}

/// The first two literals of a clause; literals of no variable, if it has fewer.
fn first_two(clause: &[Literal]) -> (Literal, Literal)
    ensures { 2 ≤ length clause.now → AreDistinct clause.now → ArePair clause.now result.0.0 result.1.0 }
{
    match clause {
        [first, second, ..] => (*first, *second),
        _ => (Literal(0), Literal(0)),
    }
}

/// As many empty lists.
fn empty_lists(alloc: Global, count: usize) -> Result<Vec<Vec<Watch>>, AllocError>
    ensures { IfOk result (λ v. lists_of v.items ≡ replicate count []) }
{
    let mut lists = Vec::new(alloc);
    'lists: while lists.len() < count {
        lists.push(Vec::new(alloc))?;
    }
    Ok(lists)
}

/// Adds a clause of fewer than two literals, of this number less 1, or nothing.
fn add_short(
    literals: &mut Vec<Literal>,
    starts: &mut Vec<usize>,
    short: &mut Vec<u32>,
    clause: &[Literal],
    number: u32,
) -> Result<(), AllocError>
    ensures literals { OnOk result (literals.new.items ≡ literals.old.items ++ clause.now) }
    ensures starts { OnOk result (starts.new.items ≡ starts.old.items ++ length literals.new.items ∷ []) }
    ensures short { OnOk result (short.new.items ≡ short.old.items ++ number ∷ []) }
    ensures err { OnErr result ((literals.new.items ≡ literals.old.items) × ((starts.new.items ≡ starts.old.items) × (short.new.items ≡ short.old.items))) }
{
    let before = literals.len();
    literals.extend_from_slice(clause)?;
    if short.push(number).is_err() {
        literals.truncate(before);
        return Err(AllocError);
    }
    match starts.push(literals.len()) {
        Ok(()) => Ok(()),
        Err(_) => {
            literals.truncate(before);
            let _ = short.pop();
            Err(AllocError)
        }
    }
}

/// Adds a clause of two literals or more, of this number less 1, that is watched at these two; or
/// nothing.
fn add_long(
    literals: &mut Vec<Literal>,
    starts: &mut Vec<usize>,
    lists: &mut [Vec<Watch>],
    clause: &[Literal],
    number: u32,
    first: Literal,
    second: Literal,
) -> Result<(), AllocError>
    requires first { first.0 < length lists.old }
    requires second { second.0 < length lists.old }
    requires different { first.0 ≢ second.0 }
    ensures literals { OnOk result (literals.new.items ≡ literals.old.items ++ with_first clause.now first second) }
    ensures starts { OnOk result (starts.new.items ≡ starts.old.items ++ length literals.new.items ∷ []) }
    ensures lists { OnOk result (lists_of lists.new ≡ with_both (lists_of lists.old) first.0 second.0 (record { clause = number; blocker = second; start = length literals.old.items; end = length literals.new.items }) (record { clause = number; blocker = first; start = length literals.old.items; end = length literals.new.items })) }
    ensures err { OnErr result ((literals.new.items ≡ literals.old.items) × ((starts.new.items ≡ starts.old.items) × (lists_of lists.new ≡ lists_of lists.old))) }
{
    let before = literals.len();
    add_copy(literals, starts, clause, first, second)?;
    match list_both(lists, number, before, literals.len(), first, second) {
        Ok(()) => Ok(()),
        Err(_) => {
            literals.truncate(before);
            let _ = starts.pop();
            Err(AllocError)
        }
    }
}

impl Watches {
    ghost use Rattle.watch_lists.specs.declared.trail.Trail.{Trail};
    ghost use Rattle.lemma_checker.specs.declared.literal.Literal.{Literal};
    ghost use Rattle.watch_lists.specs.Watches.{AreSound, Holds, Fits, IsOf, ArePairGuarded, IsUnchanged};

    /// Watches of no clauses, over the variables 1 to `vars`.
    fn empty(alloc: Global, vars: u32) -> Result<Watches, AllocError>
        requires small { vars < 2 ^ 31 }
        ensures { IfOk result (λ w. Holds w vars []) }
    {
        let lists = empty_lists(alloc, 2 * vars as usize + 2)?;
        let mut starts = Vec::new(alloc);
        starts.push(0)?;
        Ok(Watches {
            literals: Vec::new(alloc),
            starts,
            lists,
            short: Vec::new(alloc),
            looked: 0,
        })
    }

    /// Adds a clause under the next number. One of two literals or more is watched at these two.
    /// Without memory, or past 2^32 - 2 clauses or 2^32 - 1 literals, nothing is added.
    pub fn add(
        &mut self,
        clause: &[Literal],
        first: Literal,
        second: Literal,
    ) -> Result<(), AllocError>
        requires sound { AreSound self.old }
        requires over { IsOf self.old clause.now }
        requires pair { 2 ≤ length clause.now → ArePair clause.now first.0 second.0 }
        ensures err { OnErr result (IsUnchanged self.old self.new) }
        ensures sound { OnOk result (AreSound self.new) }
        ensures size { OnOk result (length self.new.lists.items ≡ length self.old.lists.items) }
        ensures holds { OnOk result ((vars : ℕ) (clauses : List (List Literal)) → Holds self.old vars clauses → Holds self.new vars (clauses ++ clause.now ∷ [])) }
        ensures fits { OnOk result ((t : Trail) → Fits self.old t → (2 ≤ length clause.now → ArePairGuarded clause.now first.0 second.0 t) → Fits self.new t) }
    {
        let count = self.starts.len();
        if count >= 0xffff_ffff {
            return Err(AllocError);
        }
        let number = count as u32 - 1;
        if clause.len() < 2 {
            add_short(
                &mut self.literals,
                &mut self.starts,
                &mut self.short,
                clause,
                number,
            )?;
        } else {
            add_long(
                &mut self.literals,
                &mut self.starts,
                self.lists.as_mut_slice(),
                clause,
                number,
                first,
                second,
            )?;
        }
        Ok(())
    }

    /// The watches of the formula's clauses, each of two literals or more at its first two.
    pub fn of(alloc: Global, formula: &Formula) -> Result<Watches, AllocError>
        ensures { IfOk result (λ w. Holds w formula.now.vars formula.now.clauses) }
    {
        let mut watches = Watches::empty(alloc, formula.vars)?;
        for i in 0..formula.clauses.len() {
            let clause = formula.clauses.clause(i);
            let (first, second) = first_two(clause);
            watches.add(clause, first, second)?;
        }
        Ok(watches)
    }
}
