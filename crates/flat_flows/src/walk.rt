//! Walks over statements.

ghost use Rattle.std.specs.Prelude.{◌≡◌, ℕ, ◌≢◌, [], Bool, List, None, true, false, not, ◌&&◌, ◌||◌, map, OnOk, IfOk, MatchOption};
ghost use Rattle.flat_design.specs.declared.net.Net as declared;
ghost use Rattle.flat_design.specs.Flows as spec;
ghost use Rattle.flat_orders.specs.Orders.{among};
ghost use Rattle.flat_flows.specs.Tables.{in_table, Grows};
ghost use Rattle.flat_flows.specs.Walks.{Same, Fixes, Adds, Walked};
ghost use Rattle.flat_flows.specs.Arms.{other_flow, arm_before, arms_before, is_closed, default_flow};
ghost use Rattle.flat_flows.specs.declared.found.Found.{Found};

use crate::bit_set::BitSet;
use crate::found::Found;
use crate::full::is_full_case;
use crate::left::{add_left_drives, left_fixes};
use crate::marks::Marks;
use crate::reading::{add_left_reads, add_reads};
use flat_design::expr::FlatExpr;
use flat_design::net::Net;
use flat_design::stmt::{FlatArm, FlatLabel, FlatLeft, FlatStmt};
use sqlite_items::Boxed;
use std::alloc::{AllocError, Global};
use std::vec::Vec;

/// Adds the bits that labels read and that aren't sure to be assigned.
fn add_label_reads(
    alloc: Global,
    nets: &[Net],
    labels: &[FlatLabel],
    sure: &Marks,
    reads: &mut BitSet,
) -> Result<(), AllocError>
    ensures { OnOk result (Grows reads.old (spec.label_reads nets.now labels.now) sure.now reads.new) }
{
    for label in labels {
        add_reads(alloc, nets, &label.value, sure, reads)?;
    }
    Ok(())
}

/// Those of the second list that are in the set or in the first list, which is taken out of the set.
fn common(
    alloc: Global,
    first: &[usize],
    second: &[usize],
    sure: &mut Marks,
) -> Result<Vec<usize>, AllocError>
    ensures both { IfOk result (λ both. (i : ℕ) → among i both.items ≡ (among i second.now && (in_table sure.old i || among i first.now))) }
    ensures sure { OnOk result ((i : ℕ) → in_table sure.new i ≡ (in_table sure.old i && not (among i first.now))) }
{
    sure.add_all(first)?;
    let both = those_in(alloc, second, sure)?;
    sure.remove_all(first);
    Ok(both)
}

/// The numbers of a list that are in a set.
fn those_in(alloc: Global, numbers: &[usize], set: &Marks) -> Result<Vec<usize>, AllocError>
    ensures { IfOk result (λ those. (i : ℕ) → among i those.items ≡ (among i numbers.now && in_table set.now i)) }
{
    let mut those = Vec::new(alloc);
    for number in numbers {
        if set.has(*number) {
            those.push(*number)?;
        }
    }
    Ok(those)
}

/// Walks over an assignment: what it is sure to assign, besides the bits that were sure before.
pub fn walk_assign(
    alloc: Global,
    nets: &[Net],
    left: &[FlatLeft],
    value: &FlatExpr,
    later: bool,
    sure: &Marks,
    found: &mut Found,
) -> Result<Vec<usize>, AllocError>
    ensures { IfOk result (λ fixed. Walked (spec.assign_flow nets.now left.now value.now later) sure.now found.old found.new fixed.items) }
{
    add_reads(alloc, nets, value, sure, &mut found.reads)?;
    add_left_reads(alloc, nets, left, sure, &mut found.reads)?;
    add_left_drives(alloc, nets, left, &mut found.drives)?;
    if later {
        return Ok(Vec::new(alloc));
    }
    left_fixes(alloc, nets, left, sure)
}

/// Walks over statements, one after the other.
#[cycle(walks)]
fn walk_all(
    alloc: Global,
    nets: &[Net],
    body: &[FlatStmt],
    sure: &mut Marks,
    found: &mut Found,
) -> Result<Vec<usize>, AllocError>
    ensures sure { OnOk result (Same sure.new sure.old) }
    ensures walked { IfOk result (λ fixed. Walked (spec.all_before (map (spec.flow nets.now) body.now)) sure.old found.old found.new fixed.items) }
{
    let mut fixed = Vec::new(alloc);
    for s in body {
        let more = walk_stmt(alloc, nets, s, sure, found)?;
        sure.add_all(more.as_slice())?;
        fixed.extend_from_slice(more.as_slice())?;
    }
    sure.remove_all(fixed.as_slice());
    Ok(fixed)
}

/// Walks over the second branch of an `if`.
#[cycle(walks)]
fn walk_other(
    alloc: Global,
    nets: &[Net],
    other: &Option<Boxed<FlatStmt>>,
    sure: &mut Marks,
    found: &mut Found,
) -> Result<Vec<usize>, AllocError>
    ensures sure { OnOk result (Same sure.new sure.old) }
    ensures walked { IfOk result (λ fixed. Walked (other_flow nets.now other.now) sure.old found.old found.new fixed.items) }
{
    match other {
        None => Ok(Vec::new(alloc)),
        Some(s) => walk_stmt(alloc, nets, s.get(), sure, found),
    }
}

/// Walks over an arm of a case, where the arms after it have been walked over.
#[cycle(walks)]
fn walk_arm(
    alloc: Global,
    nets: &[Net],
    arm: &FlatArm,
    rest: Option<Vec<usize>>,
    sure: &mut Marks,
    found: &mut Found,
) -> Result<Vec<usize>, AllocError>
    ensures sure { OnOk result (Same sure.new sure.old) }
    ensures adds { (g : spec.Flow) (first : Found) → Adds g sure.old first found.old → OnOk result (Adds (arm_before nets.now arm.now g) sure.old first found.new) }
    ensures fixes { (g : spec.Flow) → MatchOption rest ((i : ℕ) → g.leaves i ≡ false) (λ r. Fixes g sure.old r.items) → IfOk result (λ fixed. Fixes (arm_before nets.now arm.now g) sure.old fixed.items) }
{
    add_label_reads(alloc, nets, arm.labels.as_slice(), sure, &mut found.reads)?;
    let own = walk_stmt(alloc, nets, &arm.body, sure, found)?;
    match rest {
        None => Ok(own),
        Some(rest) => common(alloc, own.as_slice(), rest.as_slice(), sure),
    }
}

/// Walks over the arms of a case from the last, where the default has been walked over, or what stands in its place.
#[cycle(walks)]
fn walk_arms(
    alloc: Global,
    nets: &[Net],
    arms: &[FlatArm],
    last: Option<Vec<usize>>,
    sure: &mut Marks,
    found: &mut Found,
) -> Result<Vec<usize>, AllocError>
    requires { last ≡ None → arms.now ≢ [] }
    ensures sure { OnOk result (Same sure.new sure.old) }
    ensures adds { (g : spec.Flow) (first : Found) → Adds g sure.old first found.old → OnOk result (Adds (arms_before nets.now arms.now g) sure.old first found.new) }
    ensures fixes { (g : spec.Flow) → MatchOption last ((i : ℕ) → g.leaves i ≡ false) (λ r. Fixes g sure.old r.items) → IfOk result (λ fixed. Fixes (arms_before nets.now arms.now g) sure.old fixed.items) }
{
    let mut rest = last;
    for i in (0..arms.len()).rev() {
        let fixed = walk_arm(alloc, nets, &arms[i], rest, sure, found)?;
        rest = Some(fixed);
    }
    match rest {
        None => Ok(Vec::new(alloc)),
        Some(fixed) => Ok(fixed),
    }
}

/// Whether no path goes past the arms of a case: it has no default, and is full.
pub fn is_closed(
    alloc: Global,
    selector: &FlatExpr,
    arms: &[FlatArm],
    other: &Option<Boxed<FlatStmt>>,
) -> Result<bool, AllocError>
    ensures closed { (nets : List declared.Net) → IfOk result (λ closed. closed ≡ is_closed nets selector.now arms.now other.now) }
    ensures arms { IfOk result (λ closed. closed ≡ true → arms.now ≢ []) }
{
    match other {
        None => is_full_case(alloc, selector, arms),
        Some(_) => Ok(false),
    }
}

/// Walks over the default of a case, or what stands in its place: no path where the case is closed.
#[cycle(walks)]
fn walk_default(
    alloc: Global,
    nets: &[Net],
    closed: bool,
    other: &Option<Boxed<FlatStmt>>,
    sure: &mut Marks,
    found: &mut Found,
) -> Result<Option<Vec<usize>>, AllocError>
    ensures sure { OnOk result (Same sure.new sure.old) }
    ensures adds { OnOk result (Adds (default_flow nets.now closed other.now) sure.old found.old found.new) }
    ensures fixes { IfOk result (λ last. MatchOption last ((i : ℕ) → (default_flow nets.now closed other.now).leaves i ≡ false) (λ r. Fixes (default_flow nets.now closed other.now) sure.old r.items)) }
    ensures none { IfOk result (λ last. last ≡ None → closed ≡ true) }
{
    match other {
        Some(s) => {
            let fixed = walk_stmt(alloc, nets, s.get(), sure, found)?;
            Ok(Some(fixed))
        }
        None => {
            if closed {
                return Ok(None);
            }
            Ok(Some(Vec::new(alloc)))
        }
    }
}

/// Walks over a statement: what it is sure to assign, besides the bits that were sure before.
#[cycle(walks)]
pub fn walk_stmt(
    alloc: Global,
    nets: &[Net],
    s: &FlatStmt,
    sure: &mut Marks,
    found: &mut Found,
) -> Result<Vec<usize>, AllocError>
    ensures sure { OnOk result (Same sure.new sure.old) }
    ensures walked { IfOk result (λ fixed. Walked (spec.flow nets.now s.now) sure.old found.old found.new fixed.items) }
{
    match s {
        FlatStmt::Block(body) => walk_all(alloc, nets, body.as_slice(), sure, found),
        FlatStmt::Assign { left, value, later } => {
            walk_assign(alloc, nets, left.as_slice(), value, *later, sure, found)
        }
        FlatStmt::If { test, yes, no } => {
            add_reads(alloc, nets, test, sure, &mut found.reads)?;
            let first = walk_stmt(alloc, nets, yes.get(), sure, found)?;
            let second = walk_other(alloc, nets, no, sure, found)?;
            common(alloc, first.as_slice(), second.as_slice(), sure)
        }
        FlatStmt::Case {
            selector,
            arms,
            other,
        } => {
            add_reads(alloc, nets, selector, sure, &mut found.reads)?;
            let closed = is_closed(alloc, selector, arms.as_slice(), other)?;
            let last = walk_default(alloc, nets, closed, other, sure, found)?;
            walk_arms(alloc, nets, arms.as_slice(), last, sure, found)
        }
    }
}
