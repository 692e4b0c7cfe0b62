//! Paths through a statement that leave a bit unassigned.

ghost use Rattle.std.specs.Prelude.{◌≡◌, ℕ, false, not, ◌||◌, ◌++◌, ◌∷◌, List, [], Some, map, IfOk, MatchOption, IsSomeAnd};
ghost use Rattle.flat_design.specs.Flows as spec;
ghost use Rattle.flat_orders.specs.Orders.{among};
ghost use Rattle.flat_paths.specs.Paths.{Walk, walk, walk_all, walk_choice};
ghost use Rattle.flat_flows.specs.Arms.{other_flow, arms_before};
ghost use Rattle.flat_latches.specs.Latches.{LeadsOn, other_walk, arm_walks};

use flat_design::net::Net;
use flat_design::stmt::{FlatArm, FlatLeft, FlatStmt};
use flat_flows::left::left_fixes;
use flat_flows::marks::Marks;
use flat_flows::walk::is_closed;
use sqlite_items::Boxed;
use std::alloc::{AllocError, Global};
use std::vec::Vec;

/// Whether a left side is sure to write a bit.
fn fixes_bit(alloc: Global, nets: &[Net], left: &[FlatLeft], bit: usize) -> Result<bool, AllocError>
    ensures { IfOk result (λ fixes. fixes ≡ spec.left_fixes nets.now left.now bit) }
{
    let nothing = Marks::new(alloc);
    let fixed = left_fixes(alloc, nets, left, &nothing)?;
    Ok(has_number(fixed.as_slice(), bit))
}

/// Whether a number is in a list.
fn has_number(numbers: &[usize], number: usize) -> bool
    ensures { result ≡ among number numbers.now }
{
    for n in numbers {
        if *n == number {
            return true;
        }
    }
    false
}

/// A path with the number of a branch in front.
fn branch(alloc: Global, number: usize, path: &[u32]) -> Result<Option<Vec<u32>>, AllocError>
    ensures { IfOk result (λ o. IsSomeAnd o (λ longer. longer.items ≡ number ∷ path.now)) }
{
    let number = u32::try_from(number).map_err(|_| AllocError)?;
    let mut longer = Vec::new(alloc);
    longer.push(number)?;
    longer.extend_from_slice(path)?;
    Ok(Some(longer))
}

/// A path through statements, one after the other, that leaves a bit; none where no path does.
#[cycle(paths)]
fn path_through(
    alloc: Global,
    nets: &[Net],
    body: &[FlatStmt],
    bit: usize,
) -> Result<Option<Vec<u32>>, AllocError>
    ensures { IfOk result (λ o. MatchOption o ((spec.all_before (map (spec.flow nets.now) body.now)).leaves bit ≡ false) (λ path. LeadsOn (walk_all (map (walk nets.now bit) body.now)) path.items)) }
{
    let mut path = Vec::new(alloc);
    for s in body {
        let Some(more) = leaving_path(alloc, nets, s, bit)? else {
            return Ok(None);
        };
        path.extend_from_slice(more.as_slice())?;
    }
    Ok(Some(path))
}

/// A path through the second branch of an `if` that leaves a bit; none where no path does.
#[cycle(paths)]
fn path_of_other(
    alloc: Global,
    nets: &[Net],
    other: &Option<Boxed<FlatStmt>>,
    bit: usize,
) -> Result<Option<Vec<u32>>, AllocError>
    ensures { IfOk result (λ o. MatchOption o ((other_flow nets.now other.now).leaves bit ≡ false) (λ path. LeadsOn (other_walk nets.now bit other.now) path.items)) }
{
    match other {
        None => Ok(Some(Vec::new(alloc))),
        Some(s) => leaving_path(alloc, nets, s.get(), bit),
    }
}

/// A path through an arm of a case that leaves a bit, with the arm's number in front; none where no path does.
#[cycle(paths)]
fn path_of_arms(
    alloc: Global,
    nets: &[Net],
    arms: &[FlatArm],
    bit: usize,
) -> Result<Option<Vec<u32>>, AllocError>
    ensures { (last : Walk) → IfOk result (λ o. MatchOption o ((g : spec.Flow) → (arms_before nets.now arms.now g).leaves bit ≡ g.leaves bit) (λ path. LeadsOn (walk_choice (arm_walks nets.now bit arms.now) last) path.items)) }
{
    for (number, arm) in arms.iter().enumerate() {
        if let Some(path) = leaving_path(alloc, nets, &arm.body, bit)? {
            return branch(alloc, number, path.as_slice());
        }
    }
    Ok(None)
}

/// A path through a statement that leaves a bit unassigned: one number for each `if` and `case` on the way. None where every
/// path assigns it.
#[cycle(paths)]
pub fn leaving_path(
    alloc: Global,
    nets: &[Net],
    s: &FlatStmt,
    bit: usize,
) -> Result<Option<Vec<u32>>, AllocError>
    ensures { IfOk result (λ o. MatchOption o ((spec.flow nets.now s.now).leaves bit ≡ false) (λ path. LeadsOn (walk nets.now bit s.now) path.items)) }
{
    match s {
        FlatStmt::Block(body) => path_through(alloc, nets, body.as_slice(), bit),
        FlatStmt::Assign {
            left,
            value: _,
            later,
        } => {
            if *later || !fixes_bit(alloc, nets, left.as_slice(), bit)? {
                return Ok(Some(Vec::new(alloc)));
            }
            Ok(None)
        }
        FlatStmt::If { test: _, yes, no } => {
            if let Some(path) = leaving_path(alloc, nets, yes.get(), bit)? {
                return branch(alloc, 0, path.as_slice());
            }
            let Some(path) = path_of_other(alloc, nets, no, bit)? else {
                return Ok(None);
            };
            branch(alloc, 1, path.as_slice())
        }
        FlatStmt::Case {
            selector,
            arms,
            other,
        } => {
            let arms = arms.as_slice();
            if let Some(path) = path_of_arms(alloc, nets, arms, bit)? {
                return Ok(Some(path));
            }
            if is_closed(alloc, selector, arms, other)? {
                return Ok(None);
            }
            let Some(path) = path_of_other(alloc, nets, other, bit)? else {
                return Ok(None);
            };
            branch(alloc, arms.len(), path.as_slice())
        }
    }
}
