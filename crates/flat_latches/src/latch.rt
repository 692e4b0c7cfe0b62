//! The first latch of an item.

ghost use Rattle.std.specs.Prelude.{◌≡◌, ℕ, Bool, List, not, ◌&&◌, ◌||◌, ◌==◌, IfOk, MatchOption};
ghost use Rattle.flat_design.specs.Systems.{item_flow};
ghost use Rattle.flat_orders.specs.Orders.{among};
ghost use Rattle.flat_flows.specs.Tables.{in_table};
ghost use Rattle.flat_latches.specs.Latches.{IsLeast, IsLatch, HasNoLatch};

use crate::path::leaving_path;
use flat_design::item::FlatItem;
use flat_design::net::Net;
use flat_flows::item::FlowSets;
use flat_flows::marks::Marks;
use std::alloc::{AllocError, Global};
use std::vec::Vec;

/// A bit that a combinational process assigns and leaves unassigned on a path: one number for each `if` and `case` on the way, 0
/// or 1 for the branches of an `if`, for a case the number of the arm from 0, or that of its arms for its default or where no
/// label matches.
#[derive(Debug, Drop)]
pub struct Latch {
    pub bit: usize,
    pub path: Vec<u32>,
}

/// The lesser of the least number so far and a number, which counts where it isn't shut out.
fn lesser(least: Option<usize>, number: usize, shut: &Marks) -> Option<usize>
    ensures { (set : ℕ → Bool) → IsLeast least set → IsLeast result (λ i. set i || (number == i && not (in_table shut.now i))) }
{
    if shut.has(number) {
        return least;
    }
    match least {
        None => Some(number),
        Some(least) => Some(least.min(number)),
    }
}

/// The least number of a list that isn't shut out.
fn least_open(numbers: &[usize], shut: &Marks) -> Option<usize>
    ensures { IsLeast result (λ i. among i numbers.now && not (in_table shut.now i)) }
{
    let mut least = None;
    for number in numbers {
        least = lesser(least, *number, shut);
    }
    least
}

/// The least bit that an item may assign and that some path leaves unassigned. The sets are filled with the flow of the item.
fn open_bit(
    alloc: Global,
    nets: &[Net],
    item: &FlatItem,
    sets: &FlowSets,
) -> Result<Option<usize>, AllocError>
    requires drives { (i : ℕ) → in_table sets.now.found.drives i ≡ (item_flow nets.now item.now).drives i }
    requires fixes { (i : ℕ) → among i sets.now.fixes.items ≡ not ((item_flow nets.now item.now).leaves i) }
    ensures { IfOk result (λ o. IsLeast o (λ i. (item_flow nets.now item.now).drives i && (item_flow nets.now item.now).leaves i)) }
{
    let mut fixed = Marks::new(alloc);
    fixed.add_all(sets.fixes.as_slice())?;
    Ok(least_open(sets.found.drives.members(), &fixed))
}

/// The least bit that a combinational process assigns and leaves unassigned on some path, with such a path. The sets are filled
/// with the flow of the item.
pub fn latch_of(
    alloc: Global,
    nets: &[Net],
    item: &FlatItem,
    sets: &FlowSets,
) -> Result<Option<Latch>, AllocError>
    requires drives { (i : ℕ) → in_table sets.now.found.drives i ≡ (item_flow nets.now item.now).drives i }
    requires fixes { (i : ℕ) → among i sets.now.fixes.items ≡ not ((item_flow nets.now item.now).leaves i) }
    ensures { IfOk result (λ o. MatchOption o (HasNoLatch nets.now item.now) (λ l. IsLatch nets.now item.now l.bit l.path.items)) }
{
    let FlatItem::Comb {
        place: _,
        targets: _,
        body,
    } = item
    else {
        return Ok(None);
    };
    let Some(bit) = open_bit(alloc, nets, item, sets)? else {
        return Ok(None);
    };
    match leaving_path(alloc, nets, body, bit)? {
        None => Ok(None),
        Some(path) => Ok(Some(Latch { bit, path })),
    }
}
