//! The flow of an item.

ghost use Rattle.std.specs.Prelude.{◌≡◌, ℕ, Bool, false, not, List, OnOk, IfOk};
ghost use Rattle.flat_design.specs.Flows.{Flow};
ghost use Rattle.flat_design.specs.Systems.{item_flow};
ghost use Rattle.flat_orders.specs.Orders.{among};
ghost use Rattle.flat_flows.specs.Tables.{in_table};
ghost use Rattle.flat_flows.specs.Walks.{Walked};

use crate::bit_set::BitSet;
use crate::found::Found;
use crate::marks::Marks;
use crate::walk::{walk_assign, walk_stmt};
use flat_design::item::FlatItem;
use flat_design::net::Net;
use std::alloc::{AllocError, Global};
use std::mem;
use std::vec::Vec;

/// The flow of an item, as sets of flat bits: those that it reads before it has assigned them, those that it may assign, and
/// (`fixes`, a list) those that it assigns on every path. The sets are emptied and filled again for each item, in the time of
/// their members.
#[derive(Drop)]
pub struct FlowSets {
    pub found: Found,
    pub fixes: Vec<usize>,
    sure: Marks,
    ghost unused: { (i : ℕ) → in_table sure i ≡ false },
}

impl FlowSets {
    /// Empty sets.
    pub fn new(alloc: Global) -> FlowSets {
        FlowSets {
            found: Found {
                reads: BitSet::new(alloc),
                drives: BitSet::new(alloc),
            },
            fixes: Vec::new(alloc),
            sure: Marks::new(alloc),
        }
    }

    /// Fills the sets with the flow of an item.
    pub fn fill(&mut self, alloc: Global, nets: &[Net], item: &FlatItem) -> Result<(), AllocError>
        ensures reads { OnOk result ((i : ℕ) → in_table self.new.found.reads i ≡ (item_flow nets.now item.now).reads i) }
        ensures drives { OnOk result ((i : ℕ) → in_table self.new.found.drives i ≡ (item_flow nets.now item.now).drives i) }
        ensures fixes { OnOk result ((i : ℕ) → among i self.new.fixes.items ≡ not ((item_flow nets.now item.now).leaves i)) }
    {
        self.found.reads.clear();
        self.found.drives.clear();
        let mut sure = mem::replace(&mut self.sure, Marks::new(alloc));
        self.fixes = walk_item(alloc, nets, item, &mut sure, &mut self.found)?;
        self.sure = sure;
        Ok(())
    }
}

/// Walks over an item, where no bit is sure to be assigned before.
fn walk_item(
    alloc: Global,
    nets: &[Net],
    item: &FlatItem,
    sure: &mut Marks,
    found: &mut Found,
) -> Result<Vec<usize>, AllocError>
    ensures sure { OnOk result ((i : ℕ) → in_table sure.new i ≡ in_table sure.old i) }
    ensures walked { IfOk result (λ fixed. Walked (item_flow nets.now item.now) sure.old found.old found.new fixed.items) }
{
    match item {
        FlatItem::Assign {
            place: _,
            targets: _,
            left,
            value,
            connection: _,
        } => { walk_assign(alloc, nets, left.as_slice(), value, false, sure, found) }
        FlatItem::Comb {
            place: _,
            targets: _,
            body,
        } => walk_stmt(alloc, nets, body, sure, found),
        FlatItem::Clocked {
            place: _,
            targets: _,
            events: _,
            body,
        } => { walk_stmt(alloc, nets, body, sure, found) }
    }
}
