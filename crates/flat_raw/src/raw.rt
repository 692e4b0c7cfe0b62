//! A flat design before its checks.

ghost use Rattle.std.specs.Prelude.{◌≡◌, ◌<◌, ◌↔◌, ◌&&◌, ℕ, Some, true, length, replicate, false, slice_get, IsTrue, IfOk, IfSome, IsSome, OnOk};
ghost use Rattle.std.specs.List.{list_all};
ghost use Rattle.flat_design.specs.Systems.{targets_of};
ghost use Rattle.flat_design.specs.declared.item.FlatItem.{FlatItem as ItemOf};
ghost use Rattle.flat_orders.specs.Orders.{among};
ghost use Rattle.flat_rules.specs.Fits as rules;
ghost use Rattle.flat_raw.specs.Assigned as spec;
ghost use Rattle.flat_raw.specs.Assigned.{AreTargets};
ghost use Rattle.flat_raw.specs.Nets.{kind_fits};
ghost use Rattle.flat_raw.specs.Raw.{IsRaw, AreFit, FitNets};
ghost use Rattle.flat_design.specs.declared.net.Net.{Net as NetOf};

use crate::assigned::{assigned_nets, clocked_nets, item_nets};
use crate::marks::{are_below, is_rising, marks, stand_in};
use crate::net::{are_in_row, have_places, have_widths, kinds_fit};
use crate::path::{have_own_paths, have_paths};
use flat_design::item::FlatItem;
use flat_design::net::Net;
use flat_rules::fit::item_fits;
use flat_sets::NumberSet;
use std::alloc::{AllocError, Global};
use std::vec::Vec;

/// Nets and items that fit each other, as elaboration makes them: `Design::check` makes a design of them.
#[derive(Drop)]
pub struct RawDesign {
    pub nets: Vec<Net>,
    pub items: Vec<FlatItem>,
    ghost raw: { IsRaw nets.items items.items },
}

fn targets_of(item: &FlatItem) -> &[u32]
    ensures { result.now ≡ targets_of item.now }
{
    match item {
        FlatItem::Assign {
            place: _,
            targets,
            left: _,
            value: _,
            connection: _,
        } => targets.as_slice(),
        FlatItem::Comb {
            place: _,
            targets,
            body: _,
        } => targets.as_slice(),
        FlatItem::Clocked {
            place: _,
            targets,
            events: _,
            body: _,
        } => targets.as_slice(),
    }
}

/// All four.
fn all_of(a: bool, b: bool, c: bool, d: bool) -> bool
    ensures { result ≡ (a && (b && (c && d))) }
{
    a && b && c && d
}

/// These are the targets of an item that assigns these nets; the set is empty before and after, and tells how many nets there are.
fn are_targets(set: &mut NumberSet, targets: &[u32], nets: &[u32]) -> Result<bool, AllocError>
    requires { set.old ≡ replicate (length set.old) false }
    ensures targets { IfOk result (λ b. IsTrue b ↔ AreTargets (length set.old) targets.now nets.now) }
    ensures empty { OnOk result (set.new ≡ set.old) }
{
    let inside = are_below(set.bound(), nets);
    let rising = is_rising(targets);
    let there = stand_in(set, targets, nets)?;
    let back = stand_in(set, nets, targets)?;
    Ok(all_of(inside, rising, there, back))
}

fn item_has_targets(alloc: Global, set: &mut NumberSet, item: &FlatItem) -> Result<bool, AllocError>
    requires { set.old ≡ replicate (length set.old) false }
    ensures targets { IfOk result (λ b. IsTrue b ↔ AreTargets (length set.old) (targets_of item.now) (spec.item_nets item.now)) }
    ensures empty { OnOk result (set.new ≡ set.old) }
{
    let nets = item_nets(alloc, item)?;
    are_targets(set, targets_of(item), nets.as_slice())
}

/// Each item has its targets.
fn have_targets(alloc: Global, bound: usize, items: &[FlatItem]) -> Result<bool, AllocError>
    ensures { IfOk result (λ b. IsTrue b ↔ ((k : ℕ) (x : ItemOf) → slice_get items.now k ≡ Some x → AreTargets bound (targets_of x) (spec.item_nets x))) }
{
    let mut set = NumberSet::empty(alloc, bound)?;
    for item in items {
        if !item_has_targets(alloc, &mut set, item)? {
            return Ok(false);
        }
    }
    Ok(true)
}

/// The nets have the kinds that fit the items.
fn have_kinds(alloc: Global, nets: &[Net], items: &[FlatItem]) -> Result<bool, AllocError>
    ensures { IfOk result (λ b. IsTrue b ↔ ((k : ℕ) (n : NetOf) → slice_get nets.now k ≡ Some n → kind_fits n.kind (among k (spec.assigned_nets items.now)) (among k (spec.clocked_nets items.now)) ≡ true)) }
{
    let assigned = assigned_nets(alloc, items)?;
    let clocked = clocked_nets(alloc, items)?;
    let assigned = marks(alloc, nets.len(), assigned.as_slice())?;
    let clocked = marks(alloc, nets.len(), clocked.as_slice())?;
    Ok(kinds_fit(nets, assigned.as_slice(), clocked.as_slice()))
}

fn items_fit(nets: &[Net], items: &[FlatItem]) -> bool
    ensures { result ≡ list_all (rules.item_fits nets.now) items.now }
{
    items.iter().all(|item| item_fits(nets, item))
}

/// The nets fit their design, whatever the items are.
fn nets_fit(alloc: Global, nets: &[Net]) -> Result<bool, AllocError>
    ensures { IfOk result (λ b. IsTrue b ↔ AreFit nets.now) }
{
    let widths = have_widths(nets);
    let places = have_places(nets);
    let row = are_in_row(nets);
    let paths = have_paths(nets);
    let own = have_own_paths(alloc, nets)?;
    Ok(widths && places && row && paths && own)
}

/// The items fit the nets.
fn all_fit(alloc: Global, nets: &[Net], items: &[FlatItem]) -> Result<bool, AllocError>
    ensures { IfOk result (λ b. IsTrue b ↔ FitNets nets.now items.now) }
{
    let few = (items.len() as u64) < 0x1_0000_0000;
    let fit = items_fit(nets, items);
    let kinds = have_kinds(alloc, nets, items)?;
    let targets = have_targets(alloc, nets.len(), items)?;
    Ok(all_of(few, fit, kinds, targets))
}

impl RawDesign {
    /// The design of these nets and items, where they fit each other.
    pub fn of(
        alloc: Global,
        nets: Vec<Net>,
        items: Vec<FlatItem>,
    ) -> Result<Option<RawDesign>, AllocError>
        ensures some { IfOk result (λ o. IfSome o (λ raw. (raw.nets.items ≡ nets.items) × (raw.items.items ≡ items.items))) }
        ensures raw { IfOk result (λ o. IsSome o ↔ IsRaw nets.items items.items) }
    {
        let nets_fit = nets_fit(alloc, nets.as_slice())?;
        let all_fit = all_fit(alloc, nets.as_slice(), items.as_slice())?;
        if nets_fit && all_fit {
            Ok(Some(RawDesign { nets, items }))
        } else {
            Ok(None)
        }
    }
}
