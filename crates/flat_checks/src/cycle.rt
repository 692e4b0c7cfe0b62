//! The cycle that is shown, with what it carries.

ghost use Rattle.std.specs.Prelude.{◌≡◌, ◌≤◌, ℕ, List, true, length, Some, slice_get, IfOk, OnOk, MatchOption, IsSomeAnd, [], ◌∷◌, ◌++◌};
ghost use Rattle.flat_design.specs.declared.item.FlatItem.{FlatItem as ItemOf};
ghost use Rattle.flat_design.specs.declared.net.Net.{Net as NetOf};
ghost use Rattle.flat_design.specs.Systems.{place_of as placed};
ghost use Rattle.flat_orders.specs.Orders.{among};
ghost use Rattle.flat_raw.specs.Assigned.{item_nets as assigned};
ghost use Rattle.flat_ordered.specs.Firsts.{IsFirstCycle};
ghost use Rattle.flat_checks.specs.Cycles.{IsFirstNet, AreFirstNets, AreAssigning, IsShownCycle};

use bit_base::place::Place;
use flat_design::item::FlatItem;
use flat_offences::least::least_of;
use flat_offences::offence::place_of;
use flat_raw::assigned::item_nets;
use sqlite_items::at;
use std::alloc::{AllocError, Global};
use std::vec::Vec;

/// A cycle of items, each reading what the next drives: the place of its first item in text order, and of each item, from that on, the
/// first net in net order that it assigns.
#[derive(Debug, Drop)]
pub struct ItemCycle {
    pub place: Place,
    pub nets: Vec<u32>,
}

/// The first net in net order that an item assigns.
fn first_net(alloc: Global, item: &FlatItem) -> Result<Option<u32>, AllocError>
    ensures { IfOk result (λ o. MatchOption o ((n : ℕ) → among n (assigned item.now) ≡ true → ⊥) (IsFirstNet item.now)) }
{
    let nets = item_nets(alloc, item)?;
    Ok(least_of(nets.as_slice()))
}

/// The first net in net order that the item of a number assigns.
fn net_of(alloc: Global, items: &[FlatItem], number: usize) -> Result<Option<u32>, AllocError>
    ensures { IfOk result (λ o. (x : ItemOf) (n : ℕ) → slice_get items.now number ≡ Some x → among n (assigned x) ≡ true → IsSomeAnd o (IsFirstNet x)) }
{
    match at(items, number) {
        None => Ok(None),
        Some(item) => first_net(alloc, item),
    }
}

/// Adds the first net in net order that the item of a number assigns.
fn push_net(
    alloc: Global,
    nets: &mut Vec<u32>,
    items: &[FlatItem],
    number: usize,
) -> Result<(), AllocError>
    ensures { OnOk result ((x : ItemOf) (n : ℕ) → slice_get items.now number ≡ Some x → among n (assigned x) ≡ true → (m : ℕ) × (IsFirstNet x m × (nets.new.items ≡ nets.old.items ++ m ∷ []))) }
{
    match net_of(alloc, items, number)? {
        None => Ok(()),
        Some(net) => {
            nets.push(net)?;
            Ok(())
        }
    }
}

/// Of each of these items the first net in net order that it assigns.
fn nets_of(alloc: Global, items: &[FlatItem], numbers: &[usize]) -> Result<Vec<u32>, AllocError>
    requires { AreAssigning items.now numbers.now }
    ensures { IfOk result (λ nets. AreFirstNets items.now numbers.now nets.items) }
{
    let mut nets = Vec::new(alloc);
    for number in numbers {
        push_net(alloc, &mut nets, items, *number)?;
    }
    Ok(nets)
}

/// The place of the item of a number; 0:0 where there is none.
fn place_at(items: &[FlatItem], number: usize) -> Place
    ensures { (x : ItemOf) → slice_get items.now number ≡ Some x → result ≡ placed x }
{
    match at(items, number) {
        None => Place {
            file: 0,
            line: 0,
            column: 0,
        },
        Some(item) => place_of(item),
    }
}

/// The place of the first of these items; 0:0 where there is none.
fn first_place(items: &[FlatItem], numbers: &[usize]) -> Place
    ensures { (k : ℕ) (x : ItemOf) → slice_get numbers.now 0 ≡ Some k → slice_get items.now k ≡ Some x → result ≡ placed x }
{
    match at(numbers, 0) {
        None => Place {
            file: 0,
            line: 0,
            column: 0,
        },
        Some(number) => place_at(items, *number),
    }
}

/// A cycle of items with its place and what it carries.
pub fn shown_cycle(
    alloc: Global,
    items: &[FlatItem],
    numbers: &[usize],
) -> Result<ItemCycle, AllocError>
    requires { AreAssigning items.now numbers.now }
    ensures { (nets : List NetOf) → IsFirstCycle nets items.now numbers.now → IfOk result (IsShownCycle nets items.now) }
{
    let nets = nets_of(alloc, items, numbers)?;
    Ok(ItemCycle {
        place: first_place(items, numbers),
        nets,
    })
}
