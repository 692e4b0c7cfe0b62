//! Plain port connections.

ghost use Rattle.std.specs.Prelude.{◌≡◌, ◌==◌, ℕ, None, Some, if◌then◌else◌, OnOk, IfOk};
ghost use Rattle.flat_ties.specs.Shapes.{whole_net};
ghost use Rattle.flat_ties.specs.Ties as spec;

use crate::shape::whole_net;
use flat_design::expr::FlatExpr;
use flat_design::item::FlatItem;
use flat_design::stmt::FlatLeft;
use std::alloc::{AllocError, Global};
use std::vec::Vec;

/// A plain port connection: the port `to` is the whole of the net `from`.
#[derive(Clone, Copy, Debug, PartialEq, Eq, Drop)]
pub struct Tie {
    pub to: u32,
    pub from: u32,
}

/// The net that a part of a left side is the whole of.
fn part_net(part: &FlatLeft) -> Option<u32>
    ensures { result ≡ spec.part_net part.now.net part.now.index }
{
    match &part.index {
        None => Some(part.net),
        Some(_) => None,
    }
}

/// The net that a left side is the whole of.
fn left_net(left: &[FlatLeft]) -> Option<u32>
    ensures { result ≡ spec.left_net left.now }
{
    let [part] = left else {
        return None;
    };
    part_net(part)
}

/// The tie of a port's connection.
fn tie_by(left: &[FlatLeft], value: &FlatExpr) -> Option<Tie>
    ensures { result ≡ spec.tie_by (spec.left_net left.now) (whole_net value.now) }
{
    let to = left_net(left)?;
    let from = whole_net(value)?;
    Some(Tie { to, from })
}

/// What an item ties, if it is a plain port connection.
pub fn tie_of(item: &FlatItem) -> Option<Tie>
    ensures { result ≡ spec.tie_of item.now }
{
    match item {
        FlatItem::Assign {
            place: _,
            targets: _,
            left,
            value,
            connection,
        } => {
            if *connection {
                tie_by(left.as_slice(), value)
            } else {
                None
            }
        }
        FlatItem::Comb {
            place: _,
            targets: _,
            body: _,
        } => None,
        FlatItem::Clocked {
            place: _,
            targets: _,
            events: _,
            body: _,
        } => None,
    }
}

/// The net that a table has for a number.
pub fn net_in(table: &[Option<u32>], number: u32) -> Option<u32>
    ensures { result ≡ spec.net_in table.now number }
{
    match table.get(number as usize) {
        None => None,
        Some(net) => *net,
    }
}

/// Notes the net to which a net is tied.
fn note(table: &mut Vec<Option<u32>>, tie: Tie) -> Result<(), AllocError>
    ensures { OnOk result ((m : ℕ) → spec.net_in table.new.items m ≡ (if m == tie.to then Some tie.from else spec.net_in table.old.items m)) }
{
    let to = tie.to as usize;
    if to >= table.len() {
        table.resize(to + 1, None)?;
    }
    table[to] = Some(tie.from);
    Ok(())
}

/// Notes what an item ties.
fn note_item(table: &mut Vec<Option<u32>>, item: &FlatItem) -> Result<(), AllocError>
    ensures { OnOk result ((m : ℕ) → spec.net_in table.new.items m ≡ spec.tied_by (spec.tie_of item.now) m (spec.net_in table.old.items m)) }
{
    match tie_of(item) {
        None => Ok(()),
        Some(tie) => note(table, tie),
    }
}

/// For each net that to which it is tied: by the first of the plain connections that drive it.
pub fn ties(alloc: Global, items: &[FlatItem]) -> Result<Vec<Option<u32>>, AllocError>
    ensures { IfOk result (λ table. (m : ℕ) → spec.net_in table.items m ≡ spec.tied items.now m) }
{
    let mut table = Vec::new(alloc);
    for k in (0..items.len()).rev() {
        note_item(&mut table, &items[k])?;
    }
    Ok(table)
}
