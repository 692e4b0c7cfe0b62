//! The top inputs to which chains of plain port connections lead.

ghost use Rattle.std.specs.Prelude.{◌≡◌, ◌<◌, ℕ, List, Bool, false, length, replicate, OnOk, IfOk};
ghost use Rattle.flat_design.specs.Bits.{net_at};
ghost use Rattle.flat_drives.specs.Drives.{is_input};
ghost use Rattle.flat_ties.specs.Ties as tie_spec;
ghost use Rattle.flat_ties.specs.Sources as spec;
ghost use Rattle.flat_design.specs.declared.item.FlatItem.{FlatItem as ItemOf};

use crate::tie::{net_in, ties};
use flat_design::item::FlatItem;
use flat_design::net::{Net, NetKind};
use flat_sets::NumberSet;
use std::alloc::{AllocError, Global};
use std::vec::Vec;

/// Whether a number is that of a top input.
fn is_input(nets: &[Net], number: u32) -> bool
    ensures { result ≡ is_input (net_at nets.now number).kind }
{
    match nets.get(number as usize) {
        None => false,
        Some(net) => match net.kind {
            NetKind::Clock | NetKind::Input => true,
            _ => false,
        },
    }
}

/// The source of a net: the top input to which a chain of plain port connections leads from it. The set is empty before.
fn source_of(
    nets: &[Net],
    ties: &[Option<u32>],
    seen: &mut NumberSet,
    net: u32,
) -> Result<Option<u32>, AllocError>
    requires empty { seen.old ≡ replicate (length nets.now) false }
    ensures long { OnOk result (length seen.new ≡ length seen.old) }
    ensures source { (items : List ItemOf) → ((m : ℕ) → tie_spec.net_in ties.now m ≡ tie_spec.tied items m) → IfOk result (λ o. spec.IsSourceOf nets.now items net o) }
{
    let mut at = net;
    for _step in 0..nets.len() {
        if is_input(nets, at) {
            return Ok(Some(at));
        }
        if at as usize >= seen.bound() || seen.has(at as usize) {
            return Ok(None);
        }
        seen.add(at as usize)?;
        match net_in(ties, at) {
            None => return Ok(None),
            Some(next) => at = next,
        }
    }
    Ok(None)
}

/// For each net its source: the top input to which a chain of plain port connections leads from it.
pub fn sources(
    alloc: Global,
    nets: &[Net],
    items: &[FlatItem],
) -> Result<Vec<Option<u32>>, AllocError>
    requires few { length nets.now < 4294967296 }
    ensures { IfOk result (λ sources. spec.AreSources nets.now items.now sources.items) }
{
    let ties = ties(alloc, items)?;
    let mut seen = NumberSet::empty(alloc, nets.len())?;
    let mut out = Vec::new(alloc);
    for number in 0..nets.len() {
        let source = source_of(nets, ties.as_slice(), &mut seen, number as u32)?;
        seen.clear();
        out.push(source)?;
    }
    Ok(out)
}
