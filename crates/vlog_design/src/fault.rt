//! Faults that carry the names of nets.

ghost use Rattle.std.specs.Prelude.{◌≡◌, [], ◌∷◌, IfOk};
ghost use Rattle.vlog_tree.specs.declared.fault.VlogFault.TheVariants.{At};
ghost use Rattle.vlog_tree.specs.declared.fault.VlogCode.TheVariants.{VlogLoop};
ghost use Rattle.vlog_design.specs.Refusals as spec;

use bit_base::place::Place;
use bit_base::text::{Text, text_of};
use flat_checks::cycle::ItemCycle;
use flat_design::net::Net;
use flat_offences::offence::Offence;
use sqlite_items::Items;
use std::alloc::{AllocError, Global};
use vlog_tree::fault::{VlogCode, VlogFault};

/// The path of a net; empty where there is none of this number.
fn net_name(alloc: Global, nets: &[Net], number: u32) -> Result<Text, AllocError>
    ensures { IfOk result (λ name. name ≡ spec.net_name nets.now number) }
{
    match nets.get(number as usize) {
        None => text_of(alloc, &[]),
        Some(net) => net.path.copy(alloc),
    }
}

/// The paths of nets.
fn net_names(alloc: Global, nets: &[Net], numbers: &[u32]) -> Result<Items<Text>, AllocError>
    ensures { IfOk result (λ names. names ≡ spec.net_names nets.now numbers.now) }
{
    let mut names = Items::new(alloc);
    for number in numbers {
        let name = net_name(alloc, nets, *number)?;
        names.push(name)?;
    }
    Ok(names)
}

/// The fault of an offence, with the name of its net and a path.
pub fn path_fault(
    alloc: Global,
    nets: &[Net],
    code: VlogCode,
    offence: Offence,
    path: Items<u32>,
) -> Result<VlogFault, AllocError>
    ensures { IfOk result (λ f. f ≡ At code offence.place (spec.net_name nets.now offence.net ∷ []) path) }
{
    let names = net_names(alloc, nets, &[offence.net])?;
    Ok(VlogFault::At {
        code,
        place: offence.place,
        names,
        path,
    })
}

/// The fault of an offence, with the name of its net.
pub fn offence_fault(
    alloc: Global,
    nets: &[Net],
    code: VlogCode,
    offence: Offence,
) -> Result<VlogFault, AllocError>
    ensures { IfOk result (λ f. f ≡ At code offence.place (spec.net_name nets.now offence.net ∷ []) []) }
{
    path_fault(alloc, nets, code, offence, Items::new(alloc))
}

/// The fault of a cycle of items, with the names of the nets that they assign.
pub fn cycle_fault(alloc: Global, nets: &[Net], cycle: &ItemCycle) -> Result<VlogFault, AllocError>
    ensures { IfOk result (λ f. f ≡ At VlogLoop cycle.now.place (spec.net_names nets.now cycle.now.nets.items) []) }
{
    let names = net_names(alloc, nets, cycle.nets.as_slice())?;
    Ok(VlogFault::At {
        code: VlogCode::VlogLoop,
        place: cycle.place,
        names,
        path: Items::new(alloc),
    })
}
