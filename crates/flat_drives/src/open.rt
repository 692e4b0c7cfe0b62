//! Outputs without a driver.

ghost use Rattle.std.specs.Prelude.{◌≡◌, ◌<◌, ◌≤◌, ◌||◌, ℕ, length, OnOk, IfOk, IfSome, IfNone};
ghost use Rattle.flat_orders.specs.Orders.{among};
ghost use Rattle.flat_flows.specs.Ranges.{in_range};
ghost use Rattle.flat_raw.specs.Nets.{AreInRow};
ghost use Rattle.flat_drives.specs.Drives as spec;

use crate::bits::{least_net, push_out};
use crate::kinds::{given_bits, row_of};
use crate::offending::driven;
use flat_design::item::FlatItem;
use flat_design::net::Net;
use flat_flows::range::BitRange;
use flat_offences::owner::owners;
use std::alloc::{AllocError, Global};
use std::vec::Vec;

/// Adds the bits of a row.
fn push_range(out: &mut Vec<usize>, range: BitRange) -> Result<(), AllocError>
    ensures { OnOk result ((i : ℕ) → among i out.new.items ≡ (among i out.old.items || in_range range i)) }
{
    for i in range.first..range.end {
        out.push(i)?;
    }
    Ok(())
}

/// The bits of the outputs.
fn output_bits(alloc: Global, nets: &[Net]) -> Result<Vec<usize>, AllocError>
    ensures { IfOk result (λ bits. (i : ℕ) → among i bits.items ≡ spec.output_bits nets.now i) }
{
    let mut out = Vec::new(alloc);
    for net in nets {
        if net.output {
            push_range(&mut out, row_of(net))?;
        }
    }
    Ok(out)
}

/// The first net that has a bit of an output that no item drives and that needs a driver.
pub fn open_net(alloc: Global, nets: &[Net], items: &[FlatItem]) -> Result<Option<u32>, AllocError>
    requires row { AreInRow nets.now }
    requires few { length nets.now < 4294967296 }
    ensures open { IfOk result (λ o. IfSome o (λ n. spec.IsOpen nets.now items.now n)) }
    ensures first { IfOk result (λ o. IfSome o (λ n. (m : ℕ) → spec.IsOpen nets.now items.now m → n ≤ m)) }
    ensures none { IfOk result (λ o. IfNone o ((m : ℕ) → spec.IsOpen nets.now items.now m → ⊥)) }
{
    let owners = owners(alloc, nets)?;
    let driven = driven(alloc, nets, items)?;
    let given = given_bits(alloc, nets)?;
    let outputs = output_bits(alloc, nets)?;
    let mut bits = Vec::new(alloc);
    push_out(&mut bits, outputs.as_slice(), &driven, &given)?;
    let net = least_net(alloc, owners.as_slice(), bits.as_slice())?;
    Ok(net)
}
