//! The nets that flat bits belong to.

ghost use Rattle.std.specs.Prelude.{◌≡◌, ◌<◌, ◌++◌, replicate, length, IfOk, OnOk};
ghost use Rattle.flat_raw.specs.Nets.{AreInRow};
ghost use Rattle.flat_offences.specs.Owners.{AreOwners};

use flat_design::net::Net;
use std::alloc::{AllocError, Global};
use std::vec::Vec;

/// Puts a number to the end, so many times.
fn push_times(out: &mut Vec<u32>, number: u32, count: u32) -> Result<(), AllocError>
    ensures { OnOk result (out.new.items ≡ out.old.items ++ replicate count number) }
{
    for _time in 0..count {
        out.push(number)?;
    }
    Ok(())
}

/// The net of each flat bit.
pub fn owners(alloc: Global, nets: &[Net]) -> Result<Vec<u32>, AllocError>
    requires row { AreInRow nets.now }
    requires few { length nets.now < 4294967296 }
    ensures { IfOk result (λ owners. AreOwners nets.now owners.items) }
{
    let mut out = Vec::new(alloc);
    for number in 0..nets.len() {
        push_times(&mut out, number as u32, nets[number].width)?;
    }
    Ok(out)
}
