//! One field, by the trail to it.

ghost use Rattle.std.specs.Prelude.{◌≡◌, ◌≤◌, IfOk};
ghost use Rattle.rdl_fields.specs.Fields as spec;

use crate::named::{NamedField, Spot};
use crate::part::{extra_at, hardware_at, inputs_at, shown_at, software_at, start_at};
use crate::path::path_at;
use rdl_values::field::width_at;
use rdl_values::frame::Frame;
use std::alloc::{AllocError, Global};

// The address of the bus word of a register's bit.
#[tactic(auto, using(crate::proofs::Words::bytes_below))]
fn word_of(register: u64, access: u64, low: u64) -> u64
    requires register { register ≤ 4294967297 }
    requires low { low ≤ 129 }
    ensures { result ≡ spec.word_of register access low }
{
    if access == 0 {
        register
    } else {
        register + access / 8 * (low / access)
    }
}

fn bit_of(access: u64, low: u64) -> u64
    ensures { result ≡ spec.bit_of access low }
{
    if access == 0 { low } else { low % access }
}

/// The field at the end of a trail, in a register at this address with accesses of so many bits, with
/// this lowest bit in it.
pub fn field_at(
    alloc: Global,
    register: u64,
    access: u64,
    low: u64,
    trail: &[Frame<'_>],
) -> Result<NamedField, AllocError>
    requires register { register ≤ 4294967297 }
    requires low { low ≤ 129 }
    ensures { IfOk result (λ f. f ≡ spec.field_at register access low trail.now) }
{
    let path = path_at(alloc, trail)?;
    let software = software_at(alloc, trail)?;
    let hardware = hardware_at(alloc, trail)?;
    let extra = extra_at(alloc, trail)?;
    Ok(NamedField {
        path,
        spot: Spot {
            register,
            word: word_of(register, access, low),
            lsb: bit_of(access, low),
            width: width_at(trail),
        },
        software,
        hardware,
        start: start_at(trail),
        extra,
        inputs: inputs_at(trail),
        shown: shown_at(trail),
    })
}
