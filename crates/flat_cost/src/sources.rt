//! The bits of a design that its circuit takes as they are: those of inputs, hidden inputs and registers.

ghost use Rattle.std.specs.Prelude.{◌≡◌, min, if◌then◌else◌};
ghost use Rattle.flat_design.specs.Prices as spec;
ghost use Rattle.flat_cost.specs.Cuts.{limit};

use crate::price::capped;
use flat_design::net::{Net, NetKind};

/// How many bits a net has where it is a register, else none.
fn register_width(net: &Net) -> u32
    ensures { result ≡ (if spec.is_register net.now.kind then net.now.width else 0) }
{
    match net.kind {
        NetKind::Register => net.width,
        _ => 0,
    }
}

/// How many bits a net has where it is the clock, an input, a hidden input or a register, else none.
fn source_width(net: &Net) -> u32
    ensures { result ≡ (if spec.is_source net.now.kind then net.now.width else 0) }
{
    match net.kind {
        NetKind::Wire => 0,
        _ => net.width,
    }
}

/// How many bits the registers have together, counted up to `LIMIT`.
pub fn register_bits(nets: &[Net]) -> u64
    ensures { result ≡ min (spec.register_bits nets.now) limit }
{
    let mut bits = 0;
    for net in nets {
        bits = capped(bits as u128 + register_width(net) as u128);
    }
    bits
}

/// How many bits the clock, the inputs, the hidden inputs and the registers have together, counted up to `LIMIT`.
pub fn source_bits(nets: &[Net]) -> u64
    ensures { result ≡ min (spec.source_bits nets.now) limit }
{
    let mut bits = 0;
    for net in nets {
        bits = capped(bits as u128 + source_width(net) as u128);
    }
    bits
}
