//! What software's accesses make of a field's value.

ghost use Rattle.std.specs.Prelude.{◌≡◌, ◌<◌, ◌≤◌, ◌^◌, ◌-◌};
ghost use Rattle.field_policies.specs.Bits.{bit, AreBitsOf};
ghost use Rattle.field_policies.specs.Policies.{write_bit, read_bit};

use crate::policy::{ReadEffect, WriteEffect};

// The arms of an effect: each variant once, with the number that it gives.
macro_rules! effect_arms {
    ($effect:expr, $kind:ident { $($variant:ident => $number:expr),+ $(,)? }) => {
        match $effect { $($kind::$variant => $number),+ }
    };
}

/// The number of `width` bits that are all 1.
pub fn ones(width: u32) -> u32
    requires some { 1 ≤ width }
    requires word { width ≤ 32 }
    ensures { result ≡ 2 ^ width - 1 }
{
    u32::MAX >> (32 - width)
}

/// The value of a field of `width` bits, 1 to 32, after a write of `payload` with this effect.
pub fn write_result(effect: WriteEffect, width: u32, value: u32, payload: u32) -> u32
    requires some { 1 ≤ width }
    requires word { width ≤ 32 }
    requires value { value < 2 ^ width }
    requires payload { payload < 2 ^ width }
    ensures { AreBitsOf width (λ i. write_bit effect (bit value i) (bit payload i)) result }
{
    let full = ones(width);
    effect_arms!(effect, WriteEffect {
        AsIs => payload,
        OneSet => value | payload,
        OneClear => value & (payload ^ full),
        OneToggle => value ^ payload,
        ZeroSet => value | (payload ^ full),
        ZeroClear => value & payload,
        ZeroToggle => (value ^ payload) ^ full,
        Clear => 0,
        Set => full,
    })
}

/// The value of a field of `width` bits, 1 to 32, after a read with this effect.
pub fn read_result(effect: ReadEffect, width: u32, value: u32) -> u32
    requires some { 1 ≤ width }
    requires word { width ≤ 32 }
    requires value { value < 2 ^ width }
    ensures { AreBitsOf width (λ i. read_bit effect (bit value i)) result }
{
    let full = ones(width);
    effect_arms!(effect, ReadEffect {
        Keep => value,
        Clear => 0,
        Set => full,
    })
}
