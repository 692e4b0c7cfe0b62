//! The step of an interrupt field, and the bits that it raises.

ghost use Rattle.std.specs.Prelude.{◌≡◌, ◌≤◌, ◌<◌, ◌^◌, ◌↔◌, ℕ, IsSome, IfSome};
ghost use Rattle.field_extras.specs.Interrupts.{IsActive, interrupt_result, interrupt_bits};

use field_policies::extra::Intr;

/// What hardware makes of an interrupt field with this value before the edge, where `payload` is
/// the data; none where hardware isn't active.
#[tactic(auto, using(std::proofs::lemmas::Nat::or_lt))]
pub fn intr_next(intr: &Intr, value: u32, payload: u32) -> Option<u32>
    ensures exact { result ≡ interrupt_result intr.now.sticky value payload }
    ensures active { IsSome result ↔ IsActive intr.now.sticky value payload }
    ensures in_range { (width : ℕ) → value < 2 ^ width → payload < 2 ^ width → IfSome result (λ next. next < 2 ^ width) }
{
    if payload == 0 {
        None
    } else if !intr.sticky {
        Some(value | payload)
    } else if value == 0 {
        Some(payload)
    } else {
        None
    }
}

/// The bits of an interrupt field of `width` bits, 1 to 32, that reach the interrupt of its
/// register, where `filter` is the value of its `enable` or `mask`.
#[tactic(auto, using(std::proofs::lemmas::Nat::and_le_l))]
pub fn intr_bits(intr: &Intr, width: u32, value: u32, filter: u32) -> u32
    requires width_from { 1 ≤ width }
    requires width_to { width ≤ 32 }
    requires value { value < 2 ^ width }
    requires filter { filter < 2 ^ width }
    ensures exact { result ≡ interrupt_bits intr.now.filter width value filter }
    ensures in_range { result < 2 ^ width }
{
    let all = ((1_u64 << width) - 1) as u32;
    match intr.filter {
        None => value,
        Some(gate) if gate.high => value & filter,
        Some(_) => value & (all - filter),
    }
}
