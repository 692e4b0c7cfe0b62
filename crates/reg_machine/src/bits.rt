//! Numbers made bit by bit.

ghost use Rattle.std.specs.Prelude.{◌≡◌, ◌+◌, ◌-◌, ◌/◌, ◌≤◌, ◌<◌, ◌^◌, ◌&&◌, nat_le, nat_lt, if◌then◌else◌};
ghost use Rattle.reg_machine.specs.Bytes.{in_byte};
ghost use Rattle.field_policies.specs.Bits.{bit, all_below, any_below, odd_below, AreBitsOf};

use field_policies::effect::ones;

/// Whether bit `i` is 1.
pub fn is_one(number: u32, i: u32) -> bool
    requires { i < 32 }
    ensures { result ≡ bit number i }
{
    (number >> i) & 1 == 1
}

/// The `width` bits from `low` on.
pub fn cut(number: u32, low: u32, width: u32) -> u32
    requires some { 1 ≤ width }
    requires inside { low + width ≤ 32 }
    ensures { AreBitsOf width (λ i. bit number (low + i)) result }
{
    (number >> low) & ones(width)
}

/// The bits of a field at its place in a word.
pub fn placed(value: u32, low: u32, width: u32, word: u32) -> u32
    requires value { value < 2 ^ width }
    requires inside { low + width ≤ word }
    requires word { word ≤ 32 }
    requires some { 1 ≤ width }
    ensures { AreBitsOf word (λ j. nat_le low j && nat_lt j (low + width) && bit value (j - low)) result }
{
    value << low
}

/// A 1 at each bit of a field's place in a word.
pub fn span(low: u32, width: u32, word: u32) -> u32
    requires inside { low + width ≤ word }
    requires word { word ≤ 32 }
    requires some { 1 ≤ width }
    ensures { AreBitsOf word (λ j. nat_le low j && nat_lt j (low + width)) result }
{
    placed(ones(width), low, width, word)
}

/// `yes` at the bits that are 1 in `mask`, and `no` at the others.
pub fn mixed(mask: u32, yes: u32, no: u32, width: u32) -> u32
    requires some { 1 ≤ width }
    requires word { width ≤ 32 }
    requires mask { mask < 2 ^ width }
    requires yes { yes < 2 ^ width }
    requires no { no < 2 ^ width }
    ensures { AreBitsOf width (λ i. if bit mask i then bit yes i else bit no i) result }
{
    (yes & mask) | (no & (mask ^ ones(width)))
}

/// A 1 at each of the 32 bits whose byte has a 1 in `strobe`.
pub fn byte_mask(strobe: u32) -> u32
    ensures { AreBitsOf 32 (λ j. bit strobe (j / 8)) result }
{
    let low = byte_at(strobe, 0) | byte_at(strobe, 1);
    low | byte_at(strobe, 2) | byte_at(strobe, 3)
}

// The 1s of byte `k`, where its bit of `strobe` is 1.
fn byte_at(strobe: u32, k: u32) -> u32
    requires { k < 4 }
    ensures { AreBitsOf 32 (in_byte strobe k) result }
{
    if is_one(strobe, k) {
        placed(0xFF, 8 * k, 8, 32)
    } else {
        0
    }
}

/// Whether every one of the first `width` bits is 1.
pub fn is_full(value: u32, width: u32) -> bool
    requires some { 1 ≤ width }
    requires word { width ≤ 32 }
    requires value { value < 2 ^ width }
    ensures { result ≡ all_below width (bit value) }
{
    value == ones(width)
}

/// Whether some of the first `width` bits is 1.
pub fn is_some_one(value: u32, width: u32) -> bool
    requires value { value < 2 ^ width }
    ensures { result ≡ any_below width (bit value) }
{
    value != 0
}

/// Whether an odd number of the first `width` bits are 1.
pub fn is_odd(value: u32, width: u32) -> bool
    requires { width ≤ 32 }
    ensures { result ≡ odd_below width (bit value) }
{
    let mut odd = false;
    for i in 0..width {
        odd = odd != is_one(value, i);
    }
    odd
}
