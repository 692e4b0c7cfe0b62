//! The side of software: what the bus event makes of a field at an edge.

ghost use Rattle.std.specs.Prelude.{◌≡◌, ℕ, ◌<◌, ◌≤◌, ◌^◌, Bool, List};
ghost use Rattle.field_policies.specs.Bits.{AreBitsOf};
ghost use Rattle.reg_machine.specs.Conditions.{AreInputs, AreValues, IsFieldOf, edge_of};
ghost use Rattle.reg_machine.specs.Steps.{has_effect, is_covered, is_enabled, is_read, is_touched, is_written, is_whole, payload_of, reads, software_bit};

use crate::bits::{byte_mask, cut, is_full, is_some_one, mixed};
use crate::expr::is_open;
use apb_rules::event::BusEvent;
use field_policies::effect::{read_result, write_result};
use field_policies::field::Field;
use field_policies::map::RegMap;
use field_policies::policy::{ReadEffect, WriteEffect};

/// Whether the event reads the field's word.
pub fn reads_word(map: &RegMap, event: BusEvent, field: &Field) -> bool
    requires field { IsFieldOf map.now field.now }
    ensures { (values hw : List ℕ) → result ≡ reads (edge_of map.now values hw event) field.now }
{
    match event {
        BusEvent::Read(address) => address == map.words[field.word as usize],
        _ => false,
    }
}

/// The field's bits that the event writes.
pub fn enabled_bits(map: &RegMap, event: BusEvent, field: &Field) -> u32
    requires field { IsFieldOf map.now field.now }
    ensures bits { (values hw : List ℕ) → AreBitsOf field.now.width (is_enabled (edge_of map.now values hw event) field.now) result }
    ensures fits { result < 2 ^ field.now.width }
{
    match event {
        BusEvent::Write {
            address,
            strobe,
            ..
        } => {
            if address == map.words[field.word as usize] {
                cut(byte_mask(strobe), field.lsb, field.width)
            } else {
                0
            }
        }
        _ => 0,
    }
}

/// Whether the event writes some bit of the field.
pub fn is_touched(map: &RegMap, event: BusEvent, field: &Field) -> bool
    requires field { IsFieldOf map.now field.now }
    ensures { (values hw : List ℕ) → result ≡ is_touched (edge_of map.now values hw event) field.now }
{
    is_some_one(enabled_bits(map, event, field), field.width)
}

/// Whether software is active at the field by a write.
#[tactic(auto, unfolding(crate::specs::Steps::is_written))]
pub fn is_written(
    map: &RegMap,
    values: &[u32],
    hw: &[u32],
    event: BusEvent,
    field: &Field,
    used: bool,
) -> bool
    requires field { IsFieldOf map.now field.now }
    requires values { AreValues map.now.fields.items values.now }
    requires hw { AreInputs map.now.inputs.items hw.now }
    ensures { result ≡ is_written (edge_of map.now values.now hw.now event) field.now used }
{
    is_touched(map, event, field)
        && field.writable
        && is_open(map, values, hw, field.sw_gate)
        && !(field.once && used)
}

/// Whether software is active at the field by a read.
pub fn is_read(map: &RegMap, event: BusEvent, field: &Field) -> bool
    requires field { IsFieldOf map.now field.now }
    ensures { (values hw : List ℕ) → result ≡ is_read (edge_of map.now values hw event) field.now }
{
    reads_word(map, event, field) && field.readable && has_effect(field.read)
}

// Whether a read changes the field.
fn has_effect(effect: ReadEffect) -> bool
    ensures { result ≡ has_effect effect }
{
    !matches!(effect, ReadEffect::Keep)
}

/// Whether the effect of a write gives every bit that it is at, whatever the value was.
pub fn is_whole(effect: WriteEffect) -> bool
    ensures { result ≡ is_whole effect }
{
    matches!(
        effect,
        WriteEffect::AsIs | WriteEffect::Clear | WriteEffect::Set
    )
}

/// Whether the event writes every bit of the field.
pub fn is_covered(map: &RegMap, event: BusEvent, field: &Field) -> bool
    requires field { IsFieldOf map.now field.now }
    ensures { (values hw : List ℕ) → result ≡ is_covered (edge_of map.now values hw event) field.now }
{
    is_full(enabled_bits(map, event, field), field.width)
}

/// The value that software gives, where it is active: by a write if `written`, else by a read.
pub fn software_value(
    map: &RegMap,
    event: BusEvent,
    field: &Field,
    value: u32,
    written: bool,
) -> u32
    requires field { IsFieldOf map.now field.now }
    requires value { value < 2 ^ field.now.width }
    ensures { (values hw : List ℕ) (used : Bool) → written ≡ is_written (edge_of map.now values hw event) field.now used
        → AreBitsOf field.now.width (software_bit (edge_of map.now values hw event) field.now used value) result }
{
    if written {
        let payload = cut(payload_of(event), field.lsb, field.width);
        let full = write_result(field.write, field.width, value, payload);
        mixed(enabled_bits(map, event, field), full, value, field.width)
    } else {
        read_result(field.read, field.width, value)
    }
}

// The data of a write.
fn payload_of(event: BusEvent) -> u32
    ensures { result ≡ payload_of event }
{
    match event {
        BusEvent::Write { payload, .. } => payload,
        _ => 0,
    }
}
