//! The side of hardware: what it makes of a field at an edge.

ghost use Rattle.std.specs.Prelude.{◌≡◌, ℕ, ◌<◌, ◌≤◌, ◌^◌, true, false, if◌then◌else◌, List};
ghost use Rattle.field_policies.specs.Bits.{bit, AreBitsOf};
ghost use Rattle.reg_machine.specs.Conditions.{AreInputs, AreValues, IsFieldOf, view_of};
ghost use Rattle.reg_machine.specs.Steps.{count_of, counter_side, hardware_bit, interrupt_side, is_hardware_active, is_taken, plain_side, side_of};

use crate::bits::mixed;
use crate::expr::{input_of, is_given, is_open, open_bits};
use field_extras::counter::{Counted, count_next};
use field_extras::interrupt::intr_next;
use field_policies::effect::ones;
use field_policies::extra::{Counter, Extra, Intr};
use field_policies::field::Field;
use field_policies::map::RegMap;

/// One side of a field at an edge: whether it is active, and the value that it gives.
#[derive(Clone, Copy, Drop)]
pub struct Side {
    pub active: bool,
    pub value: u32,
}

/// Whether the field takes its data.
pub fn is_taken(map: &RegMap, values: &[u32], hw: &[u32], field: &Field) -> bool
    requires field { IsFieldOf map.now field.now }
    requires values { AreValues map.now.fields.items values.now }
    requires hw { AreInputs map.now.inputs.items hw.now }
    ensures { result ≡ is_taken (view_of map.now values.now hw.now) field.now }
{
    field.data_in.is_some() && is_open(map, values, hw, field.data_gate)
}

/// What the field's hardware makes of it.
pub fn hardware_side(map: &RegMap, values: &[u32], hw: &[u32], field: &Field, value: u32) -> Side
    requires field { IsFieldOf map.now field.now }
    requires values { AreValues map.now.fields.items values.now }
    requires hw { AreInputs map.now.inputs.items hw.now }
    requires value { value < 2 ^ field.now.width }
    ensures active { result.active ≡ is_hardware_active (view_of map.now values.now hw.now) field.now value }
    ensures bits { AreBitsOf field.now.width (hardware_bit (view_of map.now values.now hw.now) field.now value) result.value }
{
    let side = ungated_side(map, values, hw, field, value);
    let open = open_bits(map, values, hw, field.bit_gate, field.width);
    let value = mixed(open, side.value, value, field.width);
    Side {
        active: side.active,
        value,
    }
}

// The same where no bit is shut.
fn ungated_side(map: &RegMap, values: &[u32], hw: &[u32], field: &Field, value: u32) -> Side
    requires field { IsFieldOf map.now field.now }
    requires values { AreValues map.now.fields.items values.now }
    requires hw { AreInputs map.now.inputs.items hw.now }
    requires value { value < 2 ^ field.now.width }
    ensures active { result.active ≡ (side_of (view_of map.now values.now hw.now) field.now value field.now.extra).active }
    ensures bits { AreBitsOf field.now.width (side_of (view_of map.now values.now hw.now) field.now value field.now.extra).bits result.value }
{
    match &field.extra {
        Extra::Plain => plain_side(map, values, hw, field, value),
        Extra::Counter(counter) => counter_side(map, values, hw, field, counter, value),
        Extra::Intr(intr) => intr_side(map, hw, field, intr, value),
    }
}

// A plain field takes its data, then ones, then 0.
fn plain_side(map: &RegMap, values: &[u32], hw: &[u32], field: &Field, value: u32) -> Side
    requires field { IsFieldOf map.now field.now }
    requires values { AreValues map.now.fields.items values.now }
    requires hw { AreInputs map.now.inputs.items hw.now }
    requires value { value < 2 ^ field.now.width }
    ensures active { result.active ≡ (plain_side (view_of map.now values.now hw.now) field.now value).active }
    ensures bits { AreBitsOf field.now.width (plain_side (view_of map.now values.now hw.now) field.now value).bits result.value }
{
    let taken = is_taken(map, values, hw, field);
    let set = is_given(map, values, hw, field.set);
    let clear = is_given(map, values, hw, field.clear);
    let data = if taken {
        input_of(map, field, hw)
    } else {
        value
    };
    Side {
        active: taken || set || clear,
        value: overridden(data, set, clear, field.width),
    }
}

// A counter takes its count, then ones, then 0.
fn counter_side(
    map: &RegMap,
    values: &[u32],
    hw: &[u32],
    field: &Field,
    counter: &Counter,
    value: u32,
) -> Side
    requires field { IsFieldOf map.now field.now }
    requires counter { field.now.extra ≡ Extra.Counter counter.now }
    requires values { AreValues map.now.fields.items values.now }
    requires hw { AreInputs map.now.inputs.items hw.now }
    requires value { value < 2 ^ field.now.width }
    ensures active { result.active ≡ (counter_side (view_of map.now values.now hw.now) field.now counter.now value).active }
    ensures bits { AreBitsOf field.now.width (counter_side (view_of map.now values.now hw.now) field.now counter.now value).bits result.value }
{
    let incr = is_given(map, values, hw, counter.incr);
    let decr = is_given(map, values, hw, counter.decr);
    let set = is_given(map, values, hw, field.set);
    let clear = is_given(map, values, hw, field.clear);
    let counted = count_of(map, values, hw, field, counter, value);
    Side {
        active: incr || decr || set || clear,
        value: overridden(counted.value, set, clear, field.width),
    }
}

/// A counter's step at the edge.
pub fn count_of(
    map: &RegMap,
    values: &[u32],
    hw: &[u32],
    field: &Field,
    counter: &Counter,
    value: u32,
) -> Counted
    requires field { IsFieldOf map.now field.now }
    requires counter { field.now.extra ≡ Extra.Counter counter.now }
    requires values { AreValues map.now.fields.items values.now }
    requires hw { AreInputs map.now.inputs.items hw.now }
    requires value { value < 2 ^ field.now.width }
    ensures step { result ≡ count_of (view_of map.now values.now hw.now) field.now counter.now value }
    ensures fits { result.value < 2 ^ field.now.width }
{
    let incr = is_given(map, values, hw, counter.incr);
    let decr = is_given(map, values, hw, counter.decr);
    count_next(counter, field.width, value, incr, decr)
}

// An interrupt field takes what its step gives.
fn intr_side(map: &RegMap, hw: &[u32], field: &Field, intr: &Intr, value: u32) -> Side
    requires field { IsFieldOf map.now field.now }
    requires hw { AreInputs map.now.inputs.items hw.now }
    requires value { value < 2 ^ field.now.width }
    ensures active { (values : List ℕ) → result.active ≡ (interrupt_side (view_of map.now values hw.now) field.now intr.now value).active }
    ensures bits { (values : List ℕ) → AreBitsOf field.now.width (interrupt_side (view_of map.now values hw.now) field.now intr.now value).bits result.value }
{
    match intr_next(intr, value, input_of(map, field, hw)) {
        Some(next) => Side {
            active: true,
            value: next,
        },
        None => Side {
            active: false,
            value,
        },
    }
}

// The value with ones where `set`, then 0 where `clear`.
fn overridden(value: u32, set: bool, clear: bool, width: u32) -> u32
    requires some { 1 ≤ width }
    requires word { width ≤ 32 }
    requires value { value < 2 ^ width }
    ensures { AreBitsOf width (λ i. if clear then false else (if set then true else bit value i)) result }
{
    if clear {
        0
    } else if set {
        ones(width)
    } else {
        value
    }
}
