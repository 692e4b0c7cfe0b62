//! What the fields of a map show to hardware.

ghost use Rattle.std.specs.Prelude.{◌≡◌, ℕ, ◌<◌, ◌^◌, Bool, List, Some, length, slice_get};
ghost use Rattle.std.specs.List.{list_any};
ghost use Rattle.field_policies.specs.Fields.{filter_of, members_of};
ghost use Rattle.reg_machine.specs.Conditions.{AreInputs, AreValues, IsFieldOf, edge_of, view_of};
ghost use Rattle.reg_machine.specs.Machines.{field_output, filter_value, is_accessed, output_width, overflow_of, raises, underflow_of};
ghost use Rattle.reg_machine.specs.Steps.{is_software_active};

use crate::bits::{is_full, is_odd, is_some_one};
use crate::expr::{expr_value, field_at, one_if, value_at};
use crate::hardware::count_of;
use crate::software::{is_read, is_touched, is_written, reads_word};
use apb_rules::event::BusEvent;
use field_extras::interrupt::intr_bits;
use field_policies::extra::Extra;
use field_policies::field::Field;
use field_policies::map::RegMap;
use field_policies::signal::{Gate, OutSignal};

/// What a field with this value and used flag gives at an output.
pub fn field_output(
    map: &RegMap,
    values: &[u32],
    hw: &[u32],
    event: BusEvent,
    field: &Field,
    value: u32,
    used: bool,
    signal: OutSignal,
) -> u32
    requires field { IsFieldOf map.now field.now }
    requires values { AreValues map.now.fields.items values.now }
    requires hw { AreInputs map.now.inputs.items hw.now }
    requires value { value < 2 ^ field.now.width }
    ensures value { result ≡ field_output (edge_of map.now values.now hw.now event) field.now value used signal }
    ensures fits { result < 2 ^ output_width field.now signal }
{
    match signal {
        OutSignal::Value => value,
        OutSignal::SwMod => one_if(is_active(map, values, hw, event, field, used)),
        OutSignal::SwAcc => one_if(is_accessed(map, event, field)),
        OutSignal::Anded => one_if(is_full(value, field.width)),
        OutSignal::Ored => one_if(is_some_one(value, field.width)),
        OutSignal::Xored => one_if(is_odd(value, field.width)),
        OutSignal::Overflow => one_if(overflows(map, values, hw, field, value)),
        OutSignal::Underflow => one_if(underflows(map, values, hw, field, value)),
        OutSignal::Intr => one_if(raises_any(map, values, hw, field)),
    }
}

// Whether software is active at the field.
fn is_active(
    map: &RegMap,
    values: &[u32],
    hw: &[u32],
    event: BusEvent,
    field: &Field,
    used: bool,
) -> bool
    requires field { IsFieldOf map.now field.now }
    requires values { AreValues map.now.fields.items values.now }
    requires hw { AreInputs map.now.inputs.items hw.now }
    ensures { result ≡ is_software_active (edge_of map.now values.now hw.now event) field.now used }
{
    is_written(map, values, hw, event, field, used) | is_read(map, event, field)
}

// Whether software is at the field.
fn is_accessed(map: &RegMap, event: BusEvent, field: &Field) -> bool
    requires field { IsFieldOf map.now field.now }
    ensures { (values hw : List ℕ) → result ≡ is_accessed (edge_of map.now values hw event) field.now }
{
    (reads_word(map, event, field) & field.readable)
        | (is_touched(map, event, field) & field.writable)
}

// Whether the count of a counter passes its greatest value at this edge.
fn overflows(map: &RegMap, values: &[u32], hw: &[u32], field: &Field, value: u32) -> bool
    requires field { IsFieldOf map.now field.now }
    requires values { AreValues map.now.fields.items values.now }
    requires hw { AreInputs map.now.inputs.items hw.now }
    requires value { value < 2 ^ field.now.width }
    ensures { result ≡ overflow_of (view_of map.now values.now hw.now) field.now value field.now.extra }
{
    match &field.extra {
        Extra::Counter(counter) => count_of(map, values, hw, field, counter, value).over,
        _ => false,
    }
}

// Whether the count of a counter falls below 0 at this edge.
fn underflows(map: &RegMap, values: &[u32], hw: &[u32], field: &Field, value: u32) -> bool
    requires field { IsFieldOf map.now field.now }
    requires values { AreValues map.now.fields.items values.now }
    requires hw { AreInputs map.now.inputs.items hw.now }
    requires value { value < 2 ^ field.now.width }
    ensures { result ≡ underflow_of (view_of map.now values.now hw.now) field.now value field.now.extra }
{
    match &field.extra {
        Extra::Counter(counter) => count_of(map, values, hw, field, counter, value).under,
        _ => false,
    }
}

// Whether one of the register's interrupt fields raises its interrupt.
fn raises_any(map: &RegMap, values: &[u32], hw: &[u32], field: &Field) -> bool
    requires field { IsFieldOf map.now field.now }
    requires values { AreValues map.now.fields.items values.now }
    requires hw { AreInputs map.now.inputs.items hw.now }
    ensures { result ≡ list_any (raises (view_of map.now values.now hw.now)) (members_of field.now.extra) }
{
    match &field.extra {
        Extra::Intr(intr) => raises_one_of(map, values, hw, intr.members.as_slice()),
        _ => false,
    }
}

// Whether one of the fields of these numbers does.
fn raises_one_of(map: &RegMap, values: &[u32], hw: &[u32], members: &[u32]) -> bool
    requires members { (i k : ℕ) → slice_get members.now i ≡ Some k → k < length map.now.fields.items }
    requires values { AreValues map.now.fields.items values.now }
    requires hw { AreInputs map.now.inputs.items hw.now }
    ensures { result ≡ list_any (raises (view_of map.now values.now hw.now)) members.now }
{
    let mut raised = false;
    for member in members {
        raised = raised | raises(map, values, hw, *member as usize);
    }
    raised
}

// Whether the interrupt field of this number raises the interrupt of its register.
fn raises(map: &RegMap, values: &[u32], hw: &[u32], number: usize) -> bool
    requires there { number < length map.now.fields.items }
    requires values { AreValues map.now.fields.items values.now }
    requires hw { AreInputs map.now.inputs.items hw.now }
    ensures { result ≡ raises (view_of map.now values.now hw.now) number }
{
    let field = field_at(map, number);
    let value = value_at(map, values, hw, number);
    match &field.extra {
        Extra::Intr(intr) => {
            let filter = filter_value(map, values, hw, field, intr.filter);
            intr_bits(intr, field.width, value, filter) != 0
        }
        _ => value != 0,
    }
}

// The value of what cuts the bits of an interrupt field, 0 where nothing does.
fn filter_value(
    map: &RegMap,
    values: &[u32],
    hw: &[u32],
    field: &Field,
    filter: Option<Gate>,
) -> u32
    requires field { IsFieldOf map.now field.now }
    requires filter { filter ≡ filter_of field.now.extra }
    requires values { AreValues map.now.fields.items values.now }
    requires hw { AreInputs map.now.inputs.items hw.now }
    ensures value { result ≡ filter_value (view_of map.now values.now hw.now) filter }
    ensures fits { result < 2 ^ field.now.width }
{
    match filter {
        Some(gate) => expr_value(map, values, hw, gate.expr),
        None => 0,
    }
}
