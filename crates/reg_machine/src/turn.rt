//! The field step: the two sides joined.

ghost use Rattle.std.specs.Prelude.{◌≡◌, ℕ, ◌<◌, ◌^◌, Bool, List};
ghost use Rattle.field_policies.specs.Bits.{AreBitsOf};
ghost use Rattle.reg_machine.specs.Conditions.{AreInputs, AreValues, IsFieldOf, edge_of};
ghost use Rattle.reg_machine.specs.Steps.{becomes_known, next_bit, next_known, next_used};
ghost use Rattle.reg_machine.specs.Turns.{IsTurnOf};

use crate::expr::is_given;
use crate::hardware::{hardware_side, is_taken};
use crate::software::{is_covered, is_read, is_whole, is_written, software_value};
use crate::step::{FieldState, Turn};
use apb_rules::event::BusEvent;
use field_policies::field::Field;
use field_policies::map::RegMap;

/// A stored field after an edge, from what it was before.
pub fn field_next(
    map: &RegMap,
    values: &[u32],
    hw: &[u32],
    event: BusEvent,
    field: &Field,
    state: FieldState,
) -> FieldState
    requires field { IsFieldOf map.now field.now }
    requires values { AreValues map.now.fields.items values.now }
    requires hw { AreInputs map.now.inputs.items hw.now }
    requires value { state.value < 2 ^ field.now.width }
    ensures value { AreBitsOf field.now.width (next_bit (edge_of map.now values.now hw.now event) field.now state.used state.value) result.value }
    ensures used { result.used ≡ next_used (edge_of map.now values.now hw.now event) field.now state.used }
    ensures known { result.known ≡ next_known (edge_of map.now values.now hw.now event) field.now state.used state.known state.value }
{
    let turn = turn_of(map, values, hw, event, field, state);
    let becomes_known = becomes_known(map, values, hw, event, field, state, turn);
    FieldState {
        value: next_value(map, values, hw, event, field, state, turn),
        used: state.used | (field.once & turn.written),
        known: state.known | becomes_known,
    }
}

/// The two sides of a field at an edge.
pub fn turn_of(
    map: &RegMap,
    values: &[u32],
    hw: &[u32],
    event: BusEvent,
    field: &Field,
    state: FieldState,
) -> Turn
    requires field { IsFieldOf map.now field.now }
    requires values { AreValues map.now.fields.items values.now }
    requires hw { AreInputs map.now.inputs.items hw.now }
    requires value { state.value < 2 ^ field.now.width }
    ensures { IsTurnOf (edge_of map.now values.now hw.now event) field.now state.used state.value result }
{
    let written = is_written(map, values, hw, event, field, state.used);
    let read = is_read(map, event, field);
    let hardware = hardware_side(map, values, hw, field, state.value);
    let software = written | read;
    Turn {
        written,
        software,
        hardware,
        by_software: software & !(field.hw_first & hardware.active),
        by_hardware: hardware.active & (field.hw_first | !software),
    }
}

// The value: that of the side that gives it, else the old one, and 0 where a single pulse falls.
fn next_value(
    map: &RegMap,
    values: &[u32],
    hw: &[u32],
    event: BusEvent,
    field: &Field,
    state: FieldState,
    turn: Turn,
) -> u32
    requires field { IsFieldOf map.now field.now }
    requires value { state.value < 2 ^ field.now.width }
    requires turn { IsTurnOf (edge_of map.now values.now hw.now event) field.now state.used state.value turn }
    ensures { AreBitsOf field.now.width (next_bit (edge_of map.now values.now hw.now event) field.now state.used state.value) result }
{
    if turn.by_software {
        software_value(map, event, field, state.value, turn.written)
    } else if turn.by_hardware {
        turn.hardware.value
    } else if field.pulse {
        0
    } else {
        state.value
    }
}

// Whether the field's value is known from this edge on, whatever it was.
fn becomes_known(
    map: &RegMap,
    values: &[u32],
    hw: &[u32],
    event: BusEvent,
    field: &Field,
    state: FieldState,
    turn: Turn,
) -> bool
    requires field { IsFieldOf map.now field.now }
    requires values { AreValues map.now.fields.items values.now }
    requires hw { AreInputs map.now.inputs.items hw.now }
    requires turn { IsTurnOf (edge_of map.now values.now hw.now event) field.now state.used state.value turn }
    ensures { result ≡ becomes_known (edge_of map.now values.now hw.now event) field.now state.used state.value }
{
    let every_bit = !turn.written | (is_whole(field.write) & is_covered(map, event, field));
    let taken = is_taken(map, values, hw, field);
    let set = is_given(map, values, hw, field.set);
    let clear = is_given(map, values, hw, field.clear);
    let by_hardware = turn.by_hardware & (taken | set | clear) & field.bit_gate.is_none();
    let falls = !turn.software & !turn.hardware.active & field.pulse;
    (turn.by_software & every_bit) | by_hardware | falls
}
