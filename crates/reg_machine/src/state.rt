//! The next state, beside the old one.

ghost use Rattle.std.specs.Prelude.{◌≡◌, ℕ, ◌<◌, ◌≤◌, ◌^◌, Some, if◌then◌else◌, length, slice_get, slice_index, take};
ghost use Rattle.reg_machine.specs.Conditions.{AreInputs, AreValues, edge_of};
ghost use Rattle.reg_machine.specs.Nexts.{AreNext, IsNextState};

use crate::expr::field_at;
use crate::step::FieldState;
use crate::turn::field_next;
use apb_rules::event::BusEvent;
use field_policies::field::Field;
use field_policies::map::RegMap;
use std::vec::Vec;

/// The field of this number after an edge; a wire keeps its entry.
pub fn state_next(
    map: &RegMap,
    values: &[u32],
    hw: &[u32],
    event: BusEvent,
    number: usize,
    used: bool,
    known: bool,
) -> FieldState
    requires there { number < length map.now.fields.items }
    requires values { AreValues map.now.fields.items values.now }
    requires hw { AreInputs map.now.inputs.items hw.now }
    ensures { (f : Field) → slice_get map.now.fields.items number ≡ Some f
        → IsNextState (edge_of map.now values.now hw.now event) f (slice_index values.now number) used known result.value result.used result.known }
{
    let field = field_at(map, number);
    let value = values[number];
    let state = FieldState { value, used, known };
    let next = field_next(map, values, hw, event, field, state);
    FieldState {
        value: if field.wire { value } else { next.value },
        used: next.used,
        known: next.known,
    }
}

/// Every field after an edge: the values into `next`, the flags in their place.
pub fn next_state(
    map: &RegMap,
    values: &[u32],
    hw: &[u32],
    event: BusEvent,
    used: &mut [bool],
    known: &mut [bool],
    next: &mut [u32],
)
    requires values { AreValues map.now.fields.items values.now }
    requires hw { AreInputs map.now.inputs.items hw.now }
    requires used { length used.old ≡ length map.now.fields.items }
    requires known { length known.old ≡ length map.now.fields.items }
    requires room { length map.now.fields.items ≤ length next.old }
    ensures { AreNext (edge_of map.now values.now hw.now event) values.now used.old known.old (length map.now.fields.items) next.new used.new known.new }
{
    for number in 0..map.fields.len() {
        let state = state_next(map, values, hw, event, number, used[number], known[number]);
        next[number] = state.value;
        used[number] = state.used;
        known[number] = state.known;
    }
}

/// The same over the lists of a machine.
pub fn step_flags(
    map: &RegMap,
    values: &[u32],
    hw: &[u32],
    event: BusEvent,
    used: &mut Vec<bool>,
    known: &mut Vec<bool>,
    next: &mut [u32],
)
    requires values { AreValues map.now.fields.items values.now }
    requires hw { AreInputs map.now.inputs.items hw.now }
    requires used { length used.old.items ≡ length map.now.fields.items }
    requires known { length known.old.items ≡ length map.now.fields.items }
    requires room { length map.now.fields.items ≤ length next.old }
    ensures next { AreNext (edge_of map.now values.now hw.now event) values.now used.old.items known.old.items (length map.now.fields.items) next.new used.new.items known.new.items }
    ensures used_kept { length used.new.items ≡ length used.old.items }
    ensures known_kept { length known.new.items ≡ length known.old.items }
{
    next_state(
        map,
        values,
        hw,
        event,
        used.as_mut_slice(),
        known.as_mut_slice(),
        next,
    );
}

// Puts the first of the new values in place of the old ones.
fn replace(values: &mut [u32], next: &[u32])
    requires { length values.old ≤ length next.now }
    ensures { values.new ≡ take (length values.old) next.now }
{
    let count = values.len();
    values.copy_from_slice(&next[..count]);
}

/// Puts the first of the new values in place of the old ones.
pub fn replace_all(values: &mut Vec<u32>, next: &[u32])
    requires { length values.old.items ≤ length next.now }
    ensures { values.new.items ≡ take (length values.old.items) next.now }
{
    replace(values.as_mut_slice(), next);
}

/// The value of a field after reset; 0 for a wire.
pub fn reset_value(field: &Field) -> u32
    ensures { result ≡ (if field.now.wire then 0 else field.now.reset) }
{
    if field.wire { 0 } else { field.reset }
}
