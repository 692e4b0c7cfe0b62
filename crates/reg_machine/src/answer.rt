//! What the fields of a map show to the bus.

ghost use Rattle.std.specs.Prelude.{◌≡◌, ℕ, ◌<◌, ◌≤◌, ◌&&◌, Bool, List, length};
ghost use Rattle.field_policies.specs.Bits.{AreBitsOf};
ghost use Rattle.reg_machine.specs.Conditions.{AreInputs, AreValues, IsFieldOf, edge_of};
ghost use Rattle.reg_machine.specs.Machines.{answer_bit, hidden_bit, hides, is_unmapped, shows_one};

use crate::bits::{placed, span};
use crate::expr::{field_at, value_at};
use crate::software::reads_word;
use apb_rules::event::BusEvent;
use field_policies::map::RegMap;

/// The bits of the bus word at which the field of this number, if it is known, shows a 1 to the event.
pub fn shown_bits(
    map: &RegMap,
    values: &[u32],
    known: &[bool],
    hw: &[u32],
    event: BusEvent,
    number: usize,
) -> u32
    requires there { number < length map.now.fields.items }
    requires values { AreValues map.now.fields.items values.now }
    requires known { length known.now ≡ length map.now.fields.items }
    requires hw { AreInputs map.now.inputs.items hw.now }
    ensures { AreBitsOf map.now.bus_width (λ j. shows_one (edge_of map.now values.now hw.now event) known.now j number) result }
{
    let field = field_at(map, number);
    if reads_word(map, event, field) & field.readable & known[number] {
        let value = value_at(map, values, hw, number);
        placed(value, field.lsb, field.width, map.bus_width)
    } else {
        0
    }
}

/// The bits of the bus word that the field of this number hides from the event: all of its own,
/// where it isn't known.
pub fn hidden_bits(map: &RegMap, known: &[bool], event: BusEvent, number: usize) -> u32
    requires there { number < length map.now.fields.items }
    requires known { length known.now ≡ length map.now.fields.items }
    ensures { (values hw : List ℕ) → AreBitsOf map.now.bus_width (λ j. hides (edge_of map.now values hw event) known.now j number) result }
{
    let field = field_at(map, number);
    if reads_word(map, event, field) & field.readable & !known[number] {
        span(field.lsb, field.width, map.bus_width)
    } else {
        0
    }
}

/// Whether the event is at an address that no word has.
pub fn is_unmapped(map: &RegMap, event: BusEvent) -> bool
    ensures { result ≡ is_unmapped event map.now.words.items }
{
    match event {
        BusEvent::Nothing => false,
        BusEvent::Read(address) => !map.words.as_slice().contains(&address),
        BusEvent::Write { address, .. } => !map.words.as_slice().contains(&address),
    }
}

/// The data of the answer: what the fields show to the event.
pub fn shown_word(map: &RegMap, values: &[u32], known: &[bool], hw: &[u32], event: BusEvent) -> u32
    requires values { AreValues map.now.fields.items values.now }
    requires known { length known.now ≡ length map.now.fields.items }
    requires hw { AreInputs map.now.inputs.items hw.now }
    ensures { AreBitsOf map.now.bus_width (answer_bit (edge_of map.now values.now hw.now event) known.now) result }
{
    let mut word = 0;
    for number in 0..map.fields.len() {
        word |= shown_bits(map, values, known, hw, event, number);
    }
    word
}

/// The bits of the bus word that fields hide from the event.
pub fn hidden_word(map: &RegMap, known: &[bool], event: BusEvent) -> u32
    requires known { length known.now ≡ length map.now.fields.items }
    ensures { (values hw : List ℕ) → AreBitsOf map.now.bus_width (hidden_bit (edge_of map.now values hw event) known.now) result }
{
    let mut word = 0;
    for number in 0..map.fields.len() {
        word |= hidden_bits(map, known, event, number);
    }
    word
}
