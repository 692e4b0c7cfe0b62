//! The register machine: its state, its answers, its outputs and its steps.

ghost use Rattle.std.specs.Prelude.{◌≡◌, ◌<◌, ◌^◌, ◌&&◌, ◌||◌, ℕ, IsTrue, Some, false, slice_get, slice_index_or};
ghost use Rattle.std.specs.Result.{IfOk};
ghost use Rattle.field_policies.specs.declared.field.Field.{Field};
ghost use Rattle.field_policies.specs.Bits.{AreBitsOf};
ghost use Rattle.reg_machine.specs.Conditions.{AreInputs, IsState, edge_of};
ghost use Rattle.reg_machine.specs.Machines.{always_counts, answer_bit, counts_bit, is_shown, is_unmapped, output_of, output_width};
ghost use Rattle.reg_machine.specs.States.{next_state, reset_state, state_of};

use crate::answer::{hidden_word, is_unmapped, shown_word};
use crate::expr::{field_at, value_at};
use crate::output::field_output;
use crate::state::{replace_all, reset_value, step_flags};
use apb_rules::event::BusEvent;
use field_policies::effect::ones;
use field_policies::map::RegMap;
use field_policies::signal::OutSignal;
use std::alloc::{AllocError, Global};
use std::vec::Vec;

/// The state: for each field of the map its value, whether its first write is used up, and whether
/// its value is known. A wire keeps the value 0, a field that isn't once the flag false, and a
/// field that starts known the flag true.
#[derive(Debug, Drop)]
pub struct Machine {
    pub values: Vec<u32>,
    pub used: Vec<bool>,
    pub known: Vec<bool>,
}

/// The answer to a bus event.
#[derive(Clone, Copy, Debug, PartialEq, Eq, Drop)]
pub struct Answer {
    /// The data of a read; 0 otherwise.
    pub payload: u32,
    pub error: bool,
    /// The bits of the bus word that count: all but those of a field that is read and not known.
    pub counts: u32,
}

impl Machine {
    /// The machine after reset: each stored field has its reset value, 0 where it has none.
    pub fn reset(alloc: Global, map: &RegMap) -> Result<Machine, AllocError>
        ensures reset { IfOk result (λ m. state_of m ≡ reset_state map.now.fields.items) }
        ensures state { IfOk result (λ m. IsState map.now.fields.items m.values.items m.used.items m.known.items) }
    {
        let count = map.fields.len();
        let mut values = Vec::with_capacity(alloc, count)?;
        let mut used = Vec::with_capacity(alloc, count)?;
        let mut known = Vec::with_capacity(alloc, count)?;
        for number in 0..count {
            let field = field_at(map, number);
            values.push(reset_value(field))?;
            used.push(false)?;
            known.push(field.starts_known)?;
        }
        Ok(Machine {
            values,
            used,
            known,
        })
    }

    /// The answer to the bus event of an edge, with the hardware inputs at that edge. At an address
    /// without a word it is an error where `unmapped_error`.
    pub fn answer(&self, map: &RegMap, unmapped_error: bool, event: BusEvent, hw: &[u32]) -> Answer
        requires state { IsState map.now.fields.items self.now.values.items self.now.used.items self.now.known.items }
        requires hw { AreInputs map.now.inputs.items hw.now }
        ensures payload { AreBitsOf map.now.bus_width (answer_bit (edge_of map.now self.now.values.items hw.now event) self.now.known.items) result.payload }
        ensures counts { AreBitsOf map.now.bus_width (counts_bit (edge_of map.now self.now.values.items hw.now event) self.now.known.items) result.counts }
        ensures error { result.error ≡ (unmapped_error && is_unmapped event map.now.words.items) }
    {
        let values = self.values.as_slice();
        let known = self.known.as_slice();
        Answer {
            payload: shown_word(map, values, known, hw, event),
            error: unmapped_error & is_unmapped(map, event),
            counts: hidden_word(map, known, event) ^ ones(map.bus_width),
        }
    }

    /// What the field of this number gives at an output that it shows, at an edge with this event
    /// and these hardware inputs.
    pub fn output(
        &self,
        map: &RegMap,
        event: BusEvent,
        hw: &[u32],
        field: u32,
        signal: OutSignal,
    ) -> u32
        requires state { IsState map.now.fields.items self.now.values.items self.now.used.items self.now.known.items }
        requires hw { AreInputs map.now.inputs.items hw.now }
        requires shown { IsTrue (is_shown map.now.fields.items field signal) }
        ensures value { result ≡ output_of (edge_of map.now self.now.values.items hw.now event) self.now.used.items field signal }
        ensures fits { (f : Field) → slice_get map.now.fields.items field ≡ Some f → result < 2 ^ output_width f signal }
    {
        let number = field as usize;
        let values = self.values.as_slice();
        let value = value_at(map, values, hw, number);
        field_output(
            map,
            values,
            hw,
            event,
            field_at(map, number),
            value,
            self.used[number],
            signal,
        )
    }

    /// Whether an output that the field of this number shows is known: what the field's value says
    /// doesn't count as long as the value isn't.
    pub fn counts(&self, map: &RegMap, field: u32, signal: OutSignal) -> bool
        requires state { IsState map.now.fields.items self.now.values.items self.now.used.items self.now.known.items }
        requires shown { IsTrue (is_shown map.now.fields.items field signal) }
        ensures { result ≡ (always_counts signal || slice_index_or self.now.known.items field false) }
    {
        matches!(signal, OutSignal::SwMod | OutSignal::SwAcc) || self.known[field as usize]
    }

    /// The state after an edge with this event and these hardware inputs. All values are read
    /// before any is replaced.
    pub fn step(&mut self, map: &RegMap, event: BusEvent, hw: &[u32])
        requires state { IsState map.now.fields.items self.old.values.items self.old.used.items self.old.known.items }
        requires hw { AreInputs map.now.inputs.items hw.now }
        ensures next { state_of self.new ≡ next_state (edge_of map.now self.old.values.items hw.now event) (state_of self.old) }
        ensures state { IsState map.now.fields.items self.new.values.items self.new.used.items self.new.known.items }
    {
        let mut next = [0; 4096];
        step_flags(
            map,
            self.values.as_slice(),
            hw,
            event,
            &mut self.used,
            &mut self.known,
            &mut next,
        );
        replace_all(&mut self.values, &next);
    }
}
