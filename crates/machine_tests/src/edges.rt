//! Edges of a bench.

ghost use Rattle.std.specs.Prelude.{◌≡◌, ◌<◌, ◌≤◌, Some, length, slice_get};
ghost use Rattle.field_policies.specs.Expressions.{one_if};
ghost use Rattle.reg_machine.specs.Conditions.{AreInputs};
ghost use Rattle.machine_tests.specs.OneField.{StandsAlone, inputs};

use crate::bench::Bench;
use crate::maps::map_of;
use apb_rules::event::BusEvent;
use field_policies::effect::ones;
use field_policies::field::Field;
use field_policies::map::RegMap;
use field_policies::signal::OutSignal;
use reg_machine::machine::{Answer, Machine};
use std::alloc::{AllocError, Global};

/// What hardware gives at an edge.
#[derive(Clone, Copy, Drop)]
pub struct Hardware {
    /// Its data, which is `hwenable` too.
    pub data: u32,
    pub set: bool,
    pub incr: bool,
    pub decr: bool,
}

/// Nothing.
pub const QUIET: Hardware = Hardware {
    data: 0,
    set: false,
    incr: false,
    decr: false,
};

impl Bench {
    pub fn new(alloc: Global, field: Field) -> Result<Bench, AllocError>
        requires { StandsAlone field }
    {
        let width = field.width;
        let map = map_of(alloc, field)?;
        let machine = Machine::reset(alloc, &map)?;
        Ok(Bench {
            width,
            map,
            machine,
        })
    }

    pub fn step(&mut self, event: BusEvent, hardware: Hardware) {
        let hw = inputs_of(self.width, hardware);
        self.machine.step(&self.map, event, &hw);
    }

    pub fn answer(&self, unmapped_error: bool, event: BusEvent) -> Answer {
        let hw = inputs_of(self.width, QUIET);
        self.machine.answer(&self.map, unmapped_error, event, &hw)
    }

    /// An output, where the field shows it.
    pub fn output(&self, event: BusEvent, hardware: Hardware, signal: OutSignal) -> Option<u32> {
        let hw = inputs_of(self.width, hardware);
        if only_field(&self.map).shown.has(signal) {
            Some(self.machine.output(&self.map, event, &hw, 0, signal))
        } else {
            None
        }
    }

    /// Whether an output counts, where the field shows it.
    pub fn counts(&self, signal: OutSignal) -> Option<bool> {
        if only_field(&self.map).shown.has(signal) {
            Some(self.machine.counts(&self.map, 0, signal))
        } else {
            None
        }
    }

    pub fn value(&self) -> u32 {
        self.machine.values[0]
    }
}

/// The first field of a map.
fn only_field(map: &RegMap) -> &Field
    requires { 0 < length map.now.fields.items }
    ensures { slice_get map.now.fields.items 0 ≡ Some result.now }
{
    &map.fields[0]
}

/// 1 for true.
fn one_if(test: bool) -> u32
    ensures { result ≡ one_if test }
{
    if test { 1 } else { 0 }
}

// The numbers at the hardware inputs, cut to their widths.
fn inputs_of(width: u32, hardware: Hardware) -> [u32; 7]
    requires some { 1 ≤ width }
    requires word { width ≤ 32 }
    ensures { AreInputs (inputs width) result }
{
    let data = hardware.data & ones(width);
    let set = one_if(hardware.set);
    let incr = one_if(hardware.incr);
    let decr = one_if(hardware.decr);
    [data, 0, set, 0, 1, incr, decr]
}
