//! A machine over a map of one field, for tests.

ghost use Rattle.std.specs.Prelude.{◌≡◌, ◌≤◌, length};
ghost use Rattle.reg_machine.specs.Conditions.{IsState};
ghost use Rattle.machine_tests.specs.OneField.{inputs};

use field_policies::map::RegMap;
use reg_machine::machine::Machine;

/// A machine over the map of one field of `width` bits.
#[derive(Drop)]
pub struct Bench {
    pub width: u32,
    pub map: RegMap,
    pub machine: Machine,
    ghost some: { 1 ≤ width },
    ghost word: { width ≤ 32 },
    ghost fields: { length map.fields.items ≡ 1 },
    ghost inputs_are: { map.inputs.items ≡ inputs width },
    ghost state: { IsState map.fields.items machine.values.items machine.used.items machine.known.items },
}
