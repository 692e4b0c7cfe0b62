//! Bus words, and those that two registers have in common.

ghost use Rattle.std.specs.Prelude.{◌≡◌, ℕ, ◌<◌, ◌≤◌, ◌++◌, Some, None, map, IfOk, OnOk};
ghost use Rattle.bit_base.specs.declared.place.Place.{Place};
ghost use Rattle.rdl_words.specs.Numbers.{IsNumbered};

use bit_base::place::Place;

/// A bus word of a register.
#[derive(Drop)]
pub struct Word {
    /// Its byte address.
    pub address: u32,
    /// The place of the register's instance in the text.
    pub place: Place,
    pub ghost numbered: { IsNumbered place },
}
