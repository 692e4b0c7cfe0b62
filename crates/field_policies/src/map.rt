//! Register maps.

ghost use Rattle.std.specs.Prelude.{List, ℕ};
ghost use Rattle.field_policies.specs.Maps.{IsBus, AreInWords, AreResets, AreInRange, AreDistinct, HavePaths, AreWide, AreWires, AreCounters, AreInterrupts, AreMembers, IsSmall};

use crate::field::Field;
use crate::signal::HwInput;
use std::vec::Vec;

/// A register map: the bus words by address, and the fields by word and then by lowest bit.
#[derive(Debug, Drop)]
pub struct RegMap {
    /// Bits of a bus word: 8, 16 or 32.
    pub bus_width: u32,
    /// The byte address of each bus word.
    pub words: Vec<u32>,
    pub fields: Vec<Field>,
    /// The hardware inputs, field by field in the order of `InSignal`.
    pub inputs: Vec<HwInput>,
    pub ghost bus: { IsBus bus_width words.items },
    pub ghost in_words: { AreInWords bus_width words.items fields.items },
    pub ghost fits: { AreResets fields.items },
    pub ghost in_range: { AreInRange fields.items inputs.items },
    pub ghost distinct: { AreDistinct fields.items inputs.items },
    pub ghost paths: { ∥ HavePaths fields.items ∥₁ },
    pub ghost widths: { AreWide fields.items inputs.items },
    pub ghost wires: { AreWires fields.items },
    pub ghost counters: { AreCounters fields.items },
    pub ghost interrupts: { AreInterrupts fields.items },
    pub ghost members: { AreMembers fields.items },
    pub ghost small: { IsSmall words.items fields.items },
}
