//! Fields as a description tells them: other fields by their paths, and not by numbers.

use bit_base::text::Text;
use field_policies::policy::{ReadEffect, WriteEffect};
use field_policies::signal::Shown;

/// What hardware gives to a field's property.
#[derive(Drop)]
pub enum NamedExpr {
    /// A hardware input of the field's own.
    Input,
    /// The value of the field with this path.
    Value(Text),
    /// 1 where every bit of that field is 1.
    Anded(Text),
    /// 1 where some bit of that field is 1.
    Ored(Text),
    /// 1 where an odd number of bits of that field are 1.
    Xored(Text),
}

/// An enable: open where the bit of `expr` is 1 if `high`, and where it is 0 if not.
#[derive(Drop)]
pub struct NamedGate {
    pub expr: NamedExpr,
    pub high: bool,
}

/// Where a field stands.
#[derive(Clone, Copy, Drop)]
pub struct Spot {
    /// The byte address of its register.
    pub register: u64,
    /// The byte address of its bus word.
    pub word: u64,
    /// Its lowest bit in the word.
    pub lsb: u64,
    /// Its bits.
    pub width: u128,
}

/// What software may do to a field.
#[derive(Drop)]
pub struct Software {
    pub readable: bool,
    pub writable: bool,
    /// Only the first write counts.
    pub once: bool,
    pub read: ReadEffect,
    pub write: WriteEffect,
    /// `swwe` or `swwel`: whether software may write.
    pub gate: Option<NamedGate>,
}

/// What hardware may do to a field.
#[derive(Drop)]
pub struct Hardware {
    /// Whether it has a data input.
    pub has_data: bool,
    /// `we` or `wel`: whether the data is taken.
    pub data_gate: Option<NamedGate>,
    /// `hwset`: every bit becomes 1.
    pub set: Option<NamedExpr>,
    /// `hwclr`: every bit becomes 0.
    pub clear: Option<NamedExpr>,
    /// `hwenable` or `hwmask`: which bits hardware may change.
    pub bit_gate: Option<NamedGate>,
    /// `precedence = hw`: hardware gives the field where both sides are active.
    pub goes_first: bool,
    /// `singlepulse`: becomes 0 at each edge at which neither side is active.
    pub pulse: bool,
}

/// What a field starts with.
#[derive(Clone, Copy, Drop)]
pub struct Start {
    /// Its value is its data input; it stores nothing.
    pub wire: bool,
    /// Its value after reset; 0 where it has none.
    pub reset: u64,
    /// Whether its value is known after reset.
    pub known: bool,
}

/// A counter's properties.
#[derive(Drop)]
pub struct NamedCounter {
    pub incr: Option<NamedExpr>,
    pub decr: Option<NamedExpr>,
    /// What one count up adds.
    pub up: u64,
    /// What one count down takes away.
    pub down: u64,
    /// Stays at the greatest value where it would pass it.
    pub up_stops: bool,
    /// Stays at 0 where it would fall below.
    pub down_stops: bool,
}

/// An interrupt field's properties.
#[derive(Drop)]
pub struct NamedIntr {
    /// Holds the first event until the field is 0 again.
    pub sticky: bool,
    /// Which bits reach the register's interrupt output.
    pub filter: Option<NamedGate>,
}

/// What a field is beside its access properties.
#[derive(Drop)]
pub enum NamedExtra {
    Plain,
    Counter(NamedCounter),
    Intr(NamedIntr),
}

/// Which hardware inputs a field has.
#[derive(Clone, Copy, Drop)]
pub struct Inputs {
    pub has_data: bool,
    pub we: bool,
    pub wel: bool,
    pub hwset: bool,
    pub hwclr: bool,
    pub swwe: bool,
    pub swwel: bool,
    pub incr: bool,
    pub decr: bool,
}

/// A field.
#[derive(Drop)]
pub struct NamedField {
    /// The instance names below the top, joined by `.`; an element of an array is `[i]`.
    pub path: Text,
    pub spot: Spot,
    pub software: Software,
    pub hardware: Hardware,
    pub start: Start,
    /// A counter, an interrupt field, or neither.
    pub extra: NamedExtra,
    pub inputs: Inputs,
    /// Which of its outputs hardware sees, but for its register's interrupt.
    pub shown: Shown,
}
