//! A field of a register map.

use crate::extra::Extra;
use crate::policy::{ReadEffect, WriteEffect};
use crate::signal::{Gate, HwExpr, Shown};
use bit_base::text::Text;

/// A field: where it stands, and what software and hardware may do to it.
#[derive(Debug, Drop)]
pub struct Field {
    /// The instance names below the top, joined by `.`; an element of an array is `[i]`.
    pub path: Text,
    /// The number of its bus word.
    pub word: u32,
    /// Its lowest bit in the word.
    pub lsb: u32,
    /// Its bits, 1 to 32.
    pub width: u32,
    /// Its value is its data input; it stores nothing.
    pub wire: bool,
    /// Its value after reset; 0 where it has none.
    pub reset: u32,
    /// Whether its value is known after reset: true for a wire and for a field with a reset.
    pub starts_known: bool,
    pub readable: bool,
    pub writable: bool,
    /// Only the first write counts.
    pub once: bool,
    pub read: ReadEffect,
    pub write: WriteEffect,
    /// `swwe` or `swwel`: whether software may write.
    pub sw_gate: Option<Gate>,
    /// The hardware input that gives its data.
    pub data_in: Option<u32>,
    /// `we` or `wel`: whether the data is taken.
    pub data_gate: Option<Gate>,
    /// `hwset`: every bit becomes 1.
    pub set: Option<HwExpr>,
    /// `hwclr`: every bit becomes 0.
    pub clear: Option<HwExpr>,
    /// `hwenable` or `hwmask`: which bits hardware may change.
    pub bit_gate: Option<Gate>,
    /// `precedence = hw`: hardware gives the field where both sides are active.
    pub hw_first: bool,
    /// `singlepulse`: becomes 0 at each edge at which neither side is active.
    pub pulse: bool,
    /// A counter, an interrupt field, or neither.
    pub extra: Extra,
    /// Which of its outputs hardware sees.
    pub shown: Shown,
}
