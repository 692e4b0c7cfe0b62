//! Nets: the flat bits of a design, in one row.

use bit_base::text::Text;

/// What a net is.
#[derive(Clone, Copy, Debug, PartialEq, Eq, Drop)]
pub enum NetKind {
    /// The clock, an input of the top.
    Clock,
    /// Any other input of the top.
    Input,
    /// The unknown digits of one number at one instance path.
    Hidden,
    Wire,
    /// A net that a clocked process assigns.
    Register,
}

/// A net of a flat design.
#[derive(Debug, Drop)]
pub struct Net {
    /// Its instance path and name, as `u1.x`; a hidden net has none.
    pub path: Text,
    /// How many bits it has.
    pub width: u32,
    /// The place of its lowest bit in the numbering of its declaration.
    pub lsb: u32,
    /// The number of its lowest bit among all flat bits.
    pub first: u32,
    pub kind: NetKind,
    /// Whether it is an output of the top.
    pub output: bool,
}
