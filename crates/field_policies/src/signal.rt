//! Signals between hardware and fields.

ghost use Rattle.std.specs.Prelude.{◌≡◌};
ghost use Rattle.field_policies.specs.Expressions.{shows};

/// What hardware gives to a field's property: one bit, or the bits of a field's width
/// (SystemRDL 2.0, clause 9, hardware access properties and references).
#[derive(Clone, Copy, Debug, PartialEq, Eq, Drop)]
pub enum HwExpr {
    /// The hardware input of this number.
    Input(u32),
    /// The value of the field of this number.
    Value(u32),
    /// 1 where every bit of the field of this number is 1.
    Anded(u32),
    /// 1 where some bit of the field of this number is 1.
    Ored(u32),
    /// 1 where an odd number of bits of the field of this number are 1.
    Xored(u32),
}

/// An enable: open where the bit of `expr` is 1 if `high`, and where it is 0 if not.
#[derive(Clone, Copy, Debug, PartialEq, Eq, Drop)]
pub struct Gate {
    pub expr: HwExpr,
    /// True for `swwe`, `we`, `hwenable` and `enable`; false for `swwel`, `wel`, `hwmask` and `mask`.
    pub high: bool,
}

/// A kind of hardware input of a field.
#[derive(Clone, Copy, Debug, PartialEq, Eq, Drop)]
pub enum InSignal {
    Data,
    We,
    Wel,
    HwSet,
    HwClr,
    SwWe,
    SwWel,
    Incr,
    Decr,
}

/// A kind of output of a field.
#[derive(Clone, Copy, Debug, PartialEq, Eq, Drop)]
pub enum OutSignal {
    Value,
    SwMod,
    SwAcc,
    Anded,
    Ored,
    Xored,
    Overflow,
    Underflow,
    Intr,
}

/// Which outputs a field shows to hardware.
#[derive(Clone, Copy, Debug, PartialEq, Eq, Drop)]
pub struct Shown {
    pub value: bool,
    pub swmod: bool,
    pub swacc: bool,
    pub anded: bool,
    pub ored: bool,
    pub xored: bool,
    pub overflow: bool,
    pub underflow: bool,
    pub intr: bool,
}

impl Shown {
    /// Whether this output is among them.
    pub fn has(&self, signal: OutSignal) -> bool
        ensures { result ≡ shows self.now signal }
    {
        match signal {
            OutSignal::Value => self.value,
            OutSignal::SwMod => self.swmod,
            OutSignal::SwAcc => self.swacc,
            OutSignal::Anded => self.anded,
            OutSignal::Ored => self.ored,
            OutSignal::Xored => self.xored,
            OutSignal::Overflow => self.overflow,
            OutSignal::Underflow => self.underflow,
            OutSignal::Intr => self.intr,
        }
    }
}

/// A hardware input: the field that it belongs to, what it is there, and its bits.
#[derive(Clone, Copy, Debug, PartialEq, Eq, Drop)]
pub struct HwInput {
    pub field: u32,
    pub signal: InSignal,
    pub width: u32,
}
