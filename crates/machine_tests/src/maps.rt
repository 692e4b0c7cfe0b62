//! Maps with one field, for tests.

ghost use Rattle.std.specs.Prelude.{◌≡◌, ℕ, ◌<◌, ◌≤◌, ◌^◌, Some, true, false, [], ◌∷◌};
ghost use Rattle.std.specs.Result.{IfOk};
ghost use Rattle.field_policies.specs.declared.extra.Extra.{Extra};
ghost use Rattle.machine_tests.specs.OneField.{ExprIs, GateIs, StandsAlone, inputs};

use bit_base::text::text_of;
use field_policies::extra::{Counter, Extra, Intr};
use field_policies::field::Field;
use field_policies::map::RegMap;
use field_policies::policy::{ReadEffect, WriteEffect};
use field_policies::signal::{Gate, HwExpr, HwInput, InSignal, Shown};
use std::alloc::{AllocError, Global};
use std::vec::Vec;

/// The map whose one field is this one, in a 32-bit word at address 0. Its hardware inputs are
/// data, `we`, `hwset`, `hwclr`, `swwe`, `incr` and `decr`.
pub fn map_of(alloc: Global, field: Field) -> Result<RegMap, AllocError>
    requires { StandsAlone field }
    ensures fields { IfOk result (λ m. m.fields.items ≡ field ∷ []) }
    ensures inputs { IfOk result (λ m. m.inputs.items ≡ inputs field.width) }
{
    let width = field.width;
    let inputs = [
        HwInput {
            field: 0,
            signal: InSignal::Data,
            width,
        },
        HwInput {
            field: 0,
            signal: InSignal::We,
            width: 1,
        },
        HwInput {
            field: 0,
            signal: InSignal::HwSet,
            width: 1,
        },
        HwInput {
            field: 0,
            signal: InSignal::HwClr,
            width: 1,
        },
        HwInput {
            field: 0,
            signal: InSignal::SwWe,
            width: 1,
        },
        HwInput {
            field: 0,
            signal: InSignal::Incr,
            width: 1,
        },
        HwInput {
            field: 0,
            signal: InSignal::Decr,
            width: 1,
        },
    ];
    let words = [0].to_vec(alloc)?;
    let inputs = inputs.to_vec(alloc)?;
    let mut fields = Vec::new(alloc);
    fields.push(field)?;
    Ok(RegMap {
        bus_width: 32,
        words,
        fields,
        inputs,
    })
}

/// What differs from field to field in the tests.
#[derive(Clone, Copy, Drop)]
pub struct Shape {
    pub width: u32,
    /// The value after reset, at most this wide; a field without reset has 0.
    pub reset: u32,
    pub known: bool,
    pub readable: bool,
    pub once: bool,
    pub read: ReadEffect,
    pub write: WriteEffect,
    pub hw_first: bool,
    pub pulse: bool,
}

const SHOWN: Shown = Shown {
    value: true,
    swmod: true,
    swacc: true,
    anded: true,
    ored: true,
    xored: true,
    overflow: false,
    underflow: false,
    intr: false,
};

/// A plain field of this shape that software writes. Where `hardware`, it has `hwset`, and its data
/// input, which is its `hwenable` too.
pub fn plain_field(alloc: Global, shape: Shape, hardware: bool) -> Result<Field, AllocError>
    requires some { 1 ≤ shape.width }
    requires word { shape.width ≤ 32 }
    requires reset { shape.reset < 2 ^ shape.width }
    requires unknown { shape.known ≡ false → shape.reset ≡ 0 }
    ensures { IfOk result (λ f. StandsAlone f) }
{
    let path = text_of(alloc, b"f")?;
    let set = set_of(hardware);
    let bit_gate = enable_of(hardware);
    let data_in = data_of(hardware);
    Ok(Field {
        path,
        word: 0,
        lsb: 0,
        width: shape.width,
        wire: false,
        reset: shape.reset,
        starts_known: shape.known,
        readable: shape.readable,
        writable: true,
        once: shape.once,
        read: shape.read,
        write: shape.write,
        sw_gate: None,
        data_in,
        data_gate: None,
        set,
        clear: None,
        bit_gate,
        hw_first: shape.hw_first,
        pulse: shape.pulse,
        extra: Extra::Plain,
        shown: SHOWN,
    })
}

fn set_of(there: bool) -> Option<HwExpr>
    ensures { ExprIs 2 result }
{
    if there { Some(HwExpr::Input(2)) } else { None }
}

fn enable_of(there: bool) -> Option<Gate>
    ensures { GateIs 0 result }
{
    if there {
        Some(Gate {
            expr: HwExpr::Input(0),
            high: true,
        })
    } else {
        None
    }
}

fn data_of(there: bool) -> Option<u32>
    ensures { (k : ℕ) → result ≡ Some k → k ≡ 0 }
{
    if there { Some(0) } else { None }
}
