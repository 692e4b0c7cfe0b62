//! The register map of the first form.

ghost use Rattle.std.specs.Prelude.{◌≡◌, [], ◌∷◌};
ghost use Rattle.std.specs.Result.{IfOk};
ghost use Rattle.trace_replay.specs.Blocks.{first_field};

use bit_base::text::text_of;
use field_policies::extra::Extra;
use field_policies::field::Field;
use field_policies::map::RegMap;
use field_policies::policy::{ReadEffect, WriteEffect};
use field_policies::signal::Shown;
use std::alloc::{AllocError, Global};
use std::vec::Vec;

/// What the field shows to hardware.
const SHOWN: Shown = Shown {
    value: true,
    swmod: false,
    swacc: false,
    anded: false,
    ored: false,
    xored: false,
    overflow: false,
    underflow: false,
    intr: false,
};

/// The one field, of eight bits at bit 0, that software reads and writes and hardware reads.
fn first_field(alloc: Global, reset: u8) -> Result<Field, AllocError>
    ensures { IfOk result (λ field. field ≡ first_field reset) }
{
    let path = text_of(alloc, b"c.v".as_slice())?;
    Ok(Field {
        path,
        word: 0,
        lsb: 0,
        width: 8,
        wire: false,
        reset: u32::from(reset),
        starts_known: true,
        readable: true,
        writable: true,
        once: false,
        read: ReadEffect::Keep,
        write: WriteEffect::AsIs,
        sw_gate: None,
        data_in: None,
        data_gate: None,
        set: None,
        clear: None,
        bit_gate: None,
        hw_first: false,
        pulse: false,
        extra: Extra::Plain,
        shown: SHOWN,
    })
}

/// The map with one word of one byte, at address 0, and that field in it.
pub fn first_map(alloc: Global, reset: u8) -> Result<RegMap, AllocError>
    ensures bus_width { IfOk result (λ map. map.bus_width ≡ 8) }
    ensures words { IfOk result (λ map. map.words.items ≡ 0 ∷ []) }
    ensures fields { IfOk result (λ map. map.fields.items ≡ first_field reset ∷ []) }
    ensures inputs { IfOk result (λ map. map.inputs.items ≡ []) }
{
    let field = first_field(alloc, reset)?;
    let words = [0].to_vec(alloc)?;
    let mut fields = Vec::new(alloc);
    fields.push(field)?;
    Ok(RegMap {
        bus_width: 8,
        words,
        fields,
        inputs: Vec::new(alloc),
    })
}
