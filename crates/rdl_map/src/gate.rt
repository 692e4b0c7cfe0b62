//! What gates a field and changes it, by numbers.

ghost use Rattle.std.specs.Prelude.{◌≡◌, ◌<◌, length, is_some, IfSome};
ghost use Rattle.rdl_map.specs.Fields.{AreGates, are_gates_told};
ghost use Rattle.rdl_map.specs.Given as spec;

use crate::signal::InputNumbers;
use field_policies::signal::{Gate, HwExpr};
use rdl_fields::named::{NamedExpr, NamedField, NamedGate};
use rdl_numbers::number::{numbered, numbered_gate};

/// What gates a field and changes it.
#[derive(Clone, Copy, Drop)]
pub struct Gates {
    pub sw_gate: Option<Gate>,
    pub data_gate: Option<Gate>,
    pub set: Option<HwExpr>,
    pub clear: Option<HwExpr>,
    pub bit_gate: Option<Gate>,
}

/// What a property is given, none where what is named isn't there.
pub fn given_expr(
    fields: &[NamedField],
    input: Option<u32>,
    expr: &Option<NamedExpr>,
) -> Option<Option<HwExpr>>
    requires { length fields.now < 4294967296 }
    ensures { result ≡ spec.given_expr fields.now input expr.now }
{
    match expr {
        None => Some(None),
        Some(expr) => match numbered(fields, input, expr) {
            None => None,
            Some(expr) => Some(Some(expr)),
        },
    }
}

/// A gate, none where what is named isn't there.
pub fn given_gate(
    fields: &[NamedField],
    high: Option<u32>,
    low: Option<u32>,
    gate: &Option<NamedGate>,
) -> Option<Option<Gate>>
    requires { length fields.now < 4294967296 }
    ensures { result ≡ spec.given_gate fields.now high low gate.now }
{
    match gate {
        None => Some(None),
        Some(gate) => {
            let input = if gate.high { high } else { low };
            match numbered_gate(fields, input, gate) {
                None => None,
                Some(gate) => Some(Some(gate)),
            }
        }
    }
}

/// What gates a field and changes it, none where what is named isn't there.
pub fn gates_of(fields: &[NamedField], numbers: InputNumbers, field: &NamedField) -> Option<Gates>
    requires { length fields.now < 4294967296 }
    ensures gates { IfSome result (λ gates. AreGates fields.now numbers field.now gates) }
    ensures told { is_some result ≡ are_gates_told fields.now numbers field.now }
{
    let sw_gate = given_gate(fields, numbers.swwe, numbers.swwel, &field.software.gate)?;
    let data_gate = given_gate(fields, numbers.we, numbers.wel, &field.hardware.data_gate)?;
    let set = given_expr(fields, numbers.hwset, &field.hardware.set)?;
    let clear = given_expr(fields, numbers.hwclr, &field.hardware.clear)?;
    let bit_gate = given_gate(fields, None, None, &field.hardware.bit_gate)?;
    Some(Gates {
        sw_gate,
        data_gate,
        set,
        clear,
        bit_gate,
    })
}
