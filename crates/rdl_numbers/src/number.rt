//! The numbers of fields, and what a property is given by such numbers.

ghost use Rattle.std.specs.Prelude.{◌≡◌, ◌<◌, length};
ghost use Rattle.rdl_numbers.specs.Numbers as spec;

use field_policies::signal::{Gate, HwExpr};
use rdl_fields::named::{NamedExpr, NamedField, NamedGate};

/// The number of the first field with this path, of fewer than 2^32.
pub fn number_of(fields: &[NamedField], path: &[u8]) -> Option<u32>
    requires { length fields.now < 4294967296 }
    ensures { result ≡ spec.number_of fields.now path.now }
{
    for at in 0..fields.len() {
        if fields[at].path.as_bytes() == path {
            return Some(at as u32);
        }
    }
    None
}

// The expression over the number, where there is one.
macro_rules! over {
    ($variant:ident, $number:expr) => {
        match $number {
            None => None,
            Some(number) => Some(HwExpr::$variant(number)),
        }
    };
}

/// What a property is given, where the field's own input for it has this number: none where what is
/// named isn't there.
pub fn numbered(fields: &[NamedField], input: Option<u32>, expr: &NamedExpr) -> Option<HwExpr>
    requires { length fields.now < 4294967296 }
    ensures { result ≡ spec.numbered fields.now input expr.now }
{
    match expr {
        NamedExpr::Input => over!(Input, input),
        NamedExpr::Value(path) => over!(Value, number_of(fields, path.as_bytes())),
        NamedExpr::Anded(path) => over!(Anded, number_of(fields, path.as_bytes())),
        NamedExpr::Ored(path) => over!(Ored, number_of(fields, path.as_bytes())),
        NamedExpr::Xored(path) => over!(Xored, number_of(fields, path.as_bytes())),
    }
}

/// The same of a gate.
pub fn numbered_gate(fields: &[NamedField], input: Option<u32>, gate: &NamedGate) -> Option<Gate>
    requires { length fields.now < 4294967296 }
    ensures { result ≡ spec.numbered_gate fields.now input gate.now }
{
    match numbered(fields, input, &gate.expr) {
        None => None,
        Some(expr) => Some(Gate {
            expr,
            high: gate.high,
        }),
    }
}
