//! The values that hardware gives to a field's properties.

ghost use Rattle.std.specs.Prelude.{◌≡◌, ◌<◌, ◌≤◌, ◌^◌, Some, IsTrue, length, slice_get};
ghost use Rattle.field_policies.specs.declared.signal.Gate.{Gate};
ghost use Rattle.field_policies.specs.declared.signal.HwExpr.{HwExpr};
ghost use Rattle.field_policies.specs.Bits.{AreBitsOf};
ghost use Rattle.field_policies.specs.Fields.{expr_width, has_width, is_in_range};
ghost use Rattle.field_policies.specs.Expressions.{expr_value, input_value, is_given, is_open, one_if, value_at, width_at};
ghost use Rattle.reg_machine.specs.Conditions.{AreInputs, AreValues, IsFieldOf};

use crate::bits::{is_full, is_odd, is_one, is_some_one};
use field_policies::effect::ones;
use field_policies::field::Field;
use field_policies::map::RegMap;
use field_policies::signal::{Gate, HwExpr};

/// 1 for true.
pub fn one_if(test: bool) -> u32
    ensures { result ≡ one_if test }
{
    if test { 1 } else { 0 }
}

/// The number at the field's data input, 0 where it has none.
pub fn input_of(map: &RegMap, field: &Field, hw: &[u32]) -> u32
    requires field { IsFieldOf map.now field.now }
    requires hw { AreInputs map.now.inputs.items hw.now }
    ensures value { result ≡ input_value hw.now field.now.data_in }
    ensures fits { result < 2 ^ field.now.width }
{
    match field.data_in {
        Some(k) => hw[k as usize],
        None => 0,
    }
}

/// The field of this number.
pub fn field_at(map: &RegMap, number: usize) -> &Field
    requires there { number < length map.now.fields.items }
    ensures here { slice_get map.now.fields.items number ≡ Some result.now }
    ensures field { IsFieldOf map.now result.now }
{
    &map.fields[number]
}

/// The value of the field of this number: what it stores, or for a wire its data input.
pub fn value_at(map: &RegMap, values: &[u32], hw: &[u32], number: usize) -> u32
    requires there { number < length map.now.fields.items }
    requires values { AreValues map.now.fields.items values.now }
    requires hw { AreInputs map.now.inputs.items hw.now }
    ensures value { result ≡ value_at map.now.fields.items values.now hw.now number }
    ensures fits { result < 2 ^ width_at map.now.fields.items number }
{
    let field = field_at(map, number);
    if field.wire {
        input_of(map, field, hw)
    } else {
        values[number]
    }
}

/// The value of an expression.
pub fn expr_value(map: &RegMap, values: &[u32], hw: &[u32], expr: HwExpr) -> u32
    requires in_range { IsTrue (is_in_range (length map.now.fields.items) (length map.now.inputs.items) expr) }
    requires values { AreValues map.now.fields.items values.now }
    requires hw { AreInputs map.now.inputs.items hw.now }
    ensures value { result ≡ expr_value map.now.fields.items values.now hw.now expr }
    ensures fits { result < 2 ^ expr_width map.now.fields.items map.now.inputs.items expr }
{
    match expr {
        HwExpr::Input(k) => hw[k as usize],
        HwExpr::Value(n) => value_at(map, values, hw, n as usize),
        HwExpr::Anded(n) => {
            let value = value_at(map, values, hw, n as usize);
            one_if(is_full(value, width_at(map, n as usize)))
        }
        HwExpr::Ored(n) => {
            let value = value_at(map, values, hw, n as usize);
            one_if(is_some_one(value, width_at(map, n as usize)))
        }
        HwExpr::Xored(n) => {
            let value = value_at(map, values, hw, n as usize);
            one_if(is_odd(value, width_at(map, n as usize)))
        }
    }
}

// The bits of the field of this number.
fn width_at(map: &RegMap, number: usize) -> u32
    requires there { number < length map.now.fields.items }
    ensures value { result ≡ width_at map.now.fields.items number }
    ensures some { 1 ≤ result }
    ensures word { result ≤ 32 }
{
    field_at(map, number).width
}

/// Whether an expression of one bit is there, and its bit is 1.
pub fn is_given(map: &RegMap, values: &[u32], hw: &[u32], expr: Option<HwExpr>) -> bool
    requires in_range { (e : HwExpr) → expr ≡ Some e → IsTrue (is_in_range (length map.now.fields.items) (length map.now.inputs.items) e) }
    requires values { AreValues map.now.fields.items values.now }
    requires hw { AreInputs map.now.inputs.items hw.now }
    ensures { result ≡ is_given map.now.fields.items values.now hw.now expr }
{
    match expr {
        Some(expr) => is_one(expr_value(map, values, hw, expr), 0),
        None => false,
    }
}

/// Whether a gate of one bit is open: one that isn't there is.
pub fn is_open(map: &RegMap, values: &[u32], hw: &[u32], gate: Option<Gate>) -> bool
    requires in_range { (g : Gate) → gate ≡ Some g → IsTrue (is_in_range (length map.now.fields.items) (length map.now.inputs.items) g.expr) }
    requires values { AreValues map.now.fields.items values.now }
    requires hw { AreInputs map.now.inputs.items hw.now }
    ensures { result ≡ is_open map.now.fields.items values.now hw.now gate 0 }
{
    match gate {
        Some(gate) => is_one(expr_value(map, values, hw, gate.expr), 0) == gate.high,
        None => true,
    }
}

/// The bits of a field of `width` bits at which a gate is open.
pub fn open_bits(map: &RegMap, values: &[u32], hw: &[u32], gate: Option<Gate>, width: u32) -> u32
    requires some { 1 ≤ width }
    requires word { width ≤ 32 }
    requires in_range { (g : Gate) → gate ≡ Some g → IsTrue (is_in_range (length map.now.fields.items) (length map.now.inputs.items) g.expr) }
    requires wide { (g : Gate) → gate ≡ Some g → IsTrue (has_width map.now.fields.items map.now.inputs.items width g.expr) }
    requires values { AreValues map.now.fields.items values.now }
    requires hw { AreInputs map.now.inputs.items hw.now }
    ensures { AreBitsOf width (is_open map.now.fields.items values.now hw.now gate) result }
{
    match gate {
        Some(gate) => {
            let value = expr_value(map, values, hw, gate.expr);
            if gate.high {
                value
            } else {
                value ^ ones(width)
            }
        }
        None => ones(width),
    }
}
