//! Which values are refused for their form.

ghost use Rattle.std.specs.Prelude.{◌≡◌, ℕ, true, ◌&&◌, nat_le, ◌++◌, ◌∷◌, [], IfOk, OnOk};
ghost use Rattle.std.specs.Option.{option_map};
ghost use Rattle.rdl_tree.specs.declared.tree.RdlItem.{out-RdlItem};
ghost use Rattle.rdl_tree.specs.declared.tree.RdlDef.{out-RdlDef};
ghost use Rattle.rdl_text.specs.Chains.{nows};
ghost use Rattle.rdl_text.specs.Types.{type_of};
ghost use Rattle.rdl_text.specs.Instances.{is_field, body_of};
ghost use Rattle.rdl_text.specs.Forms as spec;

use crate::assignment::is_label;
use crate::instance::{Body, kind_of, used_type};
use crate::names::note_if;
use crate::property::{Form, Row, row_of};
use crate::reference::{bit_reference, whole_reference};
use crate::scope::Component;
use bit_base::place::Place;
use rdl_tree::token::RdlToken;
use rdl_tree::tree::{
    RdlAssigned, RdlDef, RdlEntry, RdlEntryBody, RdlEntryProp, RdlIndex, RdlInst, RdlInsts,
    RdlItem, RdlMarked, RdlNextInst, RdlNextStep, RdlRange, RdlUse, RdlValue,
};
use std::alloc::{AllocError, Global};
use std::vec::Vec;

fn is_string(value: &RdlValue) -> bool
    ensures { result ≡ spec.is_string value.now }
{
    matches!(value, RdlValue::Str(_))
}

fn is_true(value: &RdlValue) -> bool
    ensures { result ≡ spec.is_true value.now }
{
    matches!(value, RdlValue::True(_))
}

fn is_flag(value: &RdlValue) -> bool
    ensures { result ≡ spec.is_flag value.now }
{
    matches!(value, RdlValue::True(_) | RdlValue::False(_))
}

// Whether a path with this index and these further steps is one name.
fn lone(index: &Option<RdlIndex>, more: &[RdlNextStep]) -> bool
    ensures { result ≡ spec.lone index.now more.now }
{
    match (index, more) {
        (None, []) => true,
        _ => false,
    }
}

/// The word that the value is: a path of one name without an index.
pub fn word_of(value: &RdlValue) -> Option<&RdlToken>
    ensures { option_map (λ t. t.now) result ≡ spec.word_of value.now }
{
    match value {
        RdlValue::Reference(path, None) => {
            if lone(&path.first.index, path.more.as_slice()) {
                Some(&path.first.name)
            } else {
                None
            }
        }
        _ => None,
    }
}

#[tactic(auto, unfolding(crate::specs::Forms::is_sw_word))]
fn is_sw_word(token: &RdlToken) -> bool
    ensures { result ≡ spec.is_sw_word token.now }
{
    token.is_text(b"rw")
        | token.is_text(b"wr")
        | token.is_text(b"r")
        | token.is_text(b"w")
        | token.is_text(b"na")
        | token.is_text(b"rw1")
        | token.is_text(b"w1")
}

#[tactic(auto, unfolding(crate::specs::Forms::is_hw_word))]
fn is_hw_word(token: &RdlToken) -> bool
    ensures { result ≡ spec.is_hw_word token.now }
{
    token.is_text(b"rw")
        | token.is_text(b"wr")
        | token.is_text(b"r")
        | token.is_text(b"w")
        | token.is_text(b"na")
}

#[tactic(auto, unfolding(crate::specs::Forms::is_onread_word))]
fn is_onread_word(token: &RdlToken) -> bool
    ensures { result ≡ spec.is_onread_word token.now }
{
    token.is_text(b"rclr") | token.is_text(b"rset")
}

#[tactic(auto, unfolding(crate::specs::Forms::is_onwrite_word))]
fn is_onwrite_word(token: &RdlToken) -> bool
    ensures { result ≡ spec.is_onwrite_word token.now }
{
    token.is_text(b"woset")
        | token.is_text(b"woclr")
        | token.is_text(b"wot")
        | token.is_text(b"wzs")
        | token.is_text(b"wzc")
        | token.is_text(b"wzt")
        | token.is_text(b"wclr")
        | token.is_text(b"wset")
}

#[tactic(auto, unfolding(crate::specs::Forms::is_precedence_word))]
fn is_precedence_word(token: &RdlToken) -> bool
    ensures { result ≡ spec.is_precedence_word token.now }
{
    token.is_text(b"sw") | token.is_text(b"hw")
}

#[tactic(auto, unfolding(crate::specs::Forms::is_regalign_word))]
fn is_regalign_word(token: &RdlToken) -> bool
    ensures { result ≡ spec.is_regalign_word token.now }
{
    token.is_text(b"regalign")
}

fn is_sw(value: &RdlValue) -> bool
    ensures { result ≡ spec.is_word spec.is_sw_word (spec.word_of value.now) }
{
    match word_of(value) {
        None => false,
        Some(token) => is_sw_word(token),
    }
}

fn is_hw(value: &RdlValue) -> bool
    ensures { result ≡ spec.is_word spec.is_hw_word (spec.word_of value.now) }
{
    match word_of(value) {
        None => false,
        Some(token) => is_hw_word(token),
    }
}

fn is_onread(value: &RdlValue) -> bool
    ensures { result ≡ spec.is_word spec.is_onread_word (spec.word_of value.now) }
{
    match word_of(value) {
        None => false,
        Some(token) => is_onread_word(token),
    }
}

fn is_onwrite(value: &RdlValue) -> bool
    ensures { result ≡ spec.is_word spec.is_onwrite_word (spec.word_of value.now) }
{
    match word_of(value) {
        None => false,
        Some(token) => is_onwrite_word(token),
    }
}

fn is_precedence(value: &RdlValue) -> bool
    ensures { result ≡ spec.is_word spec.is_precedence_word (spec.word_of value.now) }
{
    match word_of(value) {
        None => false,
        Some(token) => is_precedence_word(token),
    }
}

fn is_regalign(value: &RdlValue) -> bool
    ensures { result ≡ spec.is_word spec.is_regalign_word (spec.word_of value.now) }
{
    match word_of(value) {
        None => false,
        Some(token) => is_regalign_word(token),
    }
}

fn is_reg_width(value: &RdlValue) -> bool
    ensures { result ≡ spec.is_number (spec.is_reg_width) value.now }
{
    match value {
        RdlValue::Num(token) => matches!(token.value, 8 | 16 | 32 | 64 | 128),
        _ => false,
    }
}

fn is_access_width(value: &RdlValue) -> bool
    ensures { result ≡ spec.is_number (spec.is_access_width) value.now }
{
    match value {
        RdlValue::Num(token) => matches!(token.value, 8 | 16 | 32),
        _ => false,
    }
}

fn is_field_width(value: &RdlValue) -> bool
    ensures { result ≡ spec.is_number (λ n. nat_le 1 n && nat_le n 32) value.now }
{
    match value {
        RdlValue::Num(token) => 1 <= token.value && token.value <= 32,
        _ => false,
    }
}

fn is_any_number(value: &RdlValue) -> bool
    ensures { result ≡ spec.is_number (λ n. true) value.now }
{
    matches!(value, RdlValue::Num(_))
}

fn is_step(value: &RdlValue) -> bool
    ensures { result ≡ spec.is_number (λ n. nat_le 1 n) value.now }
{
    match value {
        RdlValue::Num(token) => 1 <= token.value,
        _ => false,
    }
}

// Whether the value is one of the form; a reference only where one may stand.
fn takes(referable: bool, form: Form, value: &RdlValue) -> bool
    ensures { result ≡ spec.takes referable form value.now }
{
    match form {
        Form::Text => is_string(value),
        Form::Regalign => is_regalign(value),
        Form::True => is_true(value),
        Form::RegWidth => is_reg_width(value),
        Form::AccessWidth => is_access_width(value),
        Form::Name => word_of(value).is_some(),
        Form::FieldWidth => is_field_width(value),
        Form::Number => is_any_number(value),
        Form::Step => is_step(value),
        Form::Sw => is_sw(value),
        Form::Hw => is_hw(value),
        Form::OnRead => is_onread(value),
        Form::OnWrite => is_onwrite(value),
        Form::Precedence => is_precedence(value),
        Form::Flag => is_flag(value),
        Form::FlagOrBit => is_flag(value) || (referable && bit_reference(value).is_some()),
        Form::Whole => referable && whole_reference(value).is_some(),
    }
}

// Whether the property may stand without a value.
fn takes_none(form: Form) -> bool
    ensures { result ≡ spec.takes_none form }
{
    matches!(form, Form::True | Form::Flag | Form::FlagOrBit)
}

/// Whether a property of this form takes the value, a reference only where one may stand.
pub fn takes_assigned(referable: bool, form: Form, value: &Option<RdlAssigned>) -> bool
    ensures { result ≡ spec.takes_assigned referable form value.now }
{
    match value {
        None => takes_none(form),
        Some(assigned) => takes(referable, form, &assigned.value),
    }
}

// Whether the property, where it is one, doesn't take the value.
fn is_misvalued(referable: bool, row: Option<Row>, value: &Option<RdlAssigned>) -> bool
    ensures { result ≡ spec.is_misvalued referable row value.now }
{
    match row {
        None => false,
        Some(row) => !takes_assigned(referable, row.form, value),
    }
}

fn is_miswritten(row: Option<Row>, value: &Option<RdlAssigned>) -> bool
    ensures { result ≡ spec.is_miswritten row value.now }
{
    match row {
        None => false,
        Some(row) => is_label(row.property) && !takes_assigned(false, row.form, value),
    }
}

fn note_miswritten_props(out: &mut Vec<Place>, props: &[RdlEntryProp]) -> Result<(), AllocError>
    ensures { OnOk result (out.new.items ≡ out.old.items ++ spec.miswritten_props props.now) }
{
    for entry in props {
        let name = &entry.prop.name;
        let test = is_miswritten(row_of(name.text.as_bytes()), &entry.prop.value);
        note_if(out, test, name.place)?;
    }
    Ok(())
}

fn note_miswritten_body(out: &mut Vec<Place>, body: &Option<RdlEntryBody>) -> Result<(), AllocError>
    ensures { OnOk result (out.new.items ≡ out.old.items ++ spec.miswritten_body body.now) }
{
    match body {
        None => Ok(()),
        Some(body) => note_miswritten_props(out, body.props.as_slice()),
    }
}

// Notes the wrong values in the entries of an enumeration.
fn note_miswritten(out: &mut Vec<Place>, entries: &[RdlEntry]) -> Result<(), AllocError>
    ensures { OnOk result (out.new.items ≡ out.old.items ++ spec.miswritten entries.now) }
{
    for entry in entries {
        note_miswritten_body(out, &entry.body)?;
    }
    Ok(())
}

fn is_misspanned(of_field: bool, first: u64, second: &Option<RdlMarked>) -> bool
    ensures { result ≡ spec.is_misspanned of_field first second.now }
{
    match second {
        None => first == 0,
        Some(low) => !of_field || first < low.number.value,
    }
}

fn is_misranged(of_field: bool, range: &Option<RdlRange>) -> bool
    ensures { result ≡ spec.is_misranged of_field range.now }
{
    match range {
        None => false,
        Some(range) => is_misspanned(of_field, range.first.value, &range.second),
    }
}

fn is_zero(number: &Option<RdlMarked>) -> bool
    ensures { result ≡ spec.is_zero number.now }
{
    match number {
        None => false,
        Some(marked) => marked.number.value == 0,
    }
}

// Whether the instance has an address, an alignment or a stride that it can't have.
fn is_mislaid(of_field: bool, inst: &RdlInst) -> bool
    ensures { result ≡ spec.is_mislaid of_field inst.now }
{
    let (address, stride) = (inst.address.is_some(), inst.stride.is_some());
    let alignment = inst.alignment.is_some();
    (address && alignment)
        || (of_field && (address || stride || alignment))
        || (stride && inst.range.is_none())
}

fn note_misshaped(out: &mut Vec<Place>, of_field: bool, inst: &RdlInst) -> Result<(), AllocError>
    ensures { OnOk result (out.new.items ≡ out.old.items ++ spec.misshaped of_field inst.now) }
{
    let test = is_misranged(of_field, &inst.range)
        || is_mislaid(of_field, inst)
        || is_zero(&inst.stride)
        || is_zero(&inst.alignment);
    note_if(out, test, inst.name.place)
}

fn note_misshaped_next(
    out: &mut Vec<Place>,
    of_field: bool,
    insts: &[RdlNextInst],
) -> Result<(), AllocError>
    ensures { OnOk result (out.new.items ≡ out.old.items ++ spec.misshaped_next of_field insts.now) }
{
    for next in insts {
        note_misshaped(out, of_field, &next.inst)?;
    }
    Ok(())
}

fn note_misshaped_all(
    out: &mut Vec<Place>,
    of_field: bool,
    insts: &RdlInsts,
) -> Result<(), AllocError>
    ensures { OnOk result (out.new.items ≡ out.old.items ++ spec.misshaped_all of_field insts.now) }
{
    note_misshaped(out, of_field, &insts.first)?;
    note_misshaped_next(out, of_field, insts.more.as_slice())
}

fn note_misshaped_of(out: &mut Vec<Place>, definition: &RdlDef) -> Result<(), AllocError>
    ensures { OnOk result (out.new.items ≡ out.old.items ++ spec.misshaped_any (is_field (body_of (out-RdlDef definition.now).kind)) (out-RdlDef definition.now).insts) }
{
    match &definition.insts {
        None => Ok(()),
        Some(insts) => note_misshaped_all(out, Body::of(&definition.kind).is_field(), insts),
    }
}

fn note_misshaped_use(
    out: &mut Vec<Place>,
    insts: &RdlInsts,
    component: &Option<Component<'_>>,
) -> Result<(), AllocError>
    ensures { OnOk result (out.new.items ≡ out.old.items ++ spec.misshaped_use insts.now component.now) }
{
    match component {
        None => Ok(()),
        Some(component) => note_misshaped_all(out, kind_of(component).is_field(), insts),
    }
}

fn note_used<'a>(
    alloc: Global,
    out: &mut Vec<Place>,
    outer: &[&'a [RdlItem]],
    before: &'a [RdlItem],
    uses: &RdlUse,
) -> Result<(), AllocError>
    ensures { OnOk result (out.new.items ≡ out.old.items ++ spec.misshaped_use uses.now.insts (type_of (nows outer.now ++ before.now ∷ []) uses.now.name.text)) }
{
    let component = used_type(alloc, outer, before, uses.name.text.as_bytes())?;
    note_misshaped_use(out, &uses.insts, &component)
}

/// Notes the refusals of the values of one item of a body, with these before it.
pub fn note_misvalued<'a>(
    alloc: Global,
    out: &mut Vec<Place>,
    outer: &[&'a [RdlItem]],
    before: &'a [RdlItem],
    item: &'a RdlItem,
) -> Result<(), AllocError>
    ensures { OnOk result (out.new.items ≡ out.old.items ++ spec.misvalued_by (nows outer.now) before.now (out-RdlItem item.now)) }
{
    match item {
        RdlItem::Def(definition) => note_misshaped_of(out, definition),
        RdlItem::Use(uses) => note_used(alloc, out, outer, before, uses),
        RdlItem::Default(word, prop, _) => {
            let row = row_of(prop.name.text.as_bytes());
            note_if(out, is_misvalued(false, row, &prop.value), word.place)
        }
        RdlItem::Prop(prop, _) => {
            let row = row_of(prop.name.text.as_bytes());
            note_if(out, is_misvalued(false, row, &prop.value), prop.name.place)
        }
        RdlItem::Dynamic(path, _, prop, _) => {
            let row = row_of(prop.name.text.as_bytes());
            note_if(
                out,
                is_misvalued(true, row, &prop.value),
                path.first.name.place,
            )
        }
        RdlItem::Enum(values) => note_miswritten(out, values.entries.as_slice()),
    }
}
