//! What software and hardware may do to a field, by its effective properties.

ghost use Rattle.std.specs.Prelude.{◌≡◌};
ghost use Rattle.std.specs.Option.{option_map, option_and_then};
ghost use Rattle.rdl_tree.specs.declared.tree.RdlProp.{RdlProp};
ghost use Rattle.rdl_values.specs.Accesses as spec;

use crate::frame::Frame;
use crate::value::{assigned_at, is_set};
use field_policies::policy::{ReadEffect, WriteEffect};
use rdl_text::form::word_of;
use rdl_text::property::Property;
use rdl_tree::token::RdlToken;
use rdl_tree::tree::{RdlAssigned, RdlProp};

/// What software may do: `sw`.
#[derive(Clone, Copy, Debug, PartialEq, Eq, Drop)]
pub struct SwAccess {
    pub readable: bool,
    pub writable: bool,
    /// Only the first write counts.
    pub once: bool,
}

/// What hardware may do: `hw`.
#[derive(Clone, Copy, Debug, PartialEq, Eq, Drop)]
pub struct HwAccess {
    pub reads: bool,
    pub writes: bool,
}

#[tactic(auto, unfolding(crate::specs::Accesses::sw_word))]
fn sw_word(token: &RdlToken) -> SwAccess
    ensures { result ≡ spec.sw_word token.now }
{
    SwAccess {
        readable: !token.is_text(b"w") & !token.is_text(b"na") & !token.is_text(b"w1"),
        writable: !token.is_text(b"r") & !token.is_text(b"na"),
        once: token.is_text(b"rw1") | token.is_text(b"w1"),
    }
}

#[tactic(auto, unfolding(crate::specs::Accesses::hw_word))]
fn hw_word(token: &RdlToken) -> HwAccess
    ensures { result ≡ spec.hw_word token.now }
{
    HwAccess {
        reads: !token.is_text(b"w") & !token.is_text(b"na"),
        writes: !token.is_text(b"r") & !token.is_text(b"na"),
    }
}

fn word_given(value: &Option<RdlAssigned>) -> Option<&RdlToken>
    ensures { option_map (λ t. t.now) result ≡ option_and_then (λ a. spec.word_in a) value.now }
{
    match value {
        None => None,
        Some(assigned) => word_of(&assigned.value),
    }
}

// The word that is the effective value of a property.
fn word_at<'a>(trail: &[Frame<'a>], property: Property) -> Option<&'a RdlToken>
    ensures { option_map (λ t. t.now) result ≡ spec.word_at trail.now property }
{
    match assigned_at(trail, property) {
        None => None,
        Some(prop) => word_given(&prop.value),
    }
}

/// The effective `sw` at the end of a trail.
pub fn sw_at(trail: &[Frame<'_>]) -> SwAccess
    ensures { result ≡ spec.sw_at trail.now }
{
    match word_at(trail, Property::Sw) {
        None => SwAccess {
            readable: true,
            writable: true,
            once: false,
        },
        Some(word) => sw_word(word),
    }
}

/// The effective `hw` at the end of a trail.
pub fn hw_at(trail: &[Frame<'_>]) -> HwAccess
    ensures { result ≡ spec.hw_at trail.now }
{
    match word_at(trail, Property::Hw) {
        None => HwAccess {
            reads: true,
            writes: true,
        },
        Some(word) => hw_word(word),
    }
}

#[tactic(auto, unfolding(crate::specs::Accesses::is_hw_first))]
fn is_hw_first(token: &RdlToken) -> bool
    ensures { result ≡ spec.is_hw_first token.now }
{
    token.is_text(b"hw")
}

/// Whether hardware goes before software: `precedence = hw`.
pub fn hw_first_at(trail: &[Frame<'_>]) -> bool
    ensures { result ≡ spec.hw_first_at trail.now }
{
    match word_at(trail, Property::Precedence) {
        None => false,
        Some(word) => is_hw_first(word),
    }
}

#[tactic(auto, unfolding(crate::specs::Accesses::read_word))]
fn read_word(token: &RdlToken) -> ReadEffect
    ensures { result ≡ spec.read_word token.now }
{
    if token.is_text(b"rclr") {
        ReadEffect::Clear
    } else if token.is_text(b"rset") {
        ReadEffect::Set
    } else {
        ReadEffect::Keep
    }
}

// The effect of `onread`, or of `rclr` and `rset`, which have no word.
fn read_of(prop: &RdlProp) -> ReadEffect
    ensures { result ≡ spec.read_of prop.now }
{
    if !is_set(Some(prop)) {
        return ReadEffect::Keep;
    }
    match word_given(&prop.value) {
        None => read_word(&prop.name),
        Some(word) => read_word(word),
    }
}

/// What a read does to a field, by its effective `onread`.
pub fn read_at(trail: &[Frame<'_>]) -> ReadEffect
    ensures { result ≡ spec.read_at trail.now }
{
    match assigned_at(trail, Property::Onread) {
        None => ReadEffect::Keep,
        Some(prop) => read_of(prop),
    }
}

#[tactic(auto, unfolding(crate::specs::Accesses::write_word))]
fn write_word(token: &RdlToken) -> WriteEffect
    ensures { result ≡ spec.write_word token.now }
{
    if token.is_text(b"woset") {
        WriteEffect::OneSet
    } else if token.is_text(b"woclr") {
        WriteEffect::OneClear
    } else if token.is_text(b"wot") {
        WriteEffect::OneToggle
    } else if token.is_text(b"wzs") {
        WriteEffect::ZeroSet
    } else if token.is_text(b"wzc") {
        WriteEffect::ZeroClear
    } else if token.is_text(b"wzt") {
        WriteEffect::ZeroToggle
    } else if token.is_text(b"wclr") {
        WriteEffect::Clear
    } else if token.is_text(b"wset") {
        WriteEffect::Set
    } else {
        WriteEffect::AsIs
    }
}

// The effect of `onwrite`, or of `woclr` and `woset`, which have no word.
fn write_of(prop: &RdlProp) -> WriteEffect
    ensures { result ≡ spec.write_of prop.now }
{
    if !is_set(Some(prop)) {
        return WriteEffect::AsIs;
    }
    match word_given(&prop.value) {
        None => write_word(&prop.name),
        Some(word) => write_word(word),
    }
}

/// What a write does to a field, by its effective `onwrite`.
pub fn write_at(trail: &[Frame<'_>]) -> WriteEffect
    ensures { result ≡ spec.write_at trail.now }
{
    match assigned_at(trail, Property::Onwrite) {
        None => WriteEffect::AsIs,
        Some(prop) => write_of(prop),
    }
}
