//! Trees of a description: one type for each row of the grammar, and one for each repeated or optional part that
//! has tokens of its own. The alternatives of a row are variants, an optional part is an `Option`, a repeated part a
//! list, and each token stands in the tree.
//!
//! ```text
//! file  = {item}
//! item  = def | use | "default" prop ";" | prop ";" | path "->" prop ";" | enum
//! def   = kind [NAME] "{" {item} "}" [inst {"," inst}] ";"
//! kind  = "addrmap" | "regfile" | "reg" | "field"
//! use   = NAME inst {"," inst} ";"
//! inst  = NAME ["[" NUM [":" NUM] "]"] ["=" NUM] ["@" NUM] ["+=" NUM] ["%=" NUM]
//! prop  = NAME ["=" value]
//! value = NUM | STRING | "true" | "false" | path ["->" NAME]
//! path  = step {"." step}
//! step  = NAME ["[" NUM "]"]
//! enum  = "enum" NAME "{" {NAME ["=" NUM] ["{" {prop ";"} "}"] ";"} "}" ";"
//! ```

use crate::token::RdlToken;
use bit_base::place::Place;
use sqlite_items::Items;

/// `{item}`, and the place after the last byte.
#[derive(Drop)]
pub struct RdlFile {
    pub items: Items<RdlItem>,
    pub end: Place,
}

/// `def | use | "default" prop ";" | prop ";" | path "->" prop ";" | enum`
#[cycle(item)]
#[derive(Drop)]
pub enum RdlItem {
    Def(RdlDef),
    Use(RdlUse),
    /// The word `default`, the property and `;`.
    Default(RdlToken, RdlProp, RdlToken),
    /// The property and `;`.
    Prop(RdlProp, RdlToken),
    /// The path, `->`, the property and `;`.
    Dynamic(RdlPath, RdlToken, RdlProp, RdlToken),
    Enum(RdlEnum),
}

/// `kind [NAME] "{" {item} "}" [inst {"," inst}] ";"`
#[cycle(item)]
#[derive(Drop)]
pub struct RdlDef {
    pub kind: RdlKind,
    pub name: Option<RdlToken>,
    pub open: RdlToken,
    pub items: Items<RdlItem>,
    pub close: RdlToken,
    pub insts: Option<RdlInsts>,
    pub semi: RdlToken,
}

/// `"addrmap" | "regfile" | "reg" | "field"`
#[derive(Drop)]
pub enum RdlKind {
    Addrmap(RdlToken),
    Regfile(RdlToken),
    Reg(RdlToken),
    Field(RdlToken),
}

/// `NAME inst {"," inst} ";"`
#[derive(Drop)]
pub struct RdlUse {
    pub name: RdlToken,
    pub insts: RdlInsts,
    pub semi: RdlToken,
}

/// `inst {"," inst}`
#[derive(Drop)]
pub struct RdlInsts {
    pub first: RdlInst,
    pub more: Items<RdlNextInst>,
}

/// `"," inst`
#[derive(Drop)]
pub struct RdlNextInst {
    pub comma: RdlToken,
    pub inst: RdlInst,
}

/// `NAME ["[" NUM [":" NUM] "]"] ["=" NUM] ["@" NUM] ["+=" NUM] ["%=" NUM]`
#[derive(Drop)]
pub struct RdlInst {
    pub name: RdlToken,
    pub range: Option<RdlRange>,
    /// `"=" NUM`
    pub reset: Option<RdlMarked>,
    /// `"@" NUM`
    pub address: Option<RdlMarked>,
    /// `"+=" NUM`
    pub stride: Option<RdlMarked>,
    /// `"%=" NUM`
    pub alignment: Option<RdlMarked>,
}

/// `"[" NUM [":" NUM] "]"`
#[derive(Drop)]
pub struct RdlRange {
    pub open: RdlToken,
    pub first: RdlToken,
    /// `":" NUM`
    pub second: Option<RdlMarked>,
    pub close: RdlToken,
}

/// A mark and the number that it gives.
#[derive(Drop)]
pub struct RdlMarked {
    pub mark: RdlToken,
    pub number: RdlToken,
}

/// `NAME ["=" value]`
#[derive(Drop)]
pub struct RdlProp {
    pub name: RdlToken,
    pub value: Option<RdlAssigned>,
}

/// `"=" value`
#[derive(Drop)]
pub struct RdlAssigned {
    pub equals: RdlToken,
    pub value: RdlValue,
}

/// `NUM | STRING | "true" | "false" | path ["->" NAME]`
#[derive(Drop)]
pub enum RdlValue {
    Num(RdlToken),
    Str(RdlToken),
    True(RdlToken),
    False(RdlToken),
    Reference(RdlPath, Option<RdlSignal>),
}

/// `"->" NAME`
#[derive(Drop)]
pub struct RdlSignal {
    pub arrow: RdlToken,
    pub name: RdlToken,
}

/// `step {"." step}`
#[derive(Drop)]
pub struct RdlPath {
    pub first: RdlStep,
    pub more: Items<RdlNextStep>,
}

/// `"." step`
#[derive(Drop)]
pub struct RdlNextStep {
    pub dot: RdlToken,
    pub step: RdlStep,
}

/// `NAME ["[" NUM "]"]`
#[derive(Drop)]
pub struct RdlStep {
    pub name: RdlToken,
    pub index: Option<RdlIndex>,
}

/// `"[" NUM "]"`
#[derive(Drop)]
pub struct RdlIndex {
    pub open: RdlToken,
    pub number: RdlToken,
    pub close: RdlToken,
}

/// `"enum" NAME "{" {entry} "}" ";"`
#[derive(Drop)]
pub struct RdlEnum {
    pub word: RdlToken,
    pub name: RdlToken,
    pub open: RdlToken,
    pub entries: Items<RdlEntry>,
    pub close: RdlToken,
    pub semi: RdlToken,
}

/// `NAME ["=" NUM] ["{" {prop ";"} "}"] ";"`
#[derive(Drop)]
pub struct RdlEntry {
    pub name: RdlToken,
    /// `"=" NUM`
    pub value: Option<RdlMarked>,
    pub body: Option<RdlEntryBody>,
    pub semi: RdlToken,
}

/// `"{" {prop ";"} "}"`
#[derive(Drop)]
pub struct RdlEntryBody {
    pub open: RdlToken,
    pub props: Items<RdlEntryProp>,
    pub close: RdlToken,
}

/// `prop ";"`
#[derive(Drop)]
pub struct RdlEntryProp {
    pub prop: RdlProp,
    pub semi: RdlToken,
}
