//! Trees of statements and events (IEEE 1364-2005, clause 9 and A.6).
//!
//! ```text
//! event = "*" | "(" "*" ")" | "(" ev {("or" | ",") ev} ")"
//! ev    = ["posedge" | "negedge"] NAME
//! stmt  = ";" | "begin" [":" NAME] {stmt} "end" | lval ("=" | "<=") expr ";"
//!       | "if" "(" expr ")" stmt ["else" stmt]
//!       | ("case" | "casez") "(" expr ")" {citem} "endcase"
//! citem = expr {"," expr} ":" stmt | "default" [":"] stmt
//! ```

use crate::token::VToken;
use crate::tree_expressions::{VExpr, VLval, VNextExpr};
use sqlite_items::{Boxed, Items};

/// `"*" | "(" "*" ")" | "(" ev {("or" | ",") ev} ")"`
#[derive(Drop)]
pub enum VEvent {
    Any(VToken),
    AnyInBrackets(VToken, VToken, VToken),
    Listed(VToken, VEv, Items<VNextEv>, VToken),
}

/// `["posedge" | "negedge"] NAME`
#[derive(Drop)]
pub struct VEv {
    pub edge: Option<VToken>,
    pub name: VToken,
}

/// `("or" | ",") ev`
#[derive(Drop)]
pub struct VNextEv {
    pub separator: VToken,
    pub event: VEv,
}

/// `":" NAME`
#[derive(Drop)]
pub struct VLabel {
    pub colon: VToken,
    pub name: VToken,
}

/// `"if" "(" expr ")"`
#[derive(Drop)]
pub struct VIfHead {
    pub word: VToken,
    pub open: VToken,
    pub test: Boxed<VExpr>,
    pub close: VToken,
}

/// `";" | "begin" [":" NAME] {stmt} "end" | lval ("=" | "<=") expr ";" | "if" "(" expr ")" stmt ["else" stmt] | ("case" | "casez") "(" expr ")" {citem} "endcase"`
#[cycle(stmt)]
#[derive(Drop)]
pub enum VStmt {
    Empty(VToken),
    Block(VToken, Option<VLabel>, Items<VStmt>, VToken),
    Assign(Boxed<VLval>, VToken, Boxed<VExpr>, VToken),
    If(Boxed<VIfHead>, Boxed<VStmt>, Option<VElse>),
    Case(VToken, VToken, Boxed<VExpr>, VToken, Items<VCitem>, VToken),
}

/// `"else" stmt`
#[cycle(stmt)]
#[derive(Drop)]
pub struct VElse {
    pub word: VToken,
    pub stmt: Boxed<VStmt>,
}

/// `expr {"," expr} ":" stmt | "default" [":"] stmt`
#[cycle(stmt)]
#[derive(Drop)]
pub enum VCitem {
    Labels(VExpr, Items<VNextExpr>, VToken, VStmt),
    Default(VToken, Option<VToken>, VStmt),
}
