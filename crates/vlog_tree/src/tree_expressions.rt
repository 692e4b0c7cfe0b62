//! Trees of expressions and left sides (IEEE 1364-2005, clause 5 and A.8).
//!
//! ```text
//! lval   = NAME [select] | "{" lval {"," lval} "}"
//! select = "[" expr "]" | "[" expr ":" expr "]" | "[" expr "+:" expr "]"
//! expr   = prim | unop expr | expr binop expr | expr "?" expr ":" expr
//! prim   = NUMBER | NAME [select] | "(" expr ")" | "{" expr {"," expr} "}"
//!        | "{" expr "{" expr {"," expr} "}" "}" | SYSCALL "(" expr ")"
//! ```

use crate::token::VToken;
use sqlite_items::{Boxed, Items};

/// `prim | unop expr | expr binop expr | expr "?" expr ":" expr`
#[cycle(expr)]
#[derive(Drop)]
pub enum VExpr {
    Prim(Boxed<VPrim>),
    Unary(VToken, Boxed<VExpr>),
    Binary(Boxed<VExpr>, VToken, Boxed<VExpr>),
    /// The test, `?`, the value where it holds, `:`, the value where it doesn't.
    Choice(Boxed<VExpr>, VToken, Boxed<VExpr>, VToken, Boxed<VExpr>),
}

/// `NUMBER | NAME [select] | "(" expr ")" | "{" expr {"," expr} "}" | "{" expr "{" expr {"," expr} "}" "}" | SYSCALL "(" expr ")"`
#[cycle(expr)]
#[derive(Drop)]
pub enum VPrim {
    Number(VToken),
    Name(VToken, Option<VSelect>),
    Group(VToken, Boxed<VExpr>, VToken),
    Join(VToken, Boxed<VExpr>, Items<VNextExpr>, VToken),
    /// `{`, the count, `{`, the parts, `}` and `}`.
    Repeat(VToken, Boxed<VExpr>, VToken, Boxed<VExpr>, Items<VNextExpr>, VToken, VToken),
    Call(VToken, VToken, Boxed<VExpr>, VToken),
}

/// `"[" expr "]" | "[" expr ":" expr "]" | "[" expr "+:" expr "]"`
#[cycle(expr)]
#[derive(Drop)]
pub enum VSelect {
    Bit(VToken, Boxed<VExpr>, VToken),
    /// `[`, the highest place, `:`, the lowest place, `]`.
    Range(VToken, Boxed<VExpr>, VToken, Boxed<VExpr>, VToken),
    /// `[`, the lowest place, `+:`, the width, `]`.
    Upward(VToken, Boxed<VExpr>, VToken, Boxed<VExpr>, VToken),
}

/// `"," expr`
#[cycle(expr)]
#[derive(Drop)]
pub struct VNextExpr {
    pub comma: VToken,
    pub expr: VExpr,
}

/// `NAME [select] | "{" lval {"," lval} "}"`
#[cycle(lval)]
#[derive(Drop)]
pub enum VLval {
    Name(VToken, Option<VSelect>),
    Join(VToken, Boxed<VLval>, Items<VNextLval>, VToken),
}

/// `"," lval`
#[cycle(lval)]
#[derive(Drop)]
pub struct VNextLval {
    pub comma: VToken,
    pub lval: VLval,
}
