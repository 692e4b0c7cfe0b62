//! Flat expressions: every operand stands at its size, and nets are numbers.

use bit_base::bits::Bits;
use sqlite_items::{Boxed, Items};

/// An expression with its size in bits and its sign (IEEE 1364-2005, 5.4 and 5.5).
#[cycle(expr)]
#[derive(Drop)]
pub struct FlatExpr {
    pub size: u32,
    pub signed: bool,
    pub node: FlatNode,
}

/// What an expression is made of.
#[cycle(expr)]
#[derive(Drop)]
pub enum FlatNode {
    Constant(Bits),
    /// The whole net of this number.
    Net(u32),
    /// `width` bits of a net from `index` on, a place in the numbering of the net's declaration. A constant index is a
    /// `Constant`.
    Select {
        net: u32,
        index: Boxed<FlatExpr>,
        width: u32,
    },
    Unary {
        op: FlatUnary,
        arg: Boxed<FlatExpr>,
    },
    Binary {
        op: FlatBinary,
        left: Boxed<FlatExpr>,
        right: Boxed<FlatExpr>,
    },
    /// `test ? yes : no`
    Choice {
        test: Boxed<FlatExpr>,
        yes: Boxed<FlatExpr>,
        no: Boxed<FlatExpr>,
    },
    /// The parts, the highest first, so many times.
    Join {
        count: u32,
        parts: Items<FlatExpr>,
    },
    /// The operand cut to the size, or extended to it: by its highest bit where `by_sign`, else by 0.
    Resize {
        arg: Boxed<FlatExpr>,
        by_sign: bool,
    },
}

/// An operator before its operand: `+ - ! ~ & ~& | ~| ^ ~^`.
#[derive(Clone, Copy, Debug, PartialEq, Eq, Drop)]
pub enum FlatUnary {
    Plus,
    Minus,
    LogicalNot,
    Not,
    All,
    NotAll,
    Any,
    NotAny,
    Parity,
    NotParity,
}

/// An operator between its operands: `+ - * << >> >>> < <= > >= == != & ^ ~^ | && ||`.
#[derive(Clone, Copy, Debug, PartialEq, Eq, Drop)]
pub enum FlatBinary {
    Add,
    Sub,
    Mul,
    ShiftLeft,
    ShiftRight,
    ShiftSigned,
    Less,
    LessEqual,
    Greater,
    GreaterEqual,
    Equal,
    NotEqual,
    And,
    Xor,
    Xnor,
    Or,
    LogicalAnd,
    LogicalOr,
}
