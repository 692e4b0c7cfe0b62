//! The operators of expressions (IEEE 1364-2005, 5.1), and the system functions (17.7.1, 17.11.1).

/// An operator before its operand.
#[derive(Clone, Copy, Drop)]
pub enum Prefix {
    Plus,
    Minus,
    /// `!`
    LogicalNot,
    /// `~`
    Not,
    /// The reductions `&`, `~&`, `|`, `~|`, `^` and `~^`.
    All,
    NotAll,
    Any,
    NotAny,
    Parity,
    NotParity,
}

/// An operator between its operands.
#[derive(Clone, Copy, Drop)]
pub enum Infix {
    Power,
    Multiply,
    Divide,
    Remainder,
    Add,
    Subtract,
    /// `<<` and `<<<`
    ShiftLeft,
    /// `>>`
    ShiftRight,
    /// `>>>`
    ShiftSigned,
    Less,
    LessEqual,
    Greater,
    GreaterEqual,
    /// `==` and `===`
    Equal,
    /// `!=` and `!==`
    NotEqual,
    And,
    Xor,
    Xnor,
    Or,
    LogicalAnd,
    LogicalOr,
}

/// A system function of one argument.
#[derive(Clone, Copy, Drop)]
pub enum Function {
    Clog2,
    Signed,
    Unsigned,
}
