//! Expressions whose names are found, whose numbers are read and whose operands have their shapes.

use crate::facts::Facts;
use crate::operators::{Function, Infix, Prefix};
use bit_base::bits::Bits;
use bit_base::place::Place;
use sqlite_items::{Boxed, Items};

/// A net: its number, its width in bits, and the place of its lowest bit.
#[derive(Clone, Copy, Drop)]
pub struct Signal {
    pub net: u32,
    pub width: u32,
    pub lsb: u32,
}

/// An expression with what is known of it.
#[cycle(sized)]
#[derive(Drop)]
pub struct SizedExpr {
    pub facts: Facts,
    pub node: SizedNode,
}

/// What an expression is made of.
#[cycle(sized)]
#[derive(Drop)]
pub enum SizedNode {
    /// A name that isn't declared, or of which no bits can be selected.
    Missing,
    /// A number: its bits, and which of them are unknown.
    Number {
        bits: Bits,
        unknown: Bits,
    },
    /// The name of a constant.
    Constant(Bits),
    Net(Signal),
    /// `NET[index]`, with the place of its `[`.
    Bit {
        signal: Signal,
        bracket: Place,
        index: Boxed<SizedExpr>,
    },
    /// `NET[high:low]`: the ends are the high and the low one.
    Range {
        signal: Signal,
        bracket: Place,
        ends: Boxed<SizedPair>,
    },
    /// `NET[low +: width]`: the ends are the low one and the width.
    Upward {
        signal: Signal,
        bracket: Place,
        ends: Boxed<SizedPair>,
    },
    Group(Boxed<SizedExpr>),
    Unary {
        operator: Prefix,
        operand: Boxed<SizedExpr>,
    },
    Binary {
        operator: Infix,
        operands: Boxed<SizedPair>,
    },
    Choice(Boxed<SizedChoice>),
    /// The parts, the highest first.
    Join(Items<SizedExpr>),
    Repeat(Boxed<SizedRepeat>),
    Call {
        function: Function,
        argument: Boxed<SizedExpr>,
    },
}

/// Two expressions, one after the other.
#[cycle(sized)]
#[derive(Drop)]
pub struct SizedPair {
    pub left: SizedExpr,
    pub right: SizedExpr,
}

/// The test of a choice and its values.
#[cycle(sized)]
#[derive(Drop)]
pub struct SizedChoice {
    pub test: SizedExpr,
    pub yes_value: SizedExpr,
    pub no_value: SizedExpr,
}

/// The count of a replication and its parts, the highest first.
#[cycle(sized)]
#[derive(Drop)]
pub struct SizedRepeat {
    pub count: SizedExpr,
    pub parts: Items<SizedExpr>,
}
