//! Flat statements: the bodies of processes.

use crate::expr::FlatExpr;
use bit_base::bits::Bits;
use sqlite_items::{Boxed, Items};

/// A part of a left side: `width` bits of a net from `index` on, or the whole net where there is no index.
#[derive(Drop)]
pub struct FlatLeft {
    pub net: u32,
    pub index: Option<FlatExpr>,
    pub width: u32,
}

/// A label of a case; a bit whose `care` is false matches always.
#[derive(Drop)]
pub struct FlatLabel {
    pub value: FlatExpr,
    pub care: Bits,
}

/// An arm of a case: its body is run where one of its labels matches.
#[cycle(stmt)]
#[derive(Drop)]
pub struct FlatArm {
    pub labels: Items<FlatLabel>,
    pub body: FlatStmt,
}

/// A statement of a process.
#[cycle(stmt)]
#[derive(Drop)]
pub enum FlatStmt {
    Block(Items<FlatStmt>),
    /// An assignment to a join of left sides, the highest first: `<=` where it is `later`, else `=`.
    Assign {
        left: Items<FlatLeft>,
        value: FlatExpr,
        later: bool,
    },
    If {
        test: FlatExpr,
        yes: Boxed<FlatStmt>,
        no: Option<Boxed<FlatStmt>>,
    },
    Case {
        selector: FlatExpr,
        arms: Items<FlatArm>,
        other: Option<Boxed<FlatStmt>>,
    },
}
