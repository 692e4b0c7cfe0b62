//! Items of a flat design: assignments and processes.

use crate::expr::FlatExpr;
use crate::stmt::{FlatLeft, FlatStmt};
use bit_base::place::Place;
use sqlite_items::Items;

/// The edge of an event; `Either` is an event without `posedge` and `negedge`.
#[derive(Clone, Copy, Debug, PartialEq, Eq, Drop)]
pub enum FlatEdge {
    Rising,
    Falling,
    Either,
}

/// A net that a clocked process waits for, with the edge.
#[derive(Clone, Copy, Debug, PartialEq, Eq, Drop)]
pub struct FlatEvent {
    pub net: u32,
    pub edge: FlatEdge,
}

/// An item: `place` is that of its first token, and `targets` are the numbers of the nets that it assigns, rising.
#[derive(Drop)]
pub enum FlatItem {
    /// An assignment, or a port's connection.
    Assign {
        place: Place,
        targets: Items<u32>,
        left: Items<FlatLeft>,
        value: FlatExpr,
        connection: bool,
    },
    /// A combinational process: no edge stands in its event.
    Comb {
        place: Place,
        targets: Items<u32>,
        body: FlatStmt,
    },
    /// A clocked process.
    Clocked {
        place: Place,
        targets: Items<u32>,
        events: Items<FlatEvent>,
        body: FlatStmt,
    },
}
