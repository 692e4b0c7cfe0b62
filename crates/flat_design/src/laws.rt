//! The laws of flat designs, as functions that do nothing: each one's contract is the law.

ghost use Rattle.flat_design.specs.Laws.{ValueHasSize, ExprIsFramed, StmtHasFlow, ItemHasFlow};

/// An expression has as many bits as its size says, and its value depends on the bits that it reads alone.
pub fn values_are_framed()
    ensures value_has_size { ValueHasSize }
    ensures expr_is_framed { ExprIsFramed }
{}

/// A statement and an item change only what they drive, by what they read; what no path leaves unassigned is then fixed.
pub fn effects_are_framed()
    ensures stmt_has_flow { StmtHasFlow }
    ensures item_has_flow { ItemHasFlow }
{}
