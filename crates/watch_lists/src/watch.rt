//! Watches: in the list of a literal, the clauses that are watched at it.

use lemma_checker::literal::Literal;

/// A clause in the list of one of its two watched literals, by its number less 1, with a literal of
/// it: where that one is true, the clause needs no look. Its literals are those of the table from
/// `start` to `end`: this spares a look at the table of starts, which is mostly far from the cache.
#[derive(Clone, Copy, Debug, Drop)]
pub struct Watch {
    pub clause: u32,
    pub blocker: Literal,
    pub start: u32,
    pub end: u32,
}
