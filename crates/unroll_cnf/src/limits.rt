//! How much is asked at once.

/// The most edges that a base query has, and that a step query has before its bad edge.
pub const MOST_EDGES: u32 = 32;

/// The most clauses and literals that a set has together.
pub const MOST_WEIGHT: usize = 1 << 28;
