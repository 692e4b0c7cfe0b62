//! What a walk over a statement finds.

use crate::bit_set::BitSet;

/// The bits that were read before they were assigned, and those that may be assigned.
#[derive(Drop)]
pub struct Found {
    pub reads: BitSet,
    pub drives: BitSet,
}
