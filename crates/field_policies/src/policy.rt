//! The field access policies and their effects.

/// What a read by software does to a field (SystemRDL 2.0, clause 9, `onread`).
#[derive(Clone, Copy, Debug, PartialEq, Eq, Drop)]
pub enum ReadEffect {
    /// Nothing: the field keeps its value.
    Keep,
    /// `rclr`: every bit becomes 0.
    Clear,
    /// `rset`: every bit becomes 1.
    Set,
}

/// What a write by software does to a field (SystemRDL 2.0, clause 9, `onwrite`).
#[derive(Clone, Copy, Debug, PartialEq, Eq, Drop)]
pub enum WriteEffect {
    /// The field takes the written data.
    AsIs,
    /// `woset`: a written 1 sets its bit.
    OneSet,
    /// `woclr`: a written 1 clears its bit.
    OneClear,
    /// `wot`: a written 1 inverts its bit.
    OneToggle,
    /// `wzs`: a written 0 sets its bit.
    ZeroSet,
    /// `wzc`: a written 0 clears its bit.
    ZeroClear,
    /// `wzt`: a written 0 inverts its bit.
    ZeroToggle,
    /// `wclr`: any write clears every bit.
    Clear,
    /// `wset`: any write sets every bit.
    Set,
}

/// The 25 field access policies that have a name here, as IEEE 1800.2 (register layer) spells them.
#[derive(Clone, Copy, Debug, PartialEq, Eq, Drop)]
pub enum Policy {
    RO,
    RC,
    RS,
    RW,
    WRC,
    WRS,
    WC,
    WCRS,
    WS,
    WSRC,
    W1C,
    W1CRS,
    W1S,
    W1SRC,
    W1T,
    W0C,
    W0CRS,
    W0S,
    W0SRC,
    W0T,
    W1,
    WO,
    WOC,
    WOS,
    WO1,
}

/// What a policy's name says: whether software reads and writes the field, whether only the first
/// write counts, and the two effects.
#[derive(Clone, Copy, Debug, PartialEq, Eq, Drop)]
pub struct PolicyRow {
    pub policy: Policy,
    pub readable: bool,
    pub writable: bool,
    pub once: bool,
    pub read: ReadEffect,
    pub write: WriteEffect,
}
