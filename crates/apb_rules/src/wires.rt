//! The wires of the bus, and what a master may choose of them.

/// What the master drives at one edge: PSEL, PENABLE, PWRITE, PADDR (a byte address), PWDATA,
/// PSTRB (one bit for each byte of the data, the lowest byte first) and PPROT (three bits).
#[derive(Clone, Copy, Debug, PartialEq, Eq, Drop)]
pub struct BusWires {
    pub select: bool,
    pub enable: bool,
    pub write: bool,
    pub address: u32,
    pub payload: u32,
    pub strobe: u32,
    pub prot: u32,
}

/// What the master would like to drive at one edge: `start` asks for a transfer where none is
/// open, and the others are the values of the wires where the protocol leaves them free.
#[derive(Clone, Copy, Debug, PartialEq, Eq, Drop)]
pub struct Choice {
    pub start: bool,
    pub enable: bool,
    pub write: bool,
    pub address: u32,
    pub payload: u32,
    pub strobe: u32,
    pub prot: u32,
}
