//! The kinds of registers.

/// What the one field of a register is.
#[derive(Clone, Copy, Debug, PartialEq, Eq)]
pub enum Kind {
    /// Software writes and reads it.
    Storage,
    /// Hardware sets it, software clears it.
    Status,
    /// Hardware writes it under an enable, a read clears it.
    Data,
    /// It is 1 for one edge after a write of 1.
    Pulse,
}
