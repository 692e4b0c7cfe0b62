//! The parts of the texts that have a line or two for each register.

/// A part of a text.
#[derive(Clone, Copy, Debug, PartialEq, Eq)]
pub enum Section {
    /// The registers of the description.
    Description,
    /// The pins of the ports file.
    Pins,
    /// The ports of the block.
    Ports,
    /// Its wires that say which register is accessed.
    Selects,
    /// Its read data.
    Reads,
    /// Its clocked processes.
    Processes,
}
