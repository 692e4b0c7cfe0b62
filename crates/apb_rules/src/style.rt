//! Which of the optional lines a bus has.

/// Says which of the optional lines of the bus are there: `strobe` for PSTRB and `prot` for PPROT.
/// Without PSTRB the strobe counts as all ones, without PPROT the protection counts as 0.
#[derive(Clone, Copy, Debug, PartialEq, Eq, Drop)]
pub struct BusStyle {
    pub strobe: bool,
    pub prot: bool,
}
