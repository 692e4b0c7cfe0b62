//! The master that drives what it may.

ghost use Rattle.std.specs.Prelude.{◌≡◌, ◌<◌, ◌^◌};
ghost use Rattle.apb_rules.specs.Lines.{IsBusBytes, strobe_line, prot_line};
ghost use Rattle.apb_rules.specs.Drive.{driven};
ghost use Rattle.apb_rules.specs.Legal.{IsLegalIn};
ghost use Rattle.apb_rules.specs.Moves.{choice_of};

use crate::phase::Phase;
use crate::style::BusStyle;
use crate::wires::{BusWires, Choice};

/// The wires that a legal master drives for this choice in this phase, on a bus of `bytes` bytes.
pub fn drive(phase: Phase, choice: Choice, bytes: u32, style: BusStyle) -> BusWires
    requires bytes { IsBusBytes bytes }
    requires strobe { choice.strobe < 2 ^ bytes }
    requires prot { choice.prot < 8 }
    ensures exact { result ≡ driven style bytes phase choice }
    ensures drives_legal { IsLegalIn style bytes phase result }
    ensures legal_is_driven { (wires : BusWires) → IsLegalIn style bytes phase wires → choice ≡ choice_of wires → result ≡ wires }
{
    match phase {
        Phase::Free if choice.start => BusWires {
            select: true,
            enable: false,
            write: choice.write,
            address: choice.address - choice.address % bytes,
            payload: choice.payload,
            strobe: strobe_of(if choice.write { choice.strobe } else { 0 }, bytes, style),
            prot: prot_of(choice.prot, style),
        },
        Phase::Free => BusWires {
            select: false,
            enable: choice.enable,
            write: choice.write,
            address: choice.address,
            payload: choice.payload,
            strobe: strobe_of(choice.strobe, bytes, style),
            prot: prot_of(choice.prot, style),
        },
        Phase::Access(held) => BusWires {
            select: true,
            enable: true,
            write: held.write,
            address: held.address,
            payload: if held.write {
                held.payload
            } else {
                choice.payload
            },
            strobe: strobe_of(held.strobe, bytes, style),
            prot: prot_of(held.prot, style),
        },
    }
}

// What PSTRB counts as where the master has this strobe to give.
pub(crate) fn strobe_of(strobe: u32, bytes: u32, style: BusStyle) -> u32
    requires { IsBusBytes bytes }
    ensures { result ≡ strobe_line style bytes strobe }
{
    if style.strobe {
        strobe
    } else {
        (1 << bytes) - 1
    }
}

// What PPROT counts as where the master has this protection to give.
pub(crate) fn prot_of(prot: u32, style: BusStyle) -> u32
    ensures { result ≡ prot_line style prot }
{
    if style.prot { prot } else { 0 }
}
