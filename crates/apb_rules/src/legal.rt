//! The legal master: the test of one edge, and what holds of it over whole lists of edges.

ghost use Rattle.std.specs.Prelude.{◌≡◌, ◌↔◌, ℕ, false, IsTrue, List, map, take};
ghost use Rattle.std.specs.List.{All};
ghost use Rattle.apb_rules.specs.declared.phase.Phase.TheVariants.{Free};
ghost use Rattle.apb_rules.specs.Lines.{IsBusBytes};
ghost use Rattle.apb_rules.specs.Legal.{FitsLines, IsIdle, IsSetup, IsAccess, IsLegalIn};
ghost use Rattle.apb_rules.specs.Master.{BusEdge, Traffic, IsLegalMaster, IsLegalFrom, asked_over, events};
ghost use Rattle.apb_rules.specs.Moves.{Move, FitsBus, move_of, calm, edges_of};

use crate::drive::{prot_of, strobe_of};
use crate::phase::{Held, Phase};
use crate::style::BusStyle;
use crate::wires::BusWires;

/// Whether these wires are legal at an edge in this phase, on a bus of `bytes` bytes.
pub fn is_legal(phase: Phase, wires: BusWires, bytes: u32, style: BusStyle) -> bool
    requires { IsBusBytes bytes }
    ensures { IsTrue result ↔ IsLegalIn style bytes phase wires }
{
    match phase {
        Phase::Free if wires.select => is_setup(wires, bytes, style),
        Phase::Free => fits_lines(wires, bytes, style),
        Phase::Access(held) => is_access(held, wires, bytes, style),
    }
}

// Whether the wires' strobe and protection are what the lines can carry.
fn fits_lines(wires: BusWires, bytes: u32, style: BusStyle) -> bool
    requires { IsBusBytes bytes }
    ensures { IsTrue result ↔ FitsLines style bytes wires }
{
    let strobe_fits = wires.strobe < 1 << bytes
        && (style.strobe || wires.strobe == (1 << bytes) - 1);
    let prot_fits = wires.prot < 8 && (style.prot || wires.prot == 0);
    strobe_fits && prot_fits
}

// Whether the wires are those of a setup phase.
fn is_setup(wires: BusWires, bytes: u32, style: BusStyle) -> bool
    requires { IsBusBytes bytes }
    ensures { IsTrue result ↔ IsSetup style bytes wires }
{
    let starts = wires.select && !wires.enable && wires.address % bytes == 0;
    let strobe_is_right = !style.strobe || wires.write || wires.strobe == 0;
    starts && strobe_is_right && fits_lines(wires, bytes, style)
}

// Whether the wires are those of an access phase that holds this.
fn is_access(held: Held, wires: BusWires, bytes: u32, style: BusStyle) -> bool
    requires { IsBusBytes bytes }
    ensures { IsTrue result ↔ IsAccess style bytes held wires }
{
    let goes_on = wires.select && wires.enable && wires.write == held.write;
    let same_request = wires.address == held.address
        && (!held.write || wires.payload == held.payload);
    let same_strobe = wires.strobe == strobe_of(held.strobe, bytes, style);
    goes_on && same_request && same_strobe && wires.prot == prot_of(held.prot, style)
}

/// Law: a list of edges is a legal master's, reset at its first `resets` edges, exactly where PSEL
/// is 0 at these and each edge is legal in the phase that the edges before it leave, from `Free` on.
pub fn master_edge_by_edge(bytes: u32, style: BusStyle, resets: u32)
    ensures { (edges : List BusEdge)
        → IsLegalMaster style bytes resets edges
        ↔ (All (λ edge. edge.wires.select ≡ false) (take resets edges) × IsLegalFrom style bytes Free edges) }
{}

/// Law: what choices drive is a legal master, whatever the block answers, and each legal master is
/// driven by choices, those of its own wires. No transfer is started at the first `resets` edges.
pub fn master_by_choices(bytes: u32, style: BusStyle, resets: u32)
    ensures drives_legal { (moves : List Move)
        → All (λ move. FitsBus bytes move.choice) moves
        → IsLegalMaster style bytes resets (edges_of style bytes Free (calm resets moves)) }
    ensures legal_is_driven { (edges : List BusEdge)
        → IsLegalMaster style bytes resets edges
        → edges_of style bytes Free (calm resets (map move_of edges)) ≡ edges }
    ensures choices_fit { (edges : List BusEdge)
        → IsLegalMaster style bytes resets edges
        → All (λ move. FitsBus bytes move.choice) (map move_of edges) }
{}

/// Law: over a legal master's edges the block is asked at the end of each transfer what its setup
/// edge asked, and nothing at the other edges.
pub fn transfers_asked_once(bytes: u32, style: BusStyle)
    ensures { (edges : List BusEdge) (traffic : Traffic style bytes edges)
        → events edges ≡ asked_over style bytes traffic }
{}
