//! The joint run: block and register machine side by side under one legal master.

ghost use Rattle.std.specs.Prelude.{◌≡◌, ◌<◌, ◌&&◌, ℕ, Bool, not, length, IfOk, IfSome};
ghost use Rattle.field_policies.specs.Bits.{AreBitsOf};
ghost use Rattle.trace_replay.specs.Runs.{JointRun, IsJointRun, IsFirst};
ghost use Rattle.trace_replay.specs.Joint.{start_of, in_reset, wires_of, pins_of, shown_at, state_after, is_read, is_waiting, unlike, wrong_error, wrong_output, difference_at, waited_after, wires_from, first_from, first_difference};

use crate::block::{Block, Outputs};
use crate::pins::Pins;
use apb_rules::drive::drive;
use apb_rules::event::{BusEvent, event_of};
use apb_rules::phase::{Phase, next_phase};
use apb_rules::style::BusStyle;
use apb_rules::wires::{BusWires, Choice};
use field_policies::signal::OutSignal;
use reg_machine::machine::{Answer, Machine};
use std::alloc::{AllocError, Global};
use std::marker::Model;
use std::vec::Vec;

/// How many edges the reset pin is active, from the first edge on.
pub const RESET_EDGES: u32 = 1;

/// How many access edges of a transfer PREADY may be 0.
pub const WAIT: u32 = 0;

/// Whether the machine refuses an event at an address without a word.
pub const UNMAPPED_ERROR: bool = false;

/// The state before an edge: `edge` counts the edges so far and stops at the reset edges' number;
/// `waited` counts the access edges of the open transfer at which PREADY was 0 and stops one
/// above the number that may be.
#[derive(Drop)]
pub struct JointState {
    edge: u32,
    register: u8,
    machine: Machine,
    phase: Phase,
    waited: u32,
}

impl Model for JointState {
    ghost use Rattle.reg_machine.specs.States.{state_of};
    ghost use Rattle.trace_replay.specs.States.{JointParts, OfOneByte};

    ghost Value = { JointParts };

    ghost view = { λ s. record { edge = s.edge; register = s.register; machine = state_of s.machine; phase = s.phase; waited = s.waited } };

    ghost invariant = { λ s. OfOneByte s.machine };
}

/// How block and machine differ at an edge: a wait too long, PSLVERR, PRDATA, or the output of the
/// given `out` line of the ports file.
#[derive(Clone, Copy, Debug, PartialEq, Eq)]
pub enum Difference {
    Wait,
    Error,
    ReadData,
    Output(u32),
}

/// The state before the first edge, where the block's register holds `register`.
pub fn start(alloc: Global, block: &Block, register: u8) -> Result<JointState, AllocError>
    ensures { IfOk result (λ state. state ≡ start_of block.now register) }
{
    Ok(JointState {
        edge: 0,
        register,
        machine: Machine::reset(alloc, &block.map)?,
        phase: Phase::Free,
        waited: 0,
    })
}

impl JointState {
    /// Whether the next edge is a reset edge.
    pub fn in_reset(&self) -> bool
        ensures { result ≡ in_reset self.now }
    {
        self.edge < RESET_EDGES
    }

    /// The phase of the bus before the next edge.
    pub fn phase(&self) -> Phase
        ensures { result ≡ self.now.phase }
    {
        self.phase
    }

    /// The wires that the master drives for this choice.
    pub fn wires(&self, choice: Choice) -> BusWires
        ensures { result ≡ wires_of self.now choice }
    {
        let start = choice.start && !self.in_reset();
        let style = BusStyle {
            strobe: false,
            prot: false,
        };
        drive(
            self.phase,
            Choice {
                start,
                strobe: 0,
                prot: 0,
                ..choice
            },
            1,
            style,
        )
    }

    /// The pins of the block under these wires.
    pub fn pins(&self, wires: BusWires) -> Pins
        ensures { result ≡ pins_of self.now wires }
    {
        Pins {
            reset_n: !self.in_reset(),
            bus: wires,
        }
    }

    /// What the block shows under these wires.
    fn shown(&self, block: &Block, wires: BusWires) -> Outputs
        ensures { result ≡ shown_at block.now self.now wires }
    {
        block.shown(self.pins(wires), self.register)
    }

    /// The difference of the edge with these wires, the first of the four that holds.
    pub fn difference(&self, block: &Block, wires: BusWires) -> Option<Difference>
        ensures { result ≡ difference_at block.now self.now wires }
    {
        if self.in_reset() {
            return None;
        }
        let shown = self.shown(block, wires);
        let event = event_of(wires, shown.ready);
        if is_waiting(wires, shown) && self.waited >= WAIT {
            return Some(Difference::Wait);
        }
        let answer = self.machine.answer(&block.map, UNMAPPED_ERROR, event, &[]);
        if wrong_error(answer.error, event, shown) {
            return Some(Difference::Error);
        }
        if is_wrong_data(answer, event, shown) {
            return Some(Difference::ReadData);
        }
        if self.is_wrong_output(block, event, shown) {
            return Some(Difference::Output(0));
        }
        None
    }

    /// Whether the mapped output, the value of the map's field, counts and is unlike the machine's.
    fn is_wrong_output(&self, block: &Block, event: BusEvent, shown: Outputs) -> bool
        ensures { result ≡ wrong_output block.now self.now.machine event shown }
    {
        let signal = OutSignal::Value;
        self.machine.counts(&block.map, 0, signal)
            && u32::from(shown.value) != self.machine.output(&block.map, event, &[], 0, signal)
    }

    /// Steps over the edge with these wires.
    pub fn step(&mut self, block: &Block, wires: BusWires)
        ensures { self.new ≡ state_after block.now self.old wires }
    {
        let pins = self.pins(wires);
        let shown = self.shown(block, wires);
        let event = event_of(wires, shown.ready);
        let reset = self.in_reset();
        self.register = block.taken(pins, self.register);
        self.waited = waited(self.waited, wires, shown);
        self.edge = self.edge.saturating_add(1).min(RESET_EDGES);
        if reset {
            self.phase = Phase::Free;
        } else {
            self.machine.step(&block.map, event, &[]);
            self.phase = next_phase(self.phase, wires, shown.ready);
        }
    }
}

/// Whether this edge belongs to an access phase and PREADY is 0.
fn is_waiting(wires: BusWires, shown: Outputs) -> bool
    ensures { result ≡ is_waiting wires shown }
{
    wires.select && wires.enable && !shown.ready
}

/// How many edges the open transfer waited after this edge, at most one above the number that may
/// be.
fn waited(before: u32, wires: BusWires, shown: Outputs) -> u32
    ensures { result ≡ waited_after before wires shown }
{
    if is_waiting(wires, shown) {
        before.saturating_add(1).min(WAIT + 1)
    } else {
        0
    }
}

/// Whether a transfer ends here with a PSLVERR unlike the machine's error.
fn wrong_error(error: bool, event: BusEvent, shown: Outputs) -> bool
    ensures { result ≡ wrong_error error event shown }
{
    match event {
        BusEvent::Nothing => false,
        BusEvent::Read(_) | BusEvent::Write { .. } => shown.error != error,
    }
}

/// Whether a read ends here, which the machine doesn't refuse, with a PRDATA unlike its data in a bit
/// that counts.
fn is_wrong_data(answer: Answer, event: BusEvent, shown: Outputs) -> bool
    ensures { (word counts : ℕ → Bool) → AreBitsOf 8 word answer.payload → AreBitsOf 8 counts answer.counts → result ≡ (is_read event && not answer.error && unlike 8 shown.read_data word counts) }
{
    match event {
        BusEvent::Read(_) => !answer.error && is_unlike(shown.read_data, answer),
        BusEvent::Nothing | BusEvent::Write { .. } => false,
    }
}

/// Whether this data is unlike the answer's in a bit that counts.
fn is_unlike(shown: u8, answer: Answer) -> bool
    ensures { (word counts : ℕ → Bool) → AreBitsOf 8 word answer.payload → AreBitsOf 8 counts answer.counts → result ≡ unlike 8 shown word counts }
{
    answer.counts & (u32::from(shown) ^ answer.payload) != 0
}

/// The wires of the run under these choices, from this state on.
pub fn run_wires(
    alloc: Global,
    block: &Block,
    start: JointState,
    choices: &[Choice],
) -> Result<Vec<BusWires>, AllocError>
    ensures { IfOk result (λ wires. wires.items ≡ wires_from block.now start choices.now) }
{
    let mut state = start;
    let mut run = Vec::with_capacity(alloc, choices.len())?;
    for choice in choices {
        let wires = state.wires(*choice);
        state.step(block, wires);
        run.push(wires)?;
    }
    Ok(run)
}

/// The first edge with a difference of the run under these wires, from this state on, and that
/// difference.
fn first_from(block: &Block, start: JointState, run: &[BusWires]) -> Option<(usize, Difference)>
    ensures first { result ≡ first_from block.now start 0 run.now }
    ensures inside { IfSome result (λ found. found.0 < length run.now) }
{
    let mut state = start;
    for (edge, wires) in run.iter().enumerate() {
        if let Some(difference) = state.difference(block, *wires) {
            return Some((edge, difference));
        }
        state.step(block, *wires);
    }
    None
}

/// The first edge with a difference of the run under these wires, where the block's register
/// starts with `register`, and that difference.
pub fn first_difference(
    alloc: Global,
    block: &Block,
    register: u8,
    run: &[BusWires],
) -> Result<Option<(usize, Difference)>, AllocError>
    ensures first { IfOk result (λ found. found ≡ first_difference block.now register run.now) }
    ensures earliest { IfOk result (λ found. (joint : JointRun) → IsJointRun block.now run.now joint → joint.register 0 ≡ register → IsFirst block.now run.now joint found) }
    ensures inside { IfOk result (λ found. IfSome found (λ at. at.0 < length run.now)) }
{
    let start = start(alloc, block, register)?;
    Ok(first_from(block, start, run))
}
