//! The sampled run: 64 edges under drawn choices, from a drawn register.

ghost use Rattle.std.specs.Prelude.{◌≡◌, ◌≤◌, ◌+◌, ◌*◌, length, IfOk, List, ℕ, Bool};
ghost use Rattle.prove_top.specs.Sampled.{choice_of, choice_at, choices_to, IsSampled};
ghost use Rattle.bit_base.specs.Numbers.{number_of};

use crate::draws::drawn_bits;
use apb_rules::wires::{BusWires, Choice};
use bit_base::bits::number_of_places;
use std::alloc::{AllocError, Global};
use std::vec::Vec;
use trace_replay::block::Block;
use trace_replay::joint::{run_wires, start};

/// How many edges the run has.
pub(crate) const EDGES: usize = 64;

/// How many bits are drawn for the register, and for the choice of an edge.
const REGISTER_BITS: usize = 8;

const CHOICE_BITS: usize = 13;

/// A run: what the block's register starts with, and the wires of each edge.
#[derive(Drop)]
pub(crate) struct Run {
    pub register: u8,
    pub wires: Vec<BusWires>,
}

/// The choice that these bits make: start, enable and write, two bits of address, eight of data.
fn choice_of(draw: &[bool]) -> Choice
    requires { length draw.now ≡ CHOICE_BITS }
    ensures { result ≡ choice_of draw.now }
{
    Choice {
        start: draw[0],
        enable: draw[1],
        write: draw[2],
        address: number_of_places(&draw[3..5]) as u32,
        payload: number_of_places(&draw[5..13]) as u32,
        strobe: 0,
        prot: 0,
    }
}

/// The choice of an edge among the drawn bits.
#[tactic(auto, unfolding(crate::specs::Sampled::choice_at))]
fn choice_at(bits: &[bool], edge: usize) -> Choice
    requires { REGISTER_BITS + CHOICE_BITS * (edge + 1) ≤ length bits.now }
    ensures { result ≡ choice_at bits.now edge }
{
    let first = REGISTER_BITS + CHOICE_BITS * edge;
    choice_of(&bits[first..first + CHOICE_BITS])
}

/// The choices of all edges.
#[tactic(auto, unfolding(crate::specs::Sampled::choices_to))]
fn choices(alloc: Global, bits: &[bool]) -> Result<Vec<Choice>, AllocError>
    requires { REGISTER_BITS + CHOICE_BITS * EDGES ≤ length bits.now }
    ensures { IfOk result (λ choices. choices.items ≡ choices_to bits.now EDGES) }
{
    let mut choices = Vec::new(alloc);
    for edge in 0..EDGES {
        choices.push(choice_at(bits, edge))?;
    }
    Ok(choices)
}

/// The sampled run of a block under this seed.
#[tactic(auto, unfolding(crate::specs::Sampled::sample_bits, crate::specs::Sampled::sampled_register, crate::specs::Sampled::sampled_wires))]
pub(crate) fn sampled_run(alloc: Global, block: &Block, seed: u64) -> Result<Run, AllocError>
    ensures { IfOk result (IsSampled block.now seed) }
{
    let bits = drawn_bits(alloc, seed, REGISTER_BITS + CHOICE_BITS * EDGES)?;
    let register = number_of_places(&bits[..REGISTER_BITS]) as u8;
    let choices = choices(alloc, &bits)?;
    let wires = run_wires(alloc, block, start(alloc, block, register)?, &choices)?;
    Ok(Run { register, wires })
}
