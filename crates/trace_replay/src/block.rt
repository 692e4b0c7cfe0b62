//! A flat block with one register of eight bits, and what it shows at an edge.

ghost use Rattle.std.specs.Prelude.{◌≡◌, IfOk};
ghost use Rattle.trace_replay.specs.Blocks.{first_block};
ghost use Rattle.trace_replay.specs.Joint.{outputs_at, taken_at};

use crate::expression::Expression;
use crate::map::first_map;
use crate::pins::Pins;
use field_policies::map::RegMap;
use std::alloc::{AllocError, Global};
use std::marker::Model;

/// A block and the register map that it is held against. The map has one word of one byte, at address
/// 0, with one field of eight bits and no hardware input. `read_data` drives PRDATA; `next` is what the
/// block's register takes at each rising edge. PREADY is 1 and PSLVERR is 0 at every edge.
#[derive(Drop)]
pub struct Block {
    pub(crate) map: RegMap,
    read_data: Expression,
    next: Expression,
}

impl Model for Block {
    ghost use Rattle.std.specs.Coded.{codes};
    ghost use Rattle.trace_replay.specs.Blocks.{FlatBlock, HasOneByte};
    ghost use Rattle.trace_replay.specs.contracts.expression.Expression as e;

    ghost Value = { FlatBlock };

    ghost coded = { Prim.hlevel (codes, e.the_row.coded) };

    ghost view = { λ b. record { bus_width = b.map.bus_width; words = b.map.words.items; fields = b.map.fields.items; read_data = b.read_data; next = b.next } };

    ghost invariant = { λ b. HasOneByte b.map.bus_width b.map.fields.items b.map.inputs.items };
}

/// What the block shows at an edge: PREADY, PSLVERR, PRDATA and its register.
#[derive(Clone, Copy)]
pub struct Outputs {
    pub ready: bool,
    pub error: bool,
    pub read_data: u8,
    pub value: u8,
}

impl Block {
    /// The block with these drivers, whose field has this reset value.
    pub fn new(
        alloc: Global,
        reset: u8,
        read_data: Expression,
        next: Expression,
    ) -> Result<Block, AllocError>
        ensures { IfOk result (λ block. block ≡ first_block reset read_data next) }
    {
        let map = first_map(alloc, reset)?;
        Ok(Block {
            map,
            read_data,
            next,
        })
    }

    /// What the block shows at these pins, where its register holds `register`.
    pub fn shown(&self, pins: Pins, register: u8) -> Outputs
        ensures { result ≡ outputs_at self.now pins register }
    {
        Outputs {
            ready: true,
            error: false,
            read_data: self.read_data.value(pins, register),
            value: register,
        }
    }

    /// What the register takes at the rising edge with these pins.
    pub fn taken(&self, pins: Pins, register: u8) -> u8
        ensures { result ≡ taken_at self.now pins register }
    {
        self.next.value(pins, register)
    }
}
