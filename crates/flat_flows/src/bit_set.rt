//! Sets of numbers with the list of what they have.

ghost use Rattle.std.specs.Prelude.{◌≡◌, ℕ, ◌==◌, List, Bool, false, ◌||◌, OnOk};
ghost use Rattle.flat_orders.specs.Orders.{among};
ghost use Rattle.flat_flows.specs.Tables.{in_table};

use crate::marks::Marks;
use std::alloc::{AllocError, Global};
use std::marker::Model;
use std::vec::Vec;

/// A set of numbers that grows, is listed, and is emptied in the time of its members: seen as its table.
#[derive(Drop)]
pub struct BitSet {
    marks: Marks,
    members: Vec<usize>,
    ghost listed: { (i : ℕ) → among i members.items ≡ in_table marks i },
}

impl Model for BitSet {
    ghost Value = { List Bool };

    ghost view = { λ s. s.marks };
}

impl BitSet {
    /// The set of no number.
    pub fn new(alloc: Global) -> BitSet
        ensures { (i : ℕ) → in_table result i ≡ false }
    {
        let marks = Marks::new(alloc);
        let members = Vec::new(alloc);
        BitSet { marks, members }
    }

    /// Whether the number is in the set.
    pub fn has(&self, number: usize) -> bool
        ensures { result ≡ in_table self.now number }
    {
        self.marks.has(number)
    }

    /// The numbers in the set, in the order in which they came.
    pub fn members(&self) -> &[usize]
        ensures { (i : ℕ) → among i result.now ≡ in_table self.now i }
    {
        self.members.as_slice()
    }

    /// The set with this number.
    pub fn add(&mut self, number: usize) -> Result<(), AllocError>
        ensures { OnOk result ((i : ℕ) → in_table self.new i ≡ (in_table self.old i || i == number)) }
    {
        if self.marks.has(number) {
            return Ok(());
        }
        self.marks.add(number)?;
        if self.members.push(number).is_err() {
            self.marks.remove(number);
            return Err(AllocError);
        }
        Ok(())
    }

    /// The set without its members.
    pub fn clear(&mut self)
        ensures { (i : ℕ) → in_table self.new i ≡ false }
    {
        let BitSet { marks, members } = self;
        marks.remove_all(members.as_slice());
        members.clear();
    }
}
