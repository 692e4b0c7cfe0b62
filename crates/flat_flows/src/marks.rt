//! Sets of numbers that grow as need be.

ghost use Rattle.std.specs.Prelude.{◌≡◌, ℕ, ◌==◌, List, Bool, false, not, ◌&&◌, ◌||◌, OnOk, OnErr};
ghost use Rattle.flat_orders.specs.Orders.{among};
ghost use Rattle.flat_flows.specs.Tables.{in_table};

use std::alloc::{AllocError, Global};
use std::marker::Model;
use std::vec::Vec;

/// A set of numbers that is asked, grown and lessened at single numbers: seen as its table: a number past the table is out.
#[derive(Drop)]
pub struct Marks {
    table: Vec<bool>,
}

impl Model for Marks {
    ghost Value = { List Bool };

    ghost view = { λ s. s.table.items };
}

impl Marks {
    /// The set of no number.
    pub fn new(alloc: Global) -> Marks
        ensures { (i : ℕ) → in_table result i ≡ false }
    {
        Marks {
            table: Vec::new(alloc),
        }
    }

    /// Whether the number is in the set.
    pub fn has(&self, number: usize) -> bool
        ensures { result ≡ in_table self.now number }
    {
        match self.table.get(number) {
            None => false,
            Some(is) => *is,
        }
    }

    /// The set with this number; where memory is wanting it stays as it was.
    pub fn add(&mut self, number: usize) -> Result<(), AllocError>
        ensures kept { OnErr result (self.new ≡ self.old) }
        ensures added { OnOk result ((i : ℕ) → in_table self.new i ≡ (in_table self.old i || i == number)) }
    {
        if number >= self.table.len() {
            let length = number.checked_add(1).ok_or(AllocError)?;
            self.table.resize(length, false)?;
        }
        self.table[number] = true;
        Ok(())
    }

    /// The set without this number.
    pub fn remove(&mut self, number: usize)
        ensures { (i : ℕ) → in_table self.new i ≡ (in_table self.old i && not (i == number)) }
    {
        if number < self.table.len() {
            self.table[number] = false;
        }
    }

    /// The set with these numbers.
    pub fn add_all(&mut self, numbers: &[usize]) -> Result<(), AllocError>
        ensures { OnOk result ((i : ℕ) → in_table self.new i ≡ (in_table self.old i || among i numbers.now)) }
    {
        for number in numbers {
            self.add(*number)?;
        }
        Ok(())
    }

    /// The set without these numbers.
    pub fn remove_all(&mut self, numbers: &[usize])
        ensures { (i : ℕ) → in_table self.new i ≡ (in_table self.old i && not (among i numbers.now)) }
    {
        for number in numbers {
            self.remove(*number);
        }
    }
}
