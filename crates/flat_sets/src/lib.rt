//! Sets of numbers below a bound: a table, and the list of what it has, so that a set is counted and emptied in the time of its
//! members and not of its bound.
#![tactic(auto)]

ghost use Rattle.std.specs.Prelude.{◌≡◌, ◌==◌, ◌<◌, List, Bool, false, true, length, replicate, slice_get, slice_set, Some, IfOk, OnOk};
ghost use Rattle.bit_base.specs.Operators.{count_of_true};
ghost use Rattle.flat_sets.specs.Sets.{cleared};

use std::alloc::{AllocError, Global};
use std::marker::Model;
use std::vec::Vec;

/// A set of numbers below a bound, seen as its table: one boolean for each number.
#[derive(Drop)]
pub struct NumberSet {
    table: Vec<bool>,
    members: Vec<usize>,
    ghost counted: { length members.items ≡ count_of_true table.items },
    ghost emptied: { cleared members.items table.items ≡ replicate (length table.items) false },
}

impl Model for NumberSet {
    ghost use Rattle.std.specs.Prelude.{List, Bool};

    ghost Value = { List Bool };

    ghost view = { λ s. s.table.items };
}

impl NumberSet {
    /// The set of no number below `bound`.
    pub fn empty(alloc: Global, bound: usize) -> Result<NumberSet, AllocError>
        ensures { IfOk result (λ set. set ≡ replicate bound false) }
    {
        let mut table = Vec::new(alloc);
        table.resize(bound, false)?;
        let members = Vec::new(alloc);
        Ok(NumberSet { table, members })
    }

    /// The bound: only numbers below it can be in the set.
    pub fn bound(&self) -> usize
        ensures { result ≡ length self.now }
    {
        self.table.len()
    }

    /// Whether the number is in the set.
    pub fn has(&self, number: usize) -> bool
        requires { number < length self.now }
        ensures { slice_get self.now number ≡ Some result }
    {
        self.table[number]
    }

    /// How many numbers are in the set.
    pub fn len(&self) -> usize
        ensures { result ≡ count_of_true self.now }
    {
        self.members.len()
    }

    /// Whether no number is in the set.
    pub fn is_empty(&self) -> bool
        ensures { result ≡ (count_of_true self.now == 0) }
    {
        self.members.is_empty()
    }

    /// The set with this number.
    pub fn add(&mut self, number: usize) -> Result<(), AllocError>
        requires { number < length self.old }
        ensures { OnOk result (self.new ≡ slice_set self.old number true) }
    {
        if self.table[number] {
            return Ok(());
        }
        self.members.push(number)?;
        self.table[number] = true;
        Ok(())
    }

    /// The set without its members.
    pub fn clear(&mut self)
        ensures { self.new ≡ replicate (length self.old) false }
    {
        let NumberSet { table, members } = self;
        clear_members(table, members.as_slice());
        members.clear();
    }
}

/// Takes these numbers out of a table, the last of them first.
fn clear_members(table: &mut Vec<bool>, members: &[usize])
    ensures { table.new.items ≡ cleared members.now table.old.items }
{
    for i in (0..members.len()).rev() {
        let number = members[i];
        if number < table.len() {
            table[number] = false;
        }
    }
}
