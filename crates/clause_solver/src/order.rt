//! The order in which variables are chosen, their last values, and when the search starts again: this
//! guides the search, and nothing rests on it.

use crate::leading::Leading;
use crate::plan::Plan;
use lemma_checker::literal::Literal;
use lemma_checker::resolver::is_marked;
use std::alloc::{AllocError, Global};
use std::vec::Vec;
use watch_lists::trail::Trail;

/// Where activities are made smaller, all by the same factor.
const LIMIT: u64 = 0x4_0000_0000_0000;

/// How many lemmas the shortest run between two restarts has.
const RUN: u32 = 400;

/// A heap of the variables by activity, with the place of each, counted from 1; their activities and
/// their last values; those that are chosen first; and the plan of the next lemma.
#[derive(Debug, Drop)]
pub struct Order {
    activities: Vec<u64>,
    heap: Vec<u32>,
    places: Vec<u32>,
    phases: Vec<bool>,
    pub plan: Plan,
    step: u64,
    runs: Runs,
    leading: Leading,
    last: u32,
}

/// The lengths of the runs between restarts: 1, 1, 2, 1, 1, 2, 4 and so on, by Knuth's rule.
#[derive(Clone, Copy, Debug, Drop)]
struct Runs {
    turn: u32,
    length: u32,
    lemmas: u32,
}

impl Runs {
    /// Whether the run ends with this lemma.
    fn ends(&mut self) -> bool {
        self.lemmas = self.lemmas.saturating_add(1);
        if self.lemmas < self.length.saturating_mul(RUN) {
            return false;
        }
        self.lemmas = 0;
        if self.turn & self.turn.wrapping_neg() == self.length {
            self.turn = self.turn.saturating_add(1);
            self.length = 1;
        } else {
            self.length = self.length.saturating_mul(2);
        }
        true
    }
}

impl Order {
    /// All activities alike.
    pub fn new(alloc: Global, vars: u32, leading: Leading) -> Result<Order, AllocError> {
        let size = vars as usize + 1;
        let mut activities = Vec::new(alloc);
        activities.resize(size, 0)?;
        let mut phases = Vec::new(alloc);
        phases.resize(size, false)?;
        let plan = Plan::new(alloc, vars)?;
        let mut heap = Vec::new(alloc);
        let mut places = Vec::new(alloc);
        for variable in 0..vars {
            heap.push(variable.saturating_add(1))?;
            places.push(variable)?;
        }
        places.push(vars)?;
        Ok(Order {
            activities,
            heap,
            places,
            phases,
            plan,
            step: 0x10_0000,
            runs: Runs {
                turn: 1,
                length: 1,
                lemmas: 0,
            },
            leading,
            last: vars,
        })
    }

    /// The variable's activity.
    fn activity(&self, variable: u32) -> u64 {
        self.activities.get(variable as usize).copied().unwrap_or(0)
    }

    /// The variable at a place of the heap, counted from 0.
    fn variable_at(&self, place: usize) -> Option<u32> {
        self.heap.get(place).copied()
    }

    /// Puts a variable at a place of the heap, counted from 0.
    fn put(&mut self, place: usize, variable: u32) {
        if let Some(slot) = self.heap.get_mut(place) {
            *slot = variable;
        }
        if let Some(slot) = self.places.get_mut(variable as usize) {
            *slot = u32::try_from(place).unwrap_or(u32::MAX).saturating_add(1);
        }
    }

    /// Moves the variable at a place towards the root, past those of lower activity.
    fn rise(&mut self, start: usize, variable: u32) {
        let activity = self.activity(variable);
        let mut place = start;
        for _ in 0..64u32 {
            if place == 0 {
                break;
            }
            let parent = (place - 1) / 2;
            let Some(above) = self.variable_at(parent) else {
                break;
            };
            if self.activity(above) >= activity {
                break;
            }
            self.put(place, above);
            place = parent;
        }
        self.put(place, variable);
    }

    /// Moves the variable at the root away from it, past those of higher activity.
    fn sink(&mut self, variable: u32) {
        let activity = self.activity(variable);
        let mut place = 0usize;
        for _ in 0..64u32 {
            let left = place.saturating_mul(2).saturating_add(1);
            let right = left.saturating_add(1);
            let Some(first) = self.variable_at(left) else {
                break;
            };
            let (child, below) = match self.variable_at(right) {
                Some(second) if self.activity(second) > self.activity(first) => (right, second),
                _ => (left, first),
            };
            if self.activity(below) <= activity {
                break;
            }
            self.put(place, below);
            place = child;
        }
        self.put(place, variable);
    }

    /// Takes the most active variable from the heap.
    fn pop(&mut self) -> Option<u32> {
        let top = self.variable_at(0)?;
        let last = self.heap.pop()?;
        if let Some(slot) = self.places.get_mut(top as usize) {
            *slot = 0;
        }
        if last != top {
            self.sink(last);
        }
        Some(top)
    }

    /// Puts the variable back into the heap, unless it is there.
    fn insert(&mut self, variable: u32) -> Result<(), AllocError> {
        if self.places.get(variable as usize).copied() == Some(0) {
            let place = self.heap.len();
            self.heap.push(variable)?;
            self.rise(place, variable);
        }
        Ok(())
    }

    /// Puts the variables of the trail's literals from a place on back into the heap.
    pub fn release(&mut self, trail: &Trail, place: usize) -> Result<(), AllocError> {
        if let Some(literals) = trail.literals.as_slice().get(place..) {
            for literal in literals {
                self.insert(literal.variable())?;
            }
        }
        Ok(())
    }

    /// Makes all activities smaller.
    fn shrink(&mut self) {
        for activity in self.activities.iter_mut() {
            *activity /= 0x4000_0000;
        }
        self.step = self.step / 0x4000_0000 + 1;
    }

    /// Raises the activities of the variables that the last walk touched, of these literals', where
    /// they got their values past the bottom level. Those that only stand in the reasons of literals
    /// that were resolved away after it are left as they are.
    pub fn bump(&mut self, touched: &[Literal], values: &[bool]) {
        let literals = touched.get(..self.plan.analyzed).unwrap_or(touched);
        for literal in literals {
            let variable = literal.variable();
            let denied = !is_marked(values, literal.0 as usize);
            if denied && self.plan.level(*literal) > 0 {
                if let Some(slot) = self.activities.get_mut(variable as usize) {
                    *slot = slot.saturating_add(self.step);
                }
                let place = self.places.get(variable as usize).copied().unwrap_or(0);
                if place > 0 {
                    self.rise(place as usize - 1, variable);
                }
            }
        }
        self.step = self.step.saturating_add(self.step / 20);
        if self.step > LIMIT {
            self.shrink();
        }
    }

    /// Notes the literals that the trail gained, with their level and sign.
    pub fn note_from(&mut self, trail: &Trail, before: usize) {
        let level = u32::try_from(trail.starts.len()).unwrap_or(u32::MAX);
        let mut place = before.saturating_sub(1);
        if let Some(literals) = trail.literals.as_slice().get(place..) {
            for literal in literals {
                self.plan.note(*literal, place, level);
                if let Some(slot) = self.phases.get_mut(literal.variable() as usize) {
                    *slot = !literal.is_negated();
                }
                place = place.saturating_add(1);
            }
        }
    }

    /// The literal to choose next: a leading variable, else the most active one without a value, with
    /// its last sign.
    pub fn next(&mut self, values: &[bool]) -> Literal {
        if let Some(literal) = self.leading.literal(self.last, values) {
            return literal;
        }
        for _ in 0..self.heap.len() {
            let Some(variable) = self.pop() else {
                break;
            };
            let plain = u64::from(variable) * 2;
            let set = is_marked(values, plain as usize) || is_marked(values, plain as usize + 1);
            if !set {
                let phase = self.phases.get(variable as usize).copied().unwrap_or(false);
                let number = variable.saturating_mul(2);
                return if phase {
                    Literal(number)
                } else {
                    Literal(number.saturating_add(1))
                };
            }
        }
        Literal(0)
    }

    /// Whether the search starts again from the bottom after this lemma.
    pub fn restarts(&mut self) -> bool {
        self.runs.ends()
    }
}
