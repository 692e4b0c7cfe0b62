//! Which literals of a clause to resolve away before it is learned: this makes lemmas shorter, and
//! nothing rests on it.

use lemma_checker::clauses::Clauses;
use lemma_checker::literal::Literal;
use lemma_checker::resolver::{clause_at, is_marked};
use std::alloc::{AllocError, Global};
use std::vec::Vec;
use watch_lists::trail::Trail;

/// How many reasons the search behind one literal looks at, at most.
const REACH: u32 = 1_000;

/// By variable, the level at which it got its value and its place in the trail; the places of the
/// literals to resolve away, the highest first; how many literals the walk itself touched; and what
/// the search for the places uses.
#[derive(Debug, Drop)]
pub struct Plan {
    pub levels: Vec<u32>,
    pub drops: Vec<usize>,
    pub analyzed: usize,
    spots: Vec<usize>,
    left: Vec<usize>,
    stack: Vec<usize>,
    inside: Vec<bool>,
    group: Vec<u32>,
    present: Vec<bool>,
}

/// The clause that gave the literal at a place of the trail, if one did.
fn reason_at<'a>(
    formula: &'a Clauses,
    added: &'a Clauses,
    trail: &Trail,
    place: usize,
) -> Option<&'a [Literal]> {
    let reason = trail.reasons.get(place).copied().unwrap_or(0);
    clause_at(formula, added, reason)
}

/// The literal at a place of the trail.
fn literal_at(trail: &Trail, place: usize) -> Literal {
    trail.literals.get(place).copied().unwrap_or(Literal(0))
}

impl Plan {
    /// The plan of no clause.
    pub fn new(alloc: Global, vars: u32) -> Result<Plan, AllocError> {
        let size = vars as usize + 1;
        let mut levels = Vec::new(alloc);
        levels.resize(size, 0)?;
        let mut spots = Vec::new(alloc);
        spots.resize(size, 0)?;
        let mut inside = Vec::new(alloc);
        inside.resize(size, false)?;
        let mut present = Vec::new(alloc);
        present.resize(size, false)?;
        Ok(Plan {
            levels,
            drops: Vec::new(alloc),
            analyzed: 0,
            spots,
            left: Vec::new(alloc),
            stack: Vec::new(alloc),
            inside,
            group: Vec::new(alloc),
            present,
        })
    }

    /// Notes where a literal of the trail stands, and at which level.
    pub fn note(&mut self, literal: Literal, place: usize, level: u32) {
        let variable = literal.variable() as usize;
        if let Some(slot) = self.levels.get_mut(variable) {
            *slot = level;
        }
        if let Some(slot) = self.spots.get_mut(variable) {
            *slot = place;
        }
    }

    /// The level of the literal's variable; 0 before the first one.
    pub fn level(&self, literal: Literal) -> u32 {
        let variable = literal.variable() as usize;
        self.levels.get(variable).copied().unwrap_or(0)
    }

    /// Puts the places of the marked literals that stand before `low` and past the bottom level into
    /// rising order.
    fn collect(
        &mut self,
        seen: &[bool],
        touched: &[Literal],
        low: usize,
    ) -> Result<(), AllocError> {
        self.left.clear();
        for literal in touched {
            let spot = self.spots.get(literal.variable() as usize).copied();
            if let Some(place) = spot {
                let marked = is_marked(seen, literal.0 as usize);
                if marked && place < low && self.level(*literal) > 0 {
                    self.left.push(place)?;
                }
            }
        }
        self.left.sort()?;
        Ok(())
    }

    /// Puts a variable into the group: whether it was not there.
    fn enter(&mut self, literal: Literal) -> Result<bool, AllocError> {
        let variable = literal.variable();
        if self.inside.get(variable as usize).copied() != Some(false) {
            return Ok(false);
        }
        self.group.push(variable)?;
        if let Some(slot) = self.inside.get_mut(variable as usize) {
            *slot = true;
        }
        Ok(true)
    }

    /// Takes those out of the group that came in last, so that so many are left.
    fn leave(&mut self, left: usize) {
        for variable in self.group.iter().skip(left) {
            if let Some(slot) = self.inside.get_mut(*variable as usize) {
                *slot = false;
            }
        }
        self.group.truncate(left);
    }

    /// Notes whether marked literals stand at the levels of those that are left.
    fn note_levels(&mut self, trail: &Trail, present: bool) {
        for place in self.left.as_slice() {
            let level = self
                .levels
                .get(literal_at(trail, *place).variable() as usize);
            let level = level.copied().unwrap_or(0);
            if let Some(slot) = self.present.get_mut(level as usize) {
                *slot = present;
            }
        }
    }

    /// Whether a marked literal stands at the level.
    fn has_level(&self, level: u32) -> bool {
        self.present.get(level as usize).copied().unwrap_or(false)
    }

    /// Looks at the reason at a place: its literals that are neither marked nor of the bottom level nor
    /// entered are entered and put on the stack. Whether each of them may yet be implied by the marked.
    fn open_reason(
        &mut self,
        formula: &Clauses,
        added: &Clauses,
        trail: &Trail,
        seen: &[bool],
        place: usize,
    ) -> Result<bool, AllocError> {
        let own = literal_at(trail, place);
        let Some(clause) = reason_at(formula, added, trail, place) else {
            return Ok(false);
        };
        for literal in clause {
            let level = self.level(*literal);
            if level == 0 || literal.0 == own.0 || is_marked(seen, literal.0 as usize) {
                continue;
            }
            if !self.has_level(level) {
                return Ok(false);
            }
            if self.enter(*literal)? {
                let spot = self.spots.get(literal.variable() as usize).copied();
                self.stack.push(spot.unwrap_or(0))?;
            }
        }
        Ok(true)
    }

    /// Plans to resolve away the literal at a place, with all that its reasons bring in, where the
    /// other marked literals imply it.
    fn try_implied(
        &mut self,
        formula: &Clauses,
        added: &Clauses,
        trail: &Trail,
        seen: &[bool],
        start: usize,
    ) -> Result<(), AllocError> {
        let before = self.group.len();
        let drops = self.drops.len();
        self.stack.clear();
        self.stack.push(start)?;
        for _ in 0..REACH {
            let Some(place) = self.stack.pop() else {
                return Ok(());
            };
            if !self.open_reason(formula, added, trail, seen, place)? {
                break;
            }
            self.drops.push(place)?;
        }
        self.drops.truncate(drops);
        self.leave(before);
        Ok(())
    }

    /// Plans which of the marked literals that stand before `low` to resolve away: those that the
    /// others imply, by their reasons and the reasons of these.
    pub fn make(
        &mut self,
        formula: &Clauses,
        added: &Clauses,
        trail: &Trail,
        seen: &[bool],
        touched: &[Literal],
        low: usize,
    ) -> Result<(), AllocError> {
        self.analyzed = touched.len();
        self.drops.clear();
        self.collect(seen, touched, low)?;
        self.note_levels(trail, true);
        for i in 0..self.left.len() {
            if let Some(place) = self.left.get(i).copied() {
                self.try_implied(formula, added, trail, seen, place)?;
            }
        }
        self.leave(0);
        self.note_levels(trail, false);
        self.drops.sort()?;
        self.drops.reverse();
        Ok(())
    }
}
