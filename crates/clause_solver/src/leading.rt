//! The variables that a search chooses first.

use lemma_checker::literal::Literal;
use lemma_checker::resolver::is_marked;

/// The variables that a search chooses before all others, as true and one by one: those from `first`
/// on, beginning with `next`, and from `first` again behind the last. This guides the search, and
/// nothing rests on it.
#[derive(Clone, Copy, Debug, PartialEq, Eq, Drop)]
pub struct Leading {
    pub first: u32,
    pub next: u32,
}

impl Leading {
    /// No variables.
    pub fn none() -> Leading {
        Leading {
            first: u32::MAX,
            next: u32::MAX,
        }
    }

    /// The first of the variables, from `next` on and up to `last`, that isn't false, as a literal,
    /// if it has no value yet.
    pub fn literal(&mut self, last: u32, values: &[bool]) -> Option<Literal> {
        for _ in self.first..last.saturating_add(1) {
            if self.next > last {
                self.next = self.first;
            }
            let plain = self.next.saturating_mul(2);
            if is_marked(values, plain as usize) {
                return None;
            }
            if !is_marked(values, plain as usize + 1) {
                return Some(Literal(plain));
            }
            self.next = self.next.saturating_add(1);
        }
        None
    }
}
