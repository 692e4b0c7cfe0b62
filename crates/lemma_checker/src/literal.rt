//! Literals: variables with a sign.

ghost use Rattle.std.specs.Prelude.{◌≡◌, ◌+◌, ◌*◌, ◌/◌, ◌%◌, ◌^◌, ◌<◌, ◌↔◌, IsTrue};

/// A variable, counted from 1 and below 2^31, or its negation: twice the variable's number, plus 1
/// where it is negated.
#[derive(Clone, Copy, Debug, PartialEq, Eq, Drop)]
pub struct Literal(pub u32);

impl Literal {
    ghost use Rattle.lemma_checker.specs.Clauses.{opposite};

    /// The variable itself.
    pub fn of(variable: u32) -> Literal
        requires small { variable < 2 ^ 31 }
        ensures { result.0 ≡ 2 * variable }
    {
        Literal(2 * variable)
    }

    /// The literal that is true where this one is false.
    #[tactic(auto, unfolding(crate::specs::Clauses::opposite))]
    pub fn opposite(self) -> Literal
        ensures { result.0 ≡ opposite self.0 }
    {
        if self.0 % 2 == 0 {
            Literal(self.0 + 1)
        } else {
            Literal(self.0 - 1)
        }
    }

    /// The number of its variable.
    pub fn variable(self) -> u32
        ensures { result ≡ self.0 / 2 }
    {
        self.0 / 2
    }

    /// Whether it is the negation of its variable.
    pub fn is_negated(self) -> bool
        ensures { IsTrue result ↔ (self.0 % 2 ≡ 1) }
    {
        self.0 % 2 == 1
    }
}
