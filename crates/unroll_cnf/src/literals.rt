//! Literals of nodes, wires and latches at an edge.

ghost use Rattle.std.specs.Prelude.{◌≡◌, ◌≢◌, ◌+◌, ◌*◌, ◌/◌, ◌^◌, ◌<◌, ◌≤◌, length, All};
ghost use Rattle.unroll_cnf.specs.Queries.{plain, negated, denied, signed, literal_at};

use gate_graph::Wire;
use lemma_checker::literal::Literal;

/// The variable itself.
pub(crate) fn plain_literal(variable: u32) -> Literal
    requires small { variable < 2 ^ 31 }
    ensures { result ≡ plain variable }
{
    Literal(2 * variable)
}

/// The negation of the variable.
pub(crate) fn negated_literal(variable: u32) -> Literal
    requires small { variable < 2 ^ 31 }
    ensures { result ≡ negated variable }
{
    Literal(2 * variable + 1)
}

/// What denies the literal.
pub(crate) fn denied_literal(literal: Literal) -> Literal
    ensures value { result ≡ denied literal }
    ensures variable { result.0 / 2 ≡ literal.0 / 2 }
{
    literal.opposite()
}

/// The literal, denied where the sign is true.
pub(crate) fn signed_literal(sign: bool, literal: Literal) -> Literal
    ensures value { result ≡ signed sign literal }
    ensures variable { result.0 / 2 ≡ literal.0 / 2 }
{
    if sign {
        denied_literal(literal)
    } else {
        literal
    }
}

/// The literal of a wire at an edge, where node 0 has the variable `first`.
pub(crate) fn wire_literal(first: u32, wire: Wire) -> Literal
    requires small { wire.0 + 2 * first < 2 ^ 32 }
    ensures { result ≡ literal_at first wire }
{
    Literal(wire.0 + 2 * first)
}
