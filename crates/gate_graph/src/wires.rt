//! Wires: a node's value, plain or inverted.

ghost use Rattle.std.specs.Prelude.{◌≡◌, ℕ, Bool, not, ◌/◌};
ghost use Rattle.gate_graph.specs.Gates.{wire_value};

/// The value of a node, plain or inverted: twice the node's number, plus 1 where it is inverted.
/// Wire 0 is constantly false and wire 1 constantly true.
#[derive(Clone, Copy, Debug, PartialEq, Eq, Drop)]
pub struct Wire(pub u32);

impl Wire {
    /// The wire that is true exactly where this one is false.
    #[tactic(auto, unfolding(crate::specs::Gates::wire_value))]
    pub fn inverted(self) -> Wire
        ensures node { result.0 / 2 ≡ self.0 / 2 }
        ensures value { (v : ℕ → Bool) → wire_value v result ≡ not (wire_value v self) }
    {
        Wire(self.0 ^ 1)
    }
}
