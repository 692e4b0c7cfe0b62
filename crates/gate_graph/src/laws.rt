//! Laws of node values.

ghost use Rattle.std.specs.Prelude.{◌≡◌, ℕ, ◌+◌, ◌<◌, Bool, List, [], ◌∷◌, ◌++◌, length};
ghost use Rattle.gate_graph.specs.declared.nodes.Node.{Node};
ghost use Rattle.gate_graph.specs.declared.nodes.Node.TheVariants.{Latch, Input};
ghost use Rattle.gate_graph.specs.declared.wires.Wire.{Wire};
ghost use Rattle.gate_graph.specs.Gates.{wire_value, IsGraph, IsOf, Keeps, Respects, latch_count, input_count};
ghost use Rattle.gate_graph.specs.Sharing.{ConjunctionGives};
ghost use Rattle.gate_graph.specs.Values.{value, IsValuation};

/// Under all latches and inputs, the values of a graph's nodes are what each node says.
#[tactic(auto, using(crate::proofs::ValueLemmas::value_is))]
pub fn values_exist()
    ensures { (latches inputs : List Bool) (nodes : List Node) → IsGraph nodes
        → IsValuation latches inputs (value latches inputs nodes) nodes }
{}

/// Under the same latches and inputs, each node has one value.
pub fn values_are_unique()
    ensures { (latches inputs : List Bool) (v u : ℕ → Bool) (nodes : List Node) → IsGraph nodes
        → IsValuation latches inputs v nodes → IsValuation latches inputs u nodes
        → (i : ℕ) → i < length nodes → v i ≡ u i }
{}

/// Values under latches and inputs respect every gate, so that what is said of every assignment
/// that respects the graph is said of them.
#[tactic(auto, using(crate::proofs::ValueLemmas::valuation_respects))]
pub fn values_respect_gates()
    ensures { (latches inputs : List Bool) (v : ℕ → Bool) (nodes : List Node)
        → IsValuation latches inputs v nodes → Respects v nodes }
{}

/// What a conjunction gives as a function of the nodes: at most one gate more, and a wire of its value.
pub fn conjunction_gives()
    ensures { ConjunctionGives }
{}

/// As nodes are added, the wires of earlier nodes keep their values.
pub fn earlier_values_stay()
    ensures { (latches inputs : List Bool) (old new : List Node) → IsGraph old → IsGraph new → Keeps old new
        → (w : Wire) → IsOf w old → wire_value (value latches inputs new) w ≡ wire_value (value latches inputs old) w }
{}

/// A latch node or an input node more is one latch or one input more.
pub fn latches_and_inputs_are_counted()
    ensures latch { (nodes : List Node) (n : ℕ) → (latch_count (nodes ++ Latch n ∷ []) ≡ latch_count nodes + 1) × (input_count (nodes ++ Latch n ∷ []) ≡ input_count nodes) }
    ensures input { (nodes : List Node) (n : ℕ) → (latch_count (nodes ++ Input n ∷ []) ≡ latch_count nodes) × (input_count (nodes ++ Input n ∷ []) ≡ input_count nodes + 1) }
{}
