//! Laws of the count of gates, as functions that do nothing: each one's contract is the law.

ghost use Rattle.machine_core.specs.Nodes.{NodesAreFew};

/// All gates before the outputs are at most 64 a word, 176 a field bit and 35.
pub fn nodes_are_few()
    ensures { NodesAreFew }
{}
