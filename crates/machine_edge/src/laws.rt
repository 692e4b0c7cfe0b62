//! Laws of the edge that wires stand for, as functions that do nothing: each one's contract is the law.

ghost use Rattle.machine_edge.specs.Edges.{StoredAreStates, WiresSeeTheirEdge};

/// What fields store by latches of the graph is of the graph, with each field's width.
pub fn stored_are_states()
    ensures { StoredAreStates }
{}

/// The wires of a map's fields, event and inputs see the edge that they stand for.
pub fn wires_see_their_edge()
    ensures { WiresSeeTheirEdge }
{}
