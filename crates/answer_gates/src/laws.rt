//! Laws of the answer's words, as functions that do nothing: each one's contract is the law.

ghost use Rattle.answer_gates.specs.Laws.{ShownAreMachines, HiddenAreMachines};

/// A field more shows what the register machine's field of that number shows.
pub fn shown_are_machines()
    ensures { ShownAreMachines }
{}

/// A field more hides what the register machine's field of that number hides.
pub fn hidden_are_machines()
    ensures { HiddenAreMachines }
{}
