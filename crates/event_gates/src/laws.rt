//! Laws of a field's places in a bus event, as functions that do nothing: each one's contract is the law.

ghost use Rattle.event_gates.specs.Laws.{EnabledAreMachines, PayloadsAreMachines};

/// The places that the event writes are those of the register machine.
pub fn enabled_are_machines()
    ensures { EnabledAreMachines }
{}

/// The written bits are those of the register machine.
pub fn payloads_are_machines()
    ensures { PayloadsAreMachines }
{}
