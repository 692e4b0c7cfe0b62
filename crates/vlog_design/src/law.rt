//! The laws of checked designs, as functions that do nothing: each one's contract is the law.

ghost use Rattle.vlog_design.specs.Laws as spec;

/// A design that is accepted isn't refused.
pub fn accepted_is_not_refused()
    ensures { spec.AcceptedIsNotRefused }
{}

/// In a design without offences a net that a clocked process assigns by `=` is read by no other item and is no output.
pub fn blocking_nets_are_own()
    ensures { spec.FreeKeepsBlockingNets }
{}

/// In a design without offences each bit has one driver at most.
pub fn drivers_are_single()
    ensures { spec.FreeHasSingleDrivers }
{}
