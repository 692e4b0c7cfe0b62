//! What a report tells.

ghost use Rattle.map_report.specs.Laws as spec;

/// A law: a register map has one report.
#[tactic(auto, using(crate::proofs::Reporting::one_report))]
pub fn one_report()
    ensures { spec.HasOneReport }
{}

/// A law: a report is empty, or begins with the address of a word.
#[tactic(auto, using(crate::proofs::Reporting::with_addresses))]
pub fn reports_begin_with_addresses()
    ensures { spec.BeginWithAddresses }
{}
