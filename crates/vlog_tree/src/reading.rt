//! The law of one reading.

ghost use Rattle.vlog_tree.specs.Modules.{HasAtMostOneReading};

/// Two fitting trees with equal tokens are equal.
#[tactic(auto, using(crate::proofs::Theorem::one_reading))]
pub fn at_most_one_reading()
    ensures { HasAtMostOneReading }
{}
