//! Orders of the items of a flat design, and the one valuation that settles it.
#![tactic(auto)]

pub mod laws;
