//! Which bits the items of a flat design read, drive and are sure to assign, as sets that are worked out at once.
#![tactic(auto)]

pub mod bit_set;
pub mod found;
pub mod full;
pub mod item;
pub mod left;
pub mod marks;
pub mod range;
pub mod reading;
pub mod walk;
