//! Plain port connections, and the top input to which a chain of them leads from a net.
#![tactic(auto)]

pub mod laws;
pub mod shape;
pub mod source;
pub mod tie;
