//! The outside: depots of files and sinks of bytes, in memory and on the host.
#![tactic(auto)]

pub mod depot;
pub mod host_depot;
pub mod host_sink;
pub mod memory_depot;
pub mod memory_sink;
mod shelf;
pub mod sink;
pub mod steady_depot;
pub mod steady_sink;
