//! Tests of policies, counters and interrupts, the bus and the register machine.
#![tactic(auto)]

#[cfg(test)]
mod bench;
#[cfg(test)]
mod bus;
#[cfg(test)]
mod edges;
#[cfg(test)]
mod extras;
#[cfg(test)]
mod machine;
#[cfg(test)]
mod maps;
#[cfg(test)]
mod policies;
