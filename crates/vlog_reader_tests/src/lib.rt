//! Tests of the readers of Verilog together: from the bytes of a text to its tree and the module at its top.
#![tactic(auto)]

#[cfg(test)]
mod outline;
#[cfg(test)]
mod tests;
