//! What a field shows to hardware, as gates.
#![tactic(auto)]

pub mod outputs;
pub mod word;

pub use outputs::field_outputs;
pub use word::output_word;
