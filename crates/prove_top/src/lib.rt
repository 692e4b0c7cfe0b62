//! The top call: it reads the words, fetches the files, decides, and puts the report.
#![tactic(auto)]

mod cursor;
mod describe;
mod description;
mod draws;
mod expressions;
mod gather;
pub mod laws;
mod numbers;
mod plan;
mod report;
mod sampled;
mod store;
mod texts;
mod top;
mod verilog;
mod words;

pub use report::Status;
pub use top::{Ended, Evidence, run_tool};
