//! The parser of Verilog: from tokens to the one tree that they spell.
#![tactic(auto)]

mod cursor;
mod declarations;
mod depth;
mod expressions;
mod items;
mod left_out;
mod levels;
mod reading;
mod statements;
mod top;

pub use reading::parse_vlog;
pub use top::top_of;
