//! What the text of a description says and refuses by itself: names, where they stand and what they mean, which
//! properties are assigned, and the form of their values.
#![tactic(auto)]

pub mod assignment;
pub mod form;
pub mod instance;
pub mod names;
pub mod property;
pub mod reference;
pub mod scope;
pub mod text;
