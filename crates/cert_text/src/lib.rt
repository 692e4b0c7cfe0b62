//! Certificates as texts: writing the proof that a circuit is safe, and reading one as such a proof, whoever wrote it.
#![tactic(auto)]

mod chains;
pub mod check;
mod clauses;
mod due;
pub mod fault;
pub mod laws;
pub mod lines;
mod numbers;
mod read;
mod words;
pub mod write;

pub use check::check_cert;
pub use fault::{CertCode, CertFault};
pub use write::write_cert;
