//! The lines that stand between the chains of queries.

ghost use Rattle.std.specs.Prelude.{◌≡◌, IfOk};
ghost use Rattle.cert_text.specs.Lines.{due_after};

use std::alloc::{AllocError, Global};
use std::vec::Vec;

/// The line that is due behind the chains of query `j`.
#[tactic(auto, unfolding(crate::specs::Lines::due_after))]
pub(crate) fn due_line(alloc: Global, k: u32, j: u32) -> Result<Vec<u8>, AllocError>
    ensures { IfOk result (λ line. line.items ≡ due_after k j) }
{
    if j < k {
        let next = j + 1;
        let line = format!(in alloc; "q base {next}")?;
        return Ok(line.into_bytes());
    }
    if j == k {
        b"q step".to_vec(alloc)
    } else {
        b"end".to_vec(alloc)
    }
}
