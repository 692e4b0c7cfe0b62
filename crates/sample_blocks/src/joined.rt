//! Texts joined.

ghost use Rattle.std.specs.Prelude.{◌≡◌, IfOk, map};
ghost use Rattle.sample_blocks.specs.SampleTexts.{joined};

use std::alloc::{AllocError, Global};
use std::vec::Vec;

/// These texts, one after the other.
pub fn joined_texts(alloc: Global, texts: &[&[u8]]) -> Result<Vec<u8>, AllocError>
    ensures { IfOk result (λ text. text.items ≡ joined (map (λ t. t.now) texts.now)) }
{
    let mut text = Vec::new(alloc);
    for next in texts {
        text.extend_from_slice(next)?;
    }
    Ok(text)
}
