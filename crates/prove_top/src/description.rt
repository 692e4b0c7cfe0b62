//! The description of the first form: one register of eight bits that software may read and write.

ghost use Rattle.std.specs.Prelude.{◌≡◌, IfOk};
ghost use Rattle.prove_top.specs.Description.{reset_of, small};

use crate::numbers::plain_number;
use crate::texts::middle;
use std::alloc::{AllocError, Global};

/// What stands before and after the reset value.
pub(crate) const DESCRIPTION_HEAD: &[u8] =
    b"addrmap a { reg { regwidth=8; field { sw=rw; hw=r; } v[8]=";

pub(crate) const DESCRIPTION_TAIL: &[u8] = b"; } c; };\n";

/// The number, where it is below 256.
fn small(number: Option<u64>) -> Option<u8>
    ensures { result ≡ small number }
{
    match number {
        Some(value) if value < 256 => Some(value as u8),
        _ => None,
    }
}

/// The reset value of this description, where it is of the first form.
#[tactic(auto, unfolding(crate::specs::Description::reset_of))]
pub(crate) fn reset_of(alloc: Global, bytes: &[u8]) -> Result<Option<u8>, AllocError>
    ensures { IfOk result (λ reset. reset ≡ reset_of bytes.now) }
{
    match middle(bytes, DESCRIPTION_HEAD, DESCRIPTION_TAIL) {
        Some(number) => Ok(small(plain_number(alloc, number)?)),
        None => Ok(None),
    }
}
