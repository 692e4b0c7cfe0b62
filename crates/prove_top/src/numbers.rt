//! Plain decimal numbers.

ghost use Rattle.std.specs.Prelude.{◌≡◌, IfOk};
ghost use Rattle.prove_top.specs.Numbers.{plain_value};

use std::alloc::{AllocError, Global};
use std::str;

/// The number below 2^64 that these bytes write in plain decimal, without a sign and without a
/// leading zero.
pub(crate) fn plain_number(alloc: Global, bytes: &[u8]) -> Result<Option<u64>, AllocError>
    ensures { IfOk result (λ number. number ≡ plain_value bytes.now) }
{
    let Ok(text) = str::from_utf8(bytes) else {
        return Ok(None);
    };
    let Ok(number) = text.parse::<u64>() else {
        return Ok(None);
    };
    let plain = number.to_string(alloc)?;
    if plain.as_bytes() == bytes {
        Ok(Some(number))
    } else {
        Ok(None)
    }
}
