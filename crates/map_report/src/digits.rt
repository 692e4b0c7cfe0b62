//! Hexadecimal digits.

ghost use Rattle.std.specs.Prelude.{◌≡◌, ◌++◌, ◌≤◌, ◌<◌, OnOk};
ghost use Rattle.map_report.specs.Digits.{digit_at, hex_of};

use std::alloc::AllocError;
use std::vec::Vec;

/// The digits, in lower case.
const DIGITS: &[u8; 16] = b"0123456789abcdef";

/// The digit of a value below 16.
fn digit_of(value: u32) -> u8
    requires { value < 16 }
    ensures { result ≡ digit_at value }
{
    DIGITS[value as usize]
}

/// Appends the lowest `count` hexadecimal digits of a number, the highest of them first; `count` is at
/// most 8.
pub fn push_hex(text: &mut Vec<u8>, count: u32, value: u32) -> Result<(), AllocError>
    requires few { count ≤ 8 }
    ensures { OnOk result (text.new.items ≡ text.old.items ++ hex_of count value) }
{
    for at in 0..count {
        let place = count - 1 - at;
        let digit = (value >> (4 * place)) % 16;
        text.push(digit_of(digit))?;
    }
    Ok(())
}
