//! How places move on over bytes.

ghost use Rattle.std.specs.Prelude.{◌≡◌, ◌<◌, ◌+◌, ◌^◌, length};
ghost use Rattle.vlog_prep.specs.Places.{next_place, moved};

use bit_base::place::Place;

/// The place behind this byte.
fn next_place(place: Place, byte: u8) -> Place
    requires line { place.line + 1 < 2 ^ 32 }
    requires column { place.column + 1 < 2 ^ 32 }
    ensures { result ≡ next_place place byte }
{
    let Place { file, line, column } = place;
    if byte == b'\n' {
        Place {
            file,
            line: line + 1,
            column: 1,
        }
    } else {
        Place {
            file,
            line,
            column: column + 1,
        }
    }
}

/// The place behind these bytes.
pub fn moved(place: Place, bytes: &[u8]) -> Place
    requires line { place.line + length bytes.now < 2 ^ 32 }
    requires column { place.column + length bytes.now < 2 ^ 32 }
    ensures { result ≡ moved place bytes.now }
{
    let mut here = place;
    for byte in bytes {
        here = next_place(here, *byte);
    }
    here
}
