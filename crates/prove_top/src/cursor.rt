//! Reading from the front of a text.

ghost use Rattle.std.specs.Prelude.{◌≡◌, if◌then◌else◌};
ghost use Rattle.prove_top.specs.Reading.{begins, past, marked, digit_at, Reads};
ghost use Rattle.prove_top.specs.Spelling.{is_digit};
ghost use Rattle.prove_top.specs.declared.cursor.Stop.TheVariants.{NoMemory};

use std::alloc::{AllocError, AllocFailed};
use std::convert::From;
use std::marker::Model;

/// Why a reading stops: memory is wanted, or the text isn't of the form.
#[derive(Clone, Copy)]
pub(crate) enum Stop {
    NoMemory,
    Refused,
}

impl From<AllocError> for Stop {
    ghost from_gives = { λ _ stop. stop ≡ NoMemory };

    fn from(_error: AllocError) -> Stop {
        Stop::NoMemory
    }
}

impl<T: Drop> From<AllocFailed<T>> for Stop {
    ghost from_gives = { λ _ stop. stop ≡ NoMemory };

    fn from(_error: AllocFailed<T>) -> Stop {
        Stop::NoMemory
    }
}

/// A text, seen as the bytes that are still to be read.
#[derive(Drop)]
pub(crate) struct Cursor<'a> {
    rest: &'a [u8],
}

impl<'a> Model for Cursor<'a> {
    ghost use Rattle.std.specs.Prelude.{ℕ, List};

    ghost Value = { List ℕ };

    ghost view = { λ c. c.rest.now };
}

impl<'a> Cursor<'a> {
    /// At the front of this text.
    pub fn new(text: &'a [u8]) -> Cursor<'a>
        ensures { result ≡ text.now }
    {
        Cursor { rest: text }
    }

    /// Reads these bytes, where they come next.
    pub fn takes(&mut self, text: &[u8]) -> bool
        ensures took { result ≡ begins text.now self.old }
        ensures rest { self.new ≡ (if result then past text.now self.old else self.old) }
    {
        if !self.rest.starts_with(text) {
            return false;
        }
        self.rest = &self.rest[text.len()..];
        true
    }

    /// Reads the next byte, where it is a hexadecimal digit.
    #[tactic(auto, unfolding(crate::specs::Reading::digit_at))]
    pub fn digit(&mut self) -> Result<u8, Stop>
        ensures { Reads (digit_at self.old) result self.new }
    {
        let [byte, rest @ ..] = self.rest else {
            return Err(Stop::Refused);
        };
        if !is_digit(*byte) {
            return Err(Stop::Refused);
        }
        let digit = *byte;
        self.rest = rest;
        Ok(digit)
    }

    /// Reads these bytes, where they come next.
    pub fn expect(&mut self, text: &[u8]) -> Result<(), Stop>
        ensures { Reads (marked text.now (tt {0}) self.old) result self.new }
    {
        if self.takes(text) {
            Ok(())
        } else {
            Err(Stop::Refused)
        }
    }

    /// The bytes that are still to be read.
    pub fn rest(&self) -> &[u8]
        ensures { result.now ≡ self.now }
    {
        self.rest
    }
}

/// Whether a byte is a hexadecimal digit, in either case.
fn is_digit(byte: u8) -> bool
    ensures { result ≡ is_digit byte }
{
    matches!(byte, b'0'..=b'9' | b'A'..=b'F' | b'a'..=b'f')
}
