//! The words of a line, one after the other.

ghost use Rattle.std.specs.Prelude.{◌≡◌, ◌==◌, ◌<◌, length, IfSome};
ghost use Rattle.std.specs.List.{position};
ghost use Rattle.cert_text.specs.Lines.{words_of};
ghost use Rattle.cert_text.specs.Words.{TakesWord};

use std::marker::Model;

/// A line, seen as the words that are still to be read: those that stand between its spaces.
#[derive(Drop)]
pub(crate) struct Words<'a> {
    text: &'a [u8],
    more: bool,
}

impl<'a> Model for Words<'a> {
    ghost use Rattle.std.specs.Prelude.{ℕ, List};
    ghost use Rattle.cert_text.specs.Words.{words_left};

    ghost Value = { List (List ℕ) };

    ghost view = { λ w. words_left w.more w.text.now };
}

/// The place of the first space.
fn space(text: &[u8]) -> Option<usize>
    ensures place { result ≡ position (λ byte. byte == 32) text.now }
    ensures inside { IfSome result (λ place. place < length text.now) }
{
    text.iter().position(|byte| *byte == b' ')
}

impl<'a> Words<'a> {
    /// The words of this line.
    pub fn new(line: &'a [u8]) -> Words<'a>
        ensures { result ≡ words_of line.now }
    {
        Words {
            text: line,
            more: true,
        }
    }

    /// Takes the next word.
    pub fn next_word(&mut self) -> Option<&'a [u8]>
        ensures { TakesWord self.old result self.new }
    {
        if !self.more {
            return None;
        }
        let text = self.text;
        match space(text) {
            Some(place) => {
                self.text = &text[place + 1..];
                Some(&text[..place])
            }
            None => {
                self.more = false;
                Some(text)
            }
        }
    }
}
