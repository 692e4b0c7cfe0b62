//! The lines of a text, one after the other.

ghost use Rattle.std.specs.Prelude.{◌≡◌, ◌==◌, ◌↔◌, ◌<◌, [], ◌∷◌, length, IfSome, IsTrue};
ghost use Rattle.std.specs.List.{position};
ghost use Rattle.trace_replay.specs.Lines.{lines_of};
ghost use Rattle.trace_replay.specs.Steps.{TakesLine};

use std::marker::Model;

/// A text, seen as the lines that are still to be read: what follows its last line feed is a line too.
#[derive(Drop)]
pub(crate) struct Lines<'a> {
    rest: &'a [u8],
}

impl<'a> Model for Lines<'a> {
    ghost use Rattle.std.specs.Prelude.{ℕ, List};
    ghost use Rattle.trace_replay.specs.Lines.{lines_of};

    ghost Value = { List (List ℕ) };

    ghost view = { λ l. lines_of l.rest.now };
}

/// The place of the first line feed.
fn line_feed(text: &[u8]) -> Option<usize>
    ensures place { result ≡ position (λ byte. byte == 10) text.now }
    ensures inside { IfSome result (λ place. place < length text.now) }
{
    text.iter().position(|byte| *byte == b'\n')
}

impl<'a> Lines<'a> {
    /// The lines of this text.
    pub fn new(text: &'a [u8]) -> Lines<'a>
        ensures { result ≡ lines_of text.now }
    {
        Lines { rest: text }
    }

    /// Takes the next line, where it has its line feed, which is left out.
    pub fn next_line(&mut self) -> Option<&'a [u8]>
        ensures { TakesLine self.old result self.new }
    {
        let text = self.rest;
        match line_feed(text) {
            Some(place) => {
                self.rest = &text[place + 1..];
                Some(&text[..place])
            }
            None => None,
        }
    }

    /// Whether all of the text is read.
    pub fn is_at_end(&self) -> bool
        ensures { IsTrue result ↔ (self.now ≡ [] ∷ []) }
    {
        self.rest.is_empty()
    }
}
