//! The lines of a text, one after the other.

ghost use Rattle.std.specs.Prelude.{◌≡◌, ◌==◌, ◌+◌, ◌^◌, ◌<◌, ◌≤◌, [], length, IfOk, IfErr, OnOk, IfSome};
ghost use Rattle.std.specs.List.{position};

use crate::fault::{CertCode, CertFault};

/// The most bytes that a certificate has.
pub const MOST_BYTES: usize = 268_435_456;

/// What is left of a text, and the number of its first line, counted from 1.
#[derive(Drop)]
pub(crate) struct Lines<'a> {
    pub rest: &'a [u8],
    pub number: u32,
    pub ghost counted: { 1 ≤ number },
    pub ghost small: { number + length rest.now ≤ 2 ^ 28 + 1 },
}

/// The place of the first line feed.
fn line_feed(text: &[u8]) -> Option<usize>
    ensures place { result ≡ position (λ byte. byte == 10) text.now }
    ensures inside { IfSome result (λ place. place < length text.now) }
{
    text.iter().position(|byte| *byte == b'\n')
}

impl<'a> Lines<'a> {
    ghost use Rattle.cert_text.specs.declared.fault.CertFault.TheVariants.{At};
    ghost use Rattle.cert_text.specs.Lines.{lines_of, tail_of};
    ghost use Rattle.cert_text.specs.Steps.{TakesLine, ending};

    /// The lines of this text.
    pub fn new(text: &'a [u8]) -> Lines<'a>
        requires { length text.now ≤ MOST_BYTES }
        ensures rest { result.rest.now ≡ text.now }
        ensures number { result.number ≡ 1 }
    {
        Lines {
            rest: text,
            number: 1,
        }
    }

    /// Takes the next line, where it has its line feed, which is left out; else the fault of a text
    /// that ends here, which is short, or has a line without its line feed.
    pub fn next_line(&mut self) -> Result<&'a [u8], CertFault>
        ensures took { IfOk result (λ line. TakesLine self.old.rest.now line.now self.new.rest.now) }
        ensures next { OnOk result (self.new.number ≡ self.old.number + 1) }
        ensures ended { IfErr result (λ fault. fault ≡ At (ending self.old.rest.now) self.old.number) }
        ensures none { IfErr result (λ fault. (lines_of self.old.rest.now ≡ []) × (tail_of self.old.rest.now ≡ self.old.rest.now)) }
    {
        let text = self.rest;
        match line_feed(text) {
            Some(place) => {
                self.rest = &text[place + 1..];
                self.number += 1;
                Ok(&text[..place])
            }
            None => {
                let code = if text.is_empty() {
                    CertCode::CertShort
                } else {
                    CertCode::CertLine
                };
                Err(CertFault::At {
                    code,
                    line: self.number,
                })
            }
        }
    }
}
