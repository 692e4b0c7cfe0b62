//! Words and system names of the language that are left out.

ghost use Rattle.std.specs.Prelude.{◌≡◌, MatchOption};
ghost use Rattle.vlog_parse.specs.LeftOut as spec;
ghost use Rattle.vlog_parse.specs.LeftOut.{HasNoneLeftOut, IsFirstLeftOut, statement_words, declaration_words, net_words, variable_words, gate_words};

use bit_base::place::Place;
use vlog_tree::token::{VToken, VTokenKind};

#[tactic(auto, unfolding(crate::specs::LeftOut::is_one_of))]
fn is_statement_word(word: &[u8]) -> bool
    ensures { result ≡ spec.is_one_of statement_words word.now }
{
    (word == b"casex".as_slice())
        | (word == b"while".as_slice())
        | (word == b"repeat".as_slice())
        | (word == b"forever".as_slice())
        | (word == b"wait".as_slice())
        | (word == b"fork".as_slice())
        | (word == b"join".as_slice())
        | (word == b"force".as_slice())
        | (word == b"release".as_slice())
        | (word == b"deassign".as_slice())
        | (word == b"disable".as_slice())
}

#[tactic(auto, unfolding(crate::specs::LeftOut::is_one_of))]
fn is_declaration_word(word: &[u8]) -> bool
    ensures { result ≡ spec.is_one_of declaration_words word.now }
{
    (word == b"function".as_slice())
        | (word == b"task".as_slice())
        | (word == b"specify".as_slice())
        | (word == b"primitive".as_slice())
        | (word == b"table".as_slice())
        | (word == b"defparam".as_slice())
}

#[tactic(auto, unfolding(crate::specs::LeftOut::is_one_of))]
fn is_net_word(word: &[u8]) -> bool
    ensures { result ≡ spec.is_one_of net_words word.now }
{
    (word == b"inout".as_slice())
        | (word == b"tri".as_slice())
        | (word == b"tri0".as_slice())
        | (word == b"tri1".as_slice())
        | (word == b"triand".as_slice())
        | (word == b"trior".as_slice())
        | (word == b"trireg".as_slice())
        | (word == b"wand".as_slice())
        | (word == b"wor".as_slice())
        | (word == b"supply0".as_slice())
        | (word == b"supply1".as_slice())
}

#[tactic(auto, unfolding(crate::specs::LeftOut::is_one_of))]
fn is_variable_word(word: &[u8]) -> bool
    ensures { result ≡ spec.is_one_of variable_words word.now }
{
    (word == b"real".as_slice())
        | (word == b"realtime".as_slice())
        | (word == b"time".as_slice())
        | (word == b"integer".as_slice())
        | (word == b"event".as_slice())
}

#[tactic(auto, unfolding(crate::specs::LeftOut::is_one_of))]
fn is_gate_word(word: &[u8]) -> bool
    ensures { result ≡ spec.is_one_of gate_words word.now }
{
    (word == b"and".as_slice())
        | (word == b"nand".as_slice())
        | (word == b"nor".as_slice())
        | (word == b"xor".as_slice())
        | (word == b"xnor".as_slice())
        | (word == b"buf".as_slice())
        | (word == b"not".as_slice())
        | (word == b"bufif0".as_slice())
        | (word == b"bufif1".as_slice())
        | (word == b"notif0".as_slice())
        | (word == b"notif1".as_slice())
}

/// A word of the language that the grammar doesn't have, or a system name other than its three functions.
#[tactic(auto, unfolding(crate::specs::LeftOut::is_left_out))]
fn is_left_out(token: &VToken) -> bool
    ensures { result ≡ spec.is_left_out token.now }
{
    let word = token.text.as_bytes();
    is_statement_word(word)
        || is_declaration_word(word)
        || is_net_word(word)
        || is_variable_word(word)
        || is_gate_word(word)
        || (token.is_kind(VTokenKind::System) && !token.is_function())
}

/// The place of the first token that is left out.
pub fn first_left_out(tokens: &[VToken]) -> Option<Place>
    ensures { MatchOption result (HasNoneLeftOut tokens.now) (λ place. IsFirstLeftOut tokens.now place) }
{
    for token in tokens {
        if is_left_out(token) {
            return Some(token.place);
        }
    }
    None
}
