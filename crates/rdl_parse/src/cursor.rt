//! A cursor over the tokens of a description.

ghost use Rattle.std.specs.Prelude.{◌≡◌, length};
ghost use Rattle.parsing.specs.Parser.{sees, expect, any_one, finish};
ghost use Rattle.parsing.specs.Reads.{Reads};
ghost use Rattle.rdl_parse.specs.Grammar.{place_of};
ghost use Rattle.rdl_tree.specs.Tree as tree;

use bit_base::place::Place;
use parsing::stop::Stop;
use rdl_tree::token::{RdlToken, RdlTokenKind};
use std::alloc::Global;
use std::marker::Model;

/// The tokens from the next one on.
#[derive(Drop)]
pub struct Cursor<'a> {
    rest: &'a [RdlToken],
}

impl<'a> Model for Cursor<'a> {
    ghost use Rattle.std.specs.Prelude.{List};
    ghost use Rattle.rdl_tree.specs.declared.token.RdlToken.{RdlToken};

    ghost Value = { List RdlToken };

    ghost view = { λ c. c.rest.now };
}

impl<'a> Cursor<'a> {
    pub fn new(tokens: &'a [RdlToken]) -> Cursor<'a>
        ensures { result ≡ tokens.now }
    {
        Cursor { rest: tokens }
    }

    /// How many tokens are left.
    pub fn len(&self) -> usize
        ensures { result ≡ length self.now }
    {
        self.rest.len()
    }

    pub fn sees_text(&self, bytes: &[u8]) -> bool
        ensures { result ≡ sees (tree.is_text bytes.now) self.now }
    {
        match self.rest {
            [] => false,
            [token, ..] => token.is_text(bytes),
        }
    }

    pub fn sees_kind(&self, kind: RdlTokenKind) -> bool
        ensures { result ≡ sees (tree.is_kind kind) self.now }
    {
        match self.rest {
            [] => false,
            [token, ..] => token.kind == kind,
        }
    }

    pub fn sees_name(&self) -> bool
        ensures { result ≡ sees tree.is_name self.now }
    {
        match self.rest {
            [] => false,
            [token, ..] => token.is_name(),
        }
    }

    /// Takes the next token.
    #[tactic(auto, unfolding(parsing::specs::Parser::expect))]
    fn next(&mut self, alloc: Global) -> Result<RdlToken, Stop>
        ensures { Reads (expect any_one self.old) result self.new }
    {
        match self.rest.split_first() {
            None => Err(Stop::Refused),
            Some((token, rest)) => {
                let taken = token.copy(alloc)?;
                self.rest = rest;
                Ok(taken)
            }
        }
    }

    /// Takes the next token, which has to be the mark or the word with these bytes.
    #[tactic(auto, using(parsing::proofs::Steps::expect_seen, parsing::proofs::Steps::expect_unseen))]
    pub fn text(&mut self, alloc: Global, bytes: &[u8]) -> Result<RdlToken, Stop>
        ensures { Reads (expect (tree.is_text bytes.now) self.old) result self.new }
    {
        if !self.sees_text(bytes) {
            return Err(Stop::Refused);
        }
        self.next(alloc)
    }

    /// Takes the next token, which has to be of this kind.
    #[tactic(auto, using(parsing::proofs::Steps::expect_seen, parsing::proofs::Steps::expect_unseen))]
    pub fn kind(&mut self, alloc: Global, kind: RdlTokenKind) -> Result<RdlToken, Stop>
        ensures { Reads (expect (tree.is_kind kind) self.old) result self.new }
    {
        if !self.sees_kind(kind) {
            return Err(Stop::Refused);
        }
        self.next(alloc)
    }

    /// Takes the next token, which has to be a name.
    #[tactic(auto, using(parsing::proofs::Steps::expect_seen, parsing::proofs::Steps::expect_unseen))]
    pub fn name(&mut self, alloc: Global) -> Result<RdlToken, Stop>
        ensures { Reads (expect tree.is_name self.old) result self.new }
    {
        if !self.sees_name() {
            return Err(Stop::Refused);
        }
        self.next(alloc)
    }

    /// The end.
    #[tactic(auto, unfolding(parsing::specs::Parser::finish))]
    pub fn finish(&self) -> Result<(), Stop>
        ensures { Reads (finish self.now) result self.now }
    {
        if self.rest.is_empty() {
            Ok(())
        } else {
            Err(Stop::Refused)
        }
    }

    /// Where the next token stands, or `end` where there is none.
    pub fn place(&self, end: Place) -> Place
        ensures { result ≡ place_of self.now end }
    {
        match self.rest {
            [] => end,
            [token, ..] => token.place,
        }
    }
}
