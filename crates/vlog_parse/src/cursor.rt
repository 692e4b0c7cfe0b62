//! A cursor over the tokens of a Verilog text.

ghost use Rattle.std.specs.Prelude.{◌≡◌, length};
ghost use Rattle.parsing.specs.Parser.{sees, expect, any_one, finish};
ghost use Rattle.parsing.specs.Reads.{Reads};
ghost use Rattle.vlog_tree.specs.ReadExpressions as expressions;
ghost use Rattle.vlog_tree.specs.Terminals as terminals;
ghost use Rattle.vlog_parse.specs.Refusal.{place_of};

use bit_base::place::Place;
use parsing::stop::Stop;
use std::alloc::Global;
use std::marker::Model;
use vlog_tree::token::{VToken, VTokenKind};

/// The tokens from the next one on.
#[derive(Drop)]
pub struct Cursor<'a> {
    rest: &'a [VToken],
    /// The room that the text is read with.
    room: usize,
}

impl<'a> Model for Cursor<'a> {
    ghost use Rattle.std.specs.Prelude.{List};
    ghost use Rattle.vlog_tree.specs.declared.token.VToken.{VToken};

    ghost Value = { List VToken };

    ghost view = { λ c. c.rest.now };
}

impl<'a> Cursor<'a> {
    /// The tokens of a text that is read with this room.
    pub fn new(tokens: &'a [VToken], room: usize) -> Cursor<'a>
        ensures { result ≡ tokens.now }
    {
        Cursor { rest: tokens, room }
    }

    /// How many tokens are left.
    pub fn len(&self) -> usize
        ensures { result ≡ length self.now }
    {
        self.rest.len()
    }

    pub fn sees_mark(&self, bytes: &[u8]) -> bool
        ensures { result ≡ sees (terminals.is_mark bytes.now) self.now }
    {
        match self.rest {
            [] => false,
            [token, ..] => token.is_mark(bytes),
        }
    }

    pub fn sees_word(&self, bytes: &[u8]) -> bool
        ensures { result ≡ sees (terminals.is_word bytes.now) self.now }
    {
        match self.rest {
            [] => false,
            [token, ..] => token.is_word(bytes),
        }
    }

    pub fn sees_name(&self) -> bool
        ensures { result ≡ sees terminals.is_name self.now }
    {
        match self.rest {
            [] => false,
            [token, ..] => token.kind == VTokenKind::Name,
        }
    }

    pub fn sees_number(&self) -> bool
        ensures { result ≡ sees terminals.is_number self.now }
    {
        match self.rest {
            [] => false,
            [token, ..] => token.kind == VTokenKind::Number,
        }
    }

    pub fn sees_function(&self) -> bool
        ensures { result ≡ sees terminals.is_function self.now }
    {
        match self.rest {
            [] => false,
            [token, ..] => token.is_function(),
        }
    }

    pub fn sees_unary(&self) -> bool
        ensures { result ≡ sees terminals.is_unary self.now }
    {
        match self.rest {
            [] => false,
            [token, ..] => token.is_unary(),
        }
    }

    /// A binary operator of this level, which is at least 1.
    #[tactic(auto, unfolding(vlog_tree::specs::Terminals::is_level))]
    pub fn sees_level(&self, level: u8) -> bool
        ensures { result ≡ sees (terminals.is_level level) self.now }
    {
        match self.rest {
            [] => false,
            [token, ..] => token.level() == level,
        }
    }

    /// `posedge` or `negedge`.
    #[tactic(auto, unfolding(vlog_tree::specs::Terminals::is_edge))]
    pub fn sees_edge(&self) -> bool
        ensures { result ≡ sees terminals.is_edge self.now }
    {
        self.sees_word(b"posedge") || self.sees_word(b"negedge")
    }

    /// `or` or `,`.
    #[tactic(auto, unfolding(vlog_tree::specs::Terminals::is_separator))]
    pub fn sees_separator(&self) -> bool
        ensures { result ≡ sees terminals.is_separator self.now }
    {
        self.sees_word(b"or") || self.sees_mark(b",")
    }

    /// `=` or `<=`.
    #[tactic(auto, unfolding(vlog_tree::specs::Terminals::is_assigning))]
    pub fn sees_assigning(&self) -> bool
        ensures { result ≡ sees terminals.is_assigning self.now }
    {
        self.sees_mark(b"=") || self.sees_mark(b"<=")
    }

    /// `case` or `casez`.
    #[tactic(auto, unfolding(vlog_tree::specs::Terminals::is_case_word))]
    pub fn sees_case_word(&self) -> bool
        ensures { result ≡ sees terminals.is_case_word self.now }
    {
        self.sees_word(b"case") || self.sees_word(b"casez")
    }

    /// `parameter` or `localparam`.
    #[tactic(auto, unfolding(vlog_tree::specs::Terminals::is_constant_word))]
    pub fn sees_constant_word(&self) -> bool
        ensures { result ≡ sees terminals.is_constant_word self.now }
    {
        self.sees_word(b"parameter") || self.sees_word(b"localparam")
    }

    /// A token that an expression begins with.
    #[tactic(auto, unfolding(vlog_tree::specs::ReadExpressions::begins_expr))]
    pub fn sees_expr(&self) -> bool
        ensures { result ≡ sees expressions.begins_expr self.now }
    {
        self.sees_number()
            || self.sees_name()
            || self.sees_mark(b"(")
            || self.sees_mark(b"{")
            || self.sees_function()
            || self.sees_unary()
    }

    /// A token that a left side begins with.
    #[tactic(auto, unfolding(vlog_tree::specs::ReadExpressions::begins_lval))]
    pub fn sees_lval(&self) -> bool
        ensures { result ≡ sees expressions.begins_lval self.now }
    {
        self.sees_name() || self.sees_mark(b"{")
    }

    /// Takes the next token, whichever it is.
    #[tactic(auto, unfolding(parsing::specs::Parser::expect))]
    pub fn next(&mut self, alloc: Global) -> Result<VToken, Stop>
        ensures { Reads (expect any_one self.old) result self.new }
    {
        match self.rest.split_first() {
            None => Err(Stop::Refused),
            Some((token, rest)) => {
                let taken = token.copy(alloc)?;
                self.rest = rest;
                Ok(taken)
            }
        }
    }

    /// Takes the next token, which has to be the mark with these bytes.
    #[tactic(auto, using(parsing::proofs::Steps::expect_seen, parsing::proofs::Steps::expect_unseen))]
    pub fn mark(&mut self, alloc: Global, bytes: &[u8]) -> Result<VToken, Stop>
        ensures { Reads (expect (terminals.is_mark bytes.now) self.old) result self.new }
    {
        if !self.sees_mark(bytes) {
            return Err(Stop::Refused);
        }
        self.next(alloc)
    }

    /// Takes the next token, which has to be the word with these bytes.
    #[tactic(auto, using(parsing::proofs::Steps::expect_seen, parsing::proofs::Steps::expect_unseen))]
    pub fn word(&mut self, alloc: Global, bytes: &[u8]) -> Result<VToken, Stop>
        ensures { Reads (expect (terminals.is_word bytes.now) self.old) result self.new }
    {
        if !self.sees_word(bytes) {
            return Err(Stop::Refused);
        }
        self.next(alloc)
    }

    /// Takes the next token, which has to be a name.
    #[tactic(auto, using(parsing::proofs::Steps::expect_seen, parsing::proofs::Steps::expect_unseen))]
    pub fn name(&mut self, alloc: Global) -> Result<VToken, Stop>
        ensures { Reads (expect terminals.is_name self.old) result self.new }
    {
        if !self.sees_name() {
            return Err(Stop::Refused);
        }
        self.next(alloc)
    }

    /// Takes the next token, which has to be a number.
    #[tactic(auto, using(parsing::proofs::Steps::expect_seen, parsing::proofs::Steps::expect_unseen))]
    pub fn number(&mut self, alloc: Global) -> Result<VToken, Stop>
        ensures { Reads (expect terminals.is_number self.old) result self.new }
    {
        if !self.sees_number() {
            return Err(Stop::Refused);
        }
        self.next(alloc)
    }

    /// Takes the next token, which has to be a system function of the subset.
    #[tactic(auto, using(parsing::proofs::Steps::expect_seen, parsing::proofs::Steps::expect_unseen))]
    pub fn function(&mut self, alloc: Global) -> Result<VToken, Stop>
        ensures { Reads (expect terminals.is_function self.old) result self.new }
    {
        if !self.sees_function() {
            return Err(Stop::Refused);
        }
        self.next(alloc)
    }

    /// Takes the next token, which has to be a unary operator.
    #[tactic(auto, using(parsing::proofs::Steps::expect_seen, parsing::proofs::Steps::expect_unseen))]
    pub fn unary(&mut self, alloc: Global) -> Result<VToken, Stop>
        ensures { Reads (expect terminals.is_unary self.old) result self.new }
    {
        if !self.sees_unary() {
            return Err(Stop::Refused);
        }
        self.next(alloc)
    }

    /// Takes the next token, which has to be a binary operator of this level.
    #[tactic(auto, using(parsing::proofs::Steps::expect_seen, parsing::proofs::Steps::expect_unseen))]
    pub fn level(&mut self, alloc: Global, level: u8) -> Result<VToken, Stop>
        ensures { Reads (expect (terminals.is_level level) self.old) result self.new }
    {
        if !self.sees_level(level) {
            return Err(Stop::Refused);
        }
        self.next(alloc)
    }

    /// Takes the next token, which has to be `posedge` or `negedge`.
    #[tactic(auto, using(parsing::proofs::Steps::expect_seen, parsing::proofs::Steps::expect_unseen))]
    pub fn edge(&mut self, alloc: Global) -> Result<VToken, Stop>
        ensures { Reads (expect terminals.is_edge self.old) result self.new }
    {
        if !self.sees_edge() {
            return Err(Stop::Refused);
        }
        self.next(alloc)
    }

    /// Takes the next token, which has to be `or` or `,`.
    #[tactic(auto, using(parsing::proofs::Steps::expect_seen, parsing::proofs::Steps::expect_unseen))]
    pub fn separator(&mut self, alloc: Global) -> Result<VToken, Stop>
        ensures { Reads (expect terminals.is_separator self.old) result self.new }
    {
        if !self.sees_separator() {
            return Err(Stop::Refused);
        }
        self.next(alloc)
    }

    /// Takes the next token, which has to be `=` or `<=`.
    #[tactic(auto, using(parsing::proofs::Steps::expect_seen, parsing::proofs::Steps::expect_unseen))]
    pub fn assigning(&mut self, alloc: Global) -> Result<VToken, Stop>
        ensures { Reads (expect terminals.is_assigning self.old) result self.new }
    {
        if !self.sees_assigning() {
            return Err(Stop::Refused);
        }
        self.next(alloc)
    }

    /// Takes the next token, which has to be `case` or `casez`.
    #[tactic(auto, using(parsing::proofs::Steps::expect_seen, parsing::proofs::Steps::expect_unseen))]
    pub fn case_word(&mut self, alloc: Global) -> Result<VToken, Stop>
        ensures { Reads (expect terminals.is_case_word self.old) result self.new }
    {
        if !self.sees_case_word() {
            return Err(Stop::Refused);
        }
        self.next(alloc)
    }

    /// Takes the next token, which has to be `parameter` or `localparam`.
    #[tactic(auto, using(parsing::proofs::Steps::expect_seen, parsing::proofs::Steps::expect_unseen))]
    pub fn constant_word(&mut self, alloc: Global) -> Result<VToken, Stop>
        ensures { Reads (expect terminals.is_constant_word self.old) result self.new }
    {
        if !self.sees_constant_word() {
            return Err(Stop::Refused);
        }
        self.next(alloc)
    }

    /// The end.
    #[tactic(auto, unfolding(parsing::specs::Parser::finish))]
    pub fn finish(&self) -> Result<(), Stop>
        ensures { Reads (finish self.now) result self.now }
    {
        if self.rest.is_empty() {
            Ok(())
        } else {
            Err(Stop::Refused)
        }
    }

    /// Where the next token stands, or `end` where there is none.
    pub fn place(&self, end: Place) -> Place
        ensures { result ≡ place_of self.now end }
    {
        match self.rest {
            [] => end,
            [token, ..] => token.place,
        }
    }
}
