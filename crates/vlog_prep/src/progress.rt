//! What has been read: macros, conditions and tokens.

ghost use Rattle.std.specs.List.{prefix_len};
ghost use Rattle.std.specs.Prelude.{◌≡◌, ◌<◌, ◌≤◌, length, [], None, Some, false, true, option_map, if◌then◌else◌};
ghost use Rattle.vlog_tree.specs.declared.fault.VlogFault.{VlogFault};
ghost use Rattle.vlog_tree.specs.declared.fault.VlogFault.TheVariants.{At};
ghost use Rattle.vlog_tree.specs.declared.fault.VlogCode.TheVariants.{VlogDirective, VlogSize};
ghost use Rattle.vlog_tree.specs.declared.token.VTokenKind.TheVariants.{Name};
ghost use Rattle.vlog_tree.specs.Tokens.{is_kind};
ghost use Rattle.vlog_prep.specs.declared.condition.Choice.TheVariants.{Reading};
ghost use Rattle.vlog_prep.specs.Reading.{whole, is_read, is_within_line, where_read, keep, line, next_name, definition, define_, undefine, chosen, open_, begin, turned, turn, turn_last, close, substitute, start};
ghost use Rattle.vlog_prep.specs.Seen.{seen, named, Follows, IsUse};

use crate::condition::{Choice, Condition};
use crate::macros::Macros;
use crate::piece::Piece;
use bit_base::place::Place;
use sqlite_items::Items;
use std::alloc::Global;
use vlog_tree::fault::{VlogCode, VlogFault, fault_at};
use vlog_tree::token::{VToken, VTokenKind};

/// The most tokens, where each use of a macro counts as one more.
pub const MOST_TOKENS: u32 = 200_000;

/// The most tokens and directives that all uses of macros together are replaced by.
pub const MOST_SUBSTITUTED: usize = 4_000_000;

/// The most conditions that are open at once.
pub const MOST_CONDITIONS: usize = 1_024;

/// The macros that are defined, the open conditions, the innermost last, the tokens, how many tokens and uses of
/// macros there were, and how many tokens and directives the texts of the macros that were used have together.
#[derive(Drop)]
pub struct Progress<'a> {
    pub macros: Macros<'a>,
    pub conditions: Items<Condition>,
    pub tokens: Items<VToken>,
    pub count: u32,
    pub substituted: usize,
}

/// 202 at this place.
fn refuse(alloc: Global, place: Place) -> VlogFault
    ensures { result ≡ At VlogDirective place [] [] }
{
    fault_at(alloc, VlogCode::VlogDirective, place)
}

/// 213 of all the files.
fn too_many(alloc: Global) -> VlogFault
    ensures { result ≡ At VlogSize whole [] [] }
{
    fault_at(
        alloc,
        VlogCode::VlogSize,
        Place {
            file: 0,
            line: 0,
            column: 0,
        },
    )
}

/// The piece doesn't end a line.
fn is_within_line(piece: &Piece) -> bool
    ensures { result ≡ is_within_line piece.now }
{
    !matches!(piece, Piece::LineEnd)
}

/// How many pieces stand before the end of the line.
pub fn line_len(pieces: &[Piece]) -> usize
    ensures value { result ≡ prefix_len is_within_line pieces.now }
    ensures within { result ≤ length pieces.now }
{
    pieces
        .iter()
        .take_while(|piece| is_within_line(piece))
        .count()
}

/// The pieces up to the end of the line.
pub fn line(pieces: &[Piece]) -> &[Piece]
    ensures { result.now ≡ line pieces.now }
{
    let (line, _) = pieces.split_at(line_len(pieces));
    line
}

/// The name of a token, if it is one.
fn name_of(token: &VToken) -> Option<&[u8]>
    ensures { named result ≡ (if is_kind Name token.now then Some token.now.text else None) }
{
    if token.kind == VTokenKind::Name {
        Some(token.text.as_bytes())
    } else {
        None
    }
}

/// The next name, which may stand on a later line.
#[tactic(auto, unfolding(crate::specs::Reading::next_name))]
pub fn next_name(pieces: &[Piece]) -> Option<&[u8]>
    ensures { named result ≡ next_name pieces.now }
{
    for piece in pieces {
        match piece {
            Piece::LineEnd => {}
            Piece::Token { token, .. } => return name_of(token),
            Piece::Directive { .. } => return None,
        }
    }
    None
}

/// What a line behind `define` defines: a name, no `(` directly after it, and the macro's pieces.
fn definition(line: &[Piece]) -> Option<(&[u8], &[Piece])>
    ensures { option_map (λ p. (p.0.now, p.1.now)) result ≡ definition line.now }
{
    let (first, body) = line.split_first()?;
    match first {
        Piece::Token {
            token,
            called: false,
        } => {
            let name = name_of(token)?;
            Some((name, body))
        }
        _ => None,
    }
}

/// The choice of a further part.
fn turned(choice: Choice, further: Choice) -> Choice
    ensures { result ≡ turned choice further }
{
    match choice {
        Choice::Seeking => further,
        Choice::Reading | Choice::Done => Choice::Done,
        Choice::Skipped => Choice::Skipped,
    }
}

impl<'a> Progress<'a> {
    pub fn new(alloc: Global) -> Progress<'a>
        ensures { seen result ≡ start }
    {
        Progress {
            macros: Macros::new(alloc),
            conditions: Items::new(alloc),
            tokens: Items::new(alloc),
            count: 0,
            substituted: 0,
        }
    }

    /// No condition leaves out what stands here.
    pub fn is_read(&self) -> bool
        ensures { result ≡ is_read (seen self.now).conditions }
    {
        match self.conditions.as_slice() {
            [.., last] => last.choice == Choice::Reading,
            [] => true,
        }
    }

    /// One more token, or none where the part is left out.
    pub fn keep(&mut self, alloc: Global, token: &VToken, place: Place) -> Result<(), VlogFault>
        ensures { Follows (keep place token.now (seen self.old)) result (seen self.new) }
    {
        if !self.is_read() {
            return Ok(());
        }
        if self.count >= MOST_TOKENS {
            return Err(too_many(alloc));
        }
        let token = token.copy_at(alloc, place)?;
        self.tokens.push(token)?;
        self.count += 1;
        Ok(())
    }

    /// `define`, with its line.
    pub fn define(
        &mut self,
        alloc: Global,
        place: Place,
        line: &'a [Piece],
    ) -> Result<(), VlogFault>
        ensures { Follows (where_read (seen self.old) (define_ place (definition line.now) (seen self.old))) result (seen self.new) }
    {
        if !self.is_read() {
            return Ok(());
        }
        let Some((name, body)) = definition(line) else {
            return Err(refuse(alloc, place));
        };
        self.macros.define(name, body)?;
        Ok(())
    }

    /// `undef`, with its name.
    pub fn undefine(
        &mut self,
        alloc: Global,
        place: Place,
        name: Option<&[u8]>,
    ) -> Result<(), VlogFault>
        ensures { Follows (where_read (seen self.old) (undefine place (named name.entry) (seen self.old))) result (seen self.new) }
    {
        if !self.is_read() {
            return Ok(());
        }
        let Some(name) = name else {
            return Err(refuse(alloc, place));
        };
        self.macros.undefine(name);
        Ok(())
    }

    /// Whether a part is read whose name must be defined, or must not be.
    fn chosen(&self, wanted: bool, name: &[u8]) -> Choice
        ensures { result ≡ chosen wanted (seen self.now) name.now }
    {
        if self.macros.has(name) == wanted {
            Choice::Reading
        } else {
            Choice::Seeking
        }
    }

    /// One more condition is open.
    fn open(&mut self, alloc: Global, place: Place, choice: Choice) -> Result<(), VlogFault>
        ensures { Follows (open_ place choice (seen self.old)) result (seen self.new) }
    {
        if self.conditions.len() >= MOST_CONDITIONS {
            return Err(too_many(alloc));
        }
        self.conditions.push(Condition {
            place,
            choice,
            last: false,
        })?;
        Ok(())
    }

    /// `ifdef` or `ifndef`, with its name.
    pub fn begin(
        &mut self,
        alloc: Global,
        place: Place,
        wanted: bool,
        name: Option<&[u8]>,
    ) -> Result<(), VlogFault>
        ensures { Follows (begin place wanted (named name.entry) (seen self.old)) result (seen self.new) }
    {
        let choice = match (self.is_read(), name) {
            (false, _) => Choice::Skipped,
            (true, Some(name)) => self.chosen(wanted, name),
            (true, None) => return Err(refuse(alloc, place)),
        };
        self.open(alloc, place, choice)
    }

    /// `elsif`, with its name.
    pub fn turn(
        &mut self,
        alloc: Global,
        place: Place,
        name: Option<&[u8]>,
    ) -> Result<(), VlogFault>
        ensures { Follows (turn place (named name.entry) (seen self.old) (seen self.old).conditions) result (seen self.new) }
    {
        let Some(condition) = self.conditions.pop() else {
            return Err(refuse(alloc, place));
        };
        if condition.last {
            return Err(refuse(alloc, place));
        }
        let choice = match (condition.choice, name) {
            (Choice::Skipped, _) => Choice::Skipped,
            (choice, Some(name)) => turned(choice, self.chosen(true, name)),
            (_, None) => return Err(refuse(alloc, place)),
        };
        self.conditions.push(Condition {
            place: condition.place,
            choice,
            last: false,
        })?;
        Ok(())
    }

    /// `else`.
    pub fn turn_last(&mut self, alloc: Global, place: Place) -> Result<(), VlogFault>
        ensures { Follows (turn_last place (seen self.old) (seen self.old).conditions) result (seen self.new) }
    {
        let Some(condition) = self.conditions.pop() else {
            return Err(refuse(alloc, place));
        };
        if condition.last {
            return Err(refuse(alloc, place));
        }
        self.conditions.push(Condition {
            place: condition.place,
            choice: turned(condition.choice, Choice::Reading),
            last: true,
        })?;
        Ok(())
    }

    /// `endif`.
    pub fn close(&mut self, alloc: Global, place: Place) -> Result<(), VlogFault>
        ensures { Follows (close place (seen self.old) (seen self.old).conditions) result (seen self.new) }
    {
        match self.conditions.pop() {
            Some(_) => Ok(()),
            None => Err(refuse(alloc, place)),
        }
    }

    /// One more use of a macro, with these pieces.
    fn substitute(&mut self, alloc: Global, body: &[Piece]) -> Result<(), VlogFault>
        ensures { Follows (substitute body.now (seen self.old)) result (seen self.new) }
    {
        let len = body.len();
        if self.count >= MOST_TOKENS {
            return Err(too_many(alloc));
        }
        if len > MOST_SUBSTITUTED || self.substituted > MOST_SUBSTITUTED - len {
            return Err(too_many(alloc));
        }
        self.count += 1;
        self.substituted += len;
        Ok(())
    }

    /// The pieces of a macro that is used, where macros may nest so many levels deep; none where the part is left out.
    pub fn body(
        &mut self,
        alloc: Global,
        levels: u8,
        place: Place,
        name: &[u8],
    ) -> Result<Option<&'a [Piece]>, VlogFault>
        ensures { IsUse levels place name.now (seen self.old) result (seen self.new) }
    {
        if !self.is_read() {
            return Ok(None);
        }
        let Some(body) = self.macros.get(name) else {
            return Err(refuse(alloc, place));
        };
        if levels == 0 {
            return Err(refuse(alloc, place));
        }
        match self.substitute(alloc, body) {
            Ok(()) => Ok(Some(body)),
            Err(fault) => Err(fault),
        }
    }
}
