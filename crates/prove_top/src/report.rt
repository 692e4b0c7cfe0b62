//! What a command reports: a status, and a line.

ghost use Rattle.std.specs.Option.{option_copied};
ghost use Rattle.std.specs.Prelude.{◌≡◌, ◌++◌, IfOk};
ghost use Rattle.prove_top.specs.Report.{status_number, status_of, heading_of, line_end, rdl_head, rdl_tail, place_text, description_line, trace_of, file_of, run_trace, line_of, fault_head, refusal_head, refusal_tail, difference_text, refuted_line, agrees_line, differs_line, wrong_line, code_head, code_tail};

use bit_base::place::Place;
use bit_base::text::Text;
use rdl_tree::fault::RdlCode;
use std::alloc::{AllocError, Global};
use std::vec::Vec;
use trace_replay::fault::TraceCode;
use trace_replay::joint::Difference;

/// How a command ends; the number of a program's exit status is its place, from 0.
#[derive(Clone, Copy, Debug, PartialEq, Eq)]
pub enum Status {
    Yes,
    No,
    Unknown,
    Refused,
    Usage,
    Fault,
    NoMemory,
}

impl Status {
    /// Its number, from 0 to 6.
    pub fn number(self) -> u8
        ensures { result ≡ status_number self }
    {
        match self {
            Status::Yes => 0,
            Status::No => 1,
            Status::Unknown => 2,
            Status::Refused => 3,
            Status::Usage => 4,
            Status::Fault => 5,
            Status::NoMemory => 6,
        }
    }
}

/// Why a command is refused: the description, the Verilog, the ports file or the trace is too long, a
/// file isn't there, or a form isn't read yet.
#[derive(Clone, Copy)]
pub(crate) enum Refusal {
    RdlSize,
    VlogSize,
    PortSize,
    TraceSize,
    NoFile,
    NotYet,
}

/// What a command reports; `Refuted` has the edge, the difference, the text of the trace and the name of
/// the file for it, `Agrees` the number of edges of a trace, `WrongTrace` why, where and which trace is
/// refused, `WrongDescription` why, where and which description is refused, `Described` the lines of a
/// register map, each with its line feed, and `Fault` the call of the depot that failed.
#[derive(Drop)]
pub(crate) enum Report {
    Usage,
    Refused(Refusal, Text),
    WrongTrace(TraceCode, u32, Text),
    WrongDescription(RdlCode, Place, Text),
    Refuted(usize, Difference, Text, Option<Text>),
    Simulated,
    Agrees(usize),
    Differs(usize, Difference),
    Described(Text),
    Fault { store: bool, file: Text },
}

impl Report {
    /// The status that it is reported under.
    pub fn status(&self) -> Status
        ensures { result ≡ status_of self.now }
    {
        match self {
            Report::Usage => Status::Usage,
            Report::Refused(_, _)
            | Report::WrongTrace(_, _, _)
            | Report::WrongDescription(_, _, _) => Status::Refused,
            Report::Refuted(_, _, _, _) | Report::Differs(_, _) => Status::No,
            Report::Agrees(_) | Report::Described(_) => Status::Yes,
            Report::Simulated => Status::Unknown,
            Report::Fault { store: _, file: _ } => Status::Fault,
        }
    }

    /// Its line or lines, each with its line feed.
    pub fn heading(&self, alloc: Global) -> Result<Vec<u8>, AllocError>
        ensures { IfOk result (λ text. text.items ≡ heading_of self.now) }
    {
        let mut text = self.line(alloc)?;
        text.extend_from_slice(self.line_end())?;
        Ok(text)
    }

    /// What ends its line: the lines of a register map have their line feeds.
    fn line_end(&self) -> &'static [u8]
        ensures { result.now ≡ line_end self.now }
    {
        match self {
            Report::Described(_) => b"".as_slice(),
            _ => b"\n".as_slice(),
        }
    }

    /// The trace text that follows, empty where there is none or where it has a file of its own.
    pub fn trace(&self) -> &[u8]
        ensures { result.now ≡ trace_of self.now }
    {
        match self {
            Report::Refuted(_, _, trace, None) => trace.as_bytes(),
            _ => b"".as_slice(),
        }
    }

    /// The file that it has for its trace.
    pub fn file(&self) -> Option<&Text>
        ensures { option_copied result ≡ file_of self.now }
    {
        match self {
            Report::Refuted(_, _, _, file) => file.as_ref(),
            _ => None,
        }
    }

    /// The trace, empty where there is none.
    pub fn run_trace(&self) -> &[u8]
        ensures { result.now ≡ run_trace self.now }
    {
        match self {
            Report::Refuted(_, _, trace, _) => trace.as_bytes(),
            _ => b"".as_slice(),
        }
    }

    /// Its line.
    fn line(&self, alloc: Global) -> Result<Vec<u8>, AllocError>
        ensures { IfOk result (λ line. line.items ≡ line_of self.now) }
    {
        match self {
            Report::Usage => b"usage: rdlprove prove, check, replay, map, sample or equal"
                .as_slice()
                .to_vec(alloc),
            Report::Refused(refusal, file) => joined(
                alloc,
                refusal_head(*refusal),
                file.as_bytes(),
                refusal_tail(*refusal),
            ),
            Report::WrongTrace(code, line, file) => wrong_line(
                alloc,
                *code,
                *line,
                file.as_bytes(),
            ),
            Report::WrongDescription(code, place, file) => description_line(
                alloc,
                *code,
                place,
                file.as_bytes(),
            ),
            Report::Refuted(edge, difference, _, _) => refuted_line(alloc, *edge, *difference),
            Report::Agrees(edges) => agrees_line(alloc, *edges),
            Report::Differs(edge, difference) => differs_line(alloc, *edge, *difference),
            Report::Described(lines) => lines.as_bytes().to_vec(alloc),
            Report::Simulated => b"unknown simulated".as_slice().to_vec(alloc),
            Report::Fault { store, file } => joined(
                alloc,
                fault_head(*store),
                file.as_bytes(),
                b"".as_slice(),
            ),
        }
    }
}

/// Three texts, one after the other.
fn joined(alloc: Global, first: &[u8], second: &[u8], third: &[u8]) -> Result<Vec<u8>, AllocError>
    ensures { IfOk result (λ text. text.items ≡ first.now ++ second.now ++ third.now) }
{
    let mut text = first.to_vec(alloc)?;
    text.extend_from_slice(second)?;
    text.extend_from_slice(third)?;
    Ok(text)
}

/// The line of a failed call before the file's name.
fn fault_head(store: bool) -> &'static [u8]
    ensures { result.now ≡ fault_head store }
{
    if store {
        b"fault store ".as_slice()
    } else {
        b"fault read ".as_slice()
    }
}

/// The line of a refusal before and after the file's name.
fn refusal_head(refusal: Refusal) -> &'static [u8]
    ensures { result.now ≡ refusal_head refusal }
{
    match refusal {
        Refusal::RdlSize => b"refused 108 ".as_slice(),
        Refusal::VlogSize => b"refused 213 ".as_slice(),
        Refusal::PortSize => b"refused 307 ".as_slice(),
        Refusal::TraceSize => b"refused 504 ".as_slice(),
        Refusal::NoFile => b"refused 701 ".as_slice(),
        Refusal::NotYet => b"refused 801 ".as_slice(),
    }
}

fn refusal_tail(refusal: Refusal) -> &'static [u8]
    ensures { result.now ≡ refusal_tail refusal }
{
    match refusal {
        Refusal::RdlSize => b":0:0 RdlSize".as_slice(),
        Refusal::VlogSize => b":0:0 VlogSize".as_slice(),
        Refusal::PortSize => b":0:0 PortSize".as_slice(),
        Refusal::TraceSize => b":0:0 TraceSize".as_slice(),
        Refusal::NoFile => b":0:0 NoFile".as_slice(),
        Refusal::NotYet => b":0:0 NotYet".as_slice(),
    }
}

/// The name of a difference.
fn difference_text(difference: Difference) -> &'static [u8]
    ensures { result.now ≡ difference_text difference }
{
    match difference {
        Difference::Wait => b" wait".as_slice(),
        Difference::Error => b" error".as_slice(),
        Difference::ReadData => b" readdata".as_slice(),
        Difference::Output(_) => b" output c.v".as_slice(),
    }
}

/// The line of a difference.
fn refuted_line(alloc: Global, edge: usize, difference: Difference) -> Result<Vec<u8>, AllocError>
    ensures { IfOk result (λ line. line.items ≡ refuted_line edge difference) }
{
    let number = edge.to_string(alloc)?;
    joined(
        alloc,
        b"refuted edge=".as_slice(),
        number.as_bytes(),
        difference_text(difference),
    )
}

/// The line of a trace whose run has no difference at any of so many edges.
fn agrees_line(alloc: Global, edges: usize) -> Result<Vec<u8>, AllocError>
    ensures { IfOk result (λ line. line.items ≡ agrees_line edges) }
{
    let number = edges.to_string(alloc)?;
    joined(
        alloc,
        b"agrees edges=".as_slice(),
        number.as_bytes(),
        b"".as_slice(),
    )
}

/// The line of a trace whose run has a difference.
fn differs_line(alloc: Global, edge: usize, difference: Difference) -> Result<Vec<u8>, AllocError>
    ensures { IfOk result (λ line. line.items ≡ differs_line edge difference) }
{
    let number = edge.to_string(alloc)?;
    joined(
        alloc,
        b"differs edge=".as_slice(),
        number.as_bytes(),
        difference_text(difference),
    )
}

/// The number of a refusal of a trace, and its name.
fn code_head(code: TraceCode) -> &'static [u8]
    ensures { result.now ≡ code_head code }
{
    match code {
        TraceCode::TraceLine => b"refused 501 ".as_slice(),
        TraceCode::TraceName => b"refused 502 ".as_slice(),
        TraceCode::TraceIllegal => b"refused 503 ".as_slice(),
        TraceCode::TraceSize => b"refused 504 ".as_slice(),
    }
}

fn code_tail(code: TraceCode) -> &'static [u8]
    ensures { result.now ≡ code_tail code }
{
    match code {
        TraceCode::TraceLine => b":1 TraceLine".as_slice(),
        TraceCode::TraceName => b":1 TraceName".as_slice(),
        TraceCode::TraceIllegal => b":1 TraceIllegal".as_slice(),
        TraceCode::TraceSize => b":1 TraceSize".as_slice(),
    }
}

/// The line of a trace that is refused at one of its lines.
fn wrong_line(alloc: Global, code: TraceCode, line: u32, file: &[u8]) -> Result<Vec<u8>, AllocError>
    ensures { IfOk result (λ text. text.items ≡ wrong_line code line file.now) }
{
    let number = line.to_string(alloc)?;
    let place = joined(alloc, file, b":".as_slice(), number.as_bytes())?;
    joined(alloc, code_head(code), &place, code_tail(code))
}

/// The number of a refusal of a description, and its name.
fn rdl_head(code: RdlCode) -> &'static [u8]
    ensures { result.now ≡ rdl_head code }
{
    match code {
        RdlCode::RdlByte => b"refused 101 ".as_slice(),
        RdlCode::RdlSyntax => b"refused 102 ".as_slice(),
        RdlCode::RdlDeep => b"refused 103 ".as_slice(),
        RdlCode::RdlName => b"refused 104 ".as_slice(),
        RdlCode::RdlProperty => b"refused 105 ".as_slice(),
        RdlCode::RdlValue => b"refused 106 ".as_slice(),
        RdlCode::RdlPlace => b"refused 107 ".as_slice(),
        RdlCode::RdlSize => b"refused 108 ".as_slice(),
        RdlCode::NoReset => b"refused 109 ".as_slice(),
    }
}

fn rdl_tail(code: RdlCode) -> &'static [u8]
    ensures { result.now ≡ rdl_tail code }
{
    match code {
        RdlCode::RdlByte => b" RdlByte".as_slice(),
        RdlCode::RdlSyntax => b" RdlSyntax".as_slice(),
        RdlCode::RdlDeep => b" RdlDeep".as_slice(),
        RdlCode::RdlName => b" RdlName".as_slice(),
        RdlCode::RdlProperty => b" RdlProperty".as_slice(),
        RdlCode::RdlValue => b" RdlValue".as_slice(),
        RdlCode::RdlPlace => b" RdlPlace".as_slice(),
        RdlCode::RdlSize => b" RdlSize".as_slice(),
        RdlCode::NoReset => b" NoReset".as_slice(),
    }
}

/// A place in a file, behind the file's name.
fn place_text(alloc: Global, place: &Place) -> Result<Vec<u8>, AllocError>
    ensures { IfOk result (λ text. text.items ≡ place_text place.now) }
{
    let line = place.line.to_string(alloc)?;
    let column = place.column.to_string(alloc)?;
    let behind = joined(alloc, b":".as_slice(), column.as_bytes(), b"".as_slice())?;
    joined(alloc, b":".as_slice(), line.as_bytes(), &behind)
}

/// The line of a description that is refused at a place.
fn description_line(
    alloc: Global,
    code: RdlCode,
    place: &Place,
    file: &[u8],
) -> Result<Vec<u8>, AllocError>
    ensures { IfOk result (λ text. text.items ≡ description_line code place.now file.now) }
{
    let place = place_text(alloc, place)?;
    let middle = joined(alloc, file, &place, b"".as_slice())?;
    joined(alloc, rdl_head(code), &middle, rdl_tail(code))
}

/// The line of want of memory.
pub(crate) const MEMORY_LINE: &[u8] = b"no memory\n";
