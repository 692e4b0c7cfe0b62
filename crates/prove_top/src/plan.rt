//! What a command comes to, before it is reported.

ghost use Rattle.std.specs.Prelude.{◌≡◌, ◌+◌, ◌<◌, ◌≤◌, ◌↔◌, ℕ, List, Option, None, length, take, IfOk, IfSome};
ghost use Rattle.prove_top.specs.Sampled.{cut_trace};
ghost use Rattle.tool_edge.specs.Causes.{Rose};
ghost use Rattle.prove_top.specs.Words.{command_of, trace_file};
ghost use Rattle.prove_top.specs.Gather.{contents, names_of};
ghost use Rattle.trace_replay.specs.LegalTrace.{IsLegalTrace};
ghost use Rattle.bit_base.specs.Numbers.{low_bits};
ghost use Rattle.trace_replay.specs.Joint.{start_of};
ghost use Rattle.trace_replay.specs.Trace.{edges_from, lists_of, trace_difference};
ghost use Rattle.prove_top.specs.Reads.{ReadsOnly};
ghost use Rattle.prove_top.specs.Allowed.{MayCome, MayTask};
ghost use Rattle.prove_top.specs.Answer.{block_wanted, wanted_of, short_report, trace_name, name_of, block_of, names_asked, sample_report, wrong_report, trace_report, Replays, ReplayAnswer, TextsAnswer, TaskAnswer, Answers, UnlessFault, IfFault, ComesAfter, IsUsage, IsAnswer, run_report};

use crate::describe::describe_report;
use crate::description::reset_of;
use crate::gather::{Halt, Kind, Shortfall, Wanted, fetch_all};
use crate::report::{Refusal, Report};
use crate::sampled::{Run, sampled_run};
use crate::verilog::drivers_of;
use crate::words::{BlockTask, Task, Work, command_of, task_of};
use bit_base::text::{Text, text_of};
use std::alloc::{AllocError, Global};
use std::convert::From;
use std::vec::Vec;
use tool_edge::depot::Depot;
use trace_replay::block::Block;
use trace_replay::fault::{TraceCode, TraceFault};
use trace_replay::joint::first_difference;
use trace_replay::laws::run_ends_there;
use trace_replay::read::read_trace;
use trace_replay::replay::replay;
use trace_replay::text::write_trace;
use trace_replay::trace::{Trace, trace_of_run};

/// How many bytes a description, a ports file and a Verilog file may have.
pub(crate) const DESCRIPTION_LIMIT: u32 = 1_048_576;

pub(crate) const PORTS_LIMIT: u32 = 65_536;

pub(crate) const VERILOG_LIMIT: u32 = 1_048_576;

/// How many bytes a trace may have.
pub(crate) const TRACE_FILE_LIMIT: u32 = 16_777_216;

/// The ports file of the first form.
pub(crate) const PORTS: &[u8] =
    b"clock clk\nreset rst_n low 1\npsel psel\npenable penable\npwrite pwrite\npaddr paddr\npwdata pwdata\nprdata prdata\npready pready\npslverr pslverr\nwait 0\nunmapped zero\n\nout c.v v\n";

/// The files of a task's block.
fn block_wanted(alloc: Global, task: &BlockTask) -> Result<Vec<Wanted>, AllocError>
    ensures { IfOk result (λ wanted. wanted.items ≡ block_wanted task.now) }
{
    let description = Wanted {
        name: task.rdl.copy(alloc)?,
        limit: DESCRIPTION_LIMIT,
        kind: Kind::Description,
    };
    let ports = Wanted {
        name: task.ports.copy(alloc)?,
        limit: PORTS_LIMIT,
        kind: Kind::Ports,
    };
    let verilog = Wanted {
        name: task.verilog.copy(alloc)?,
        limit: VERILOG_LIMIT,
        kind: Kind::Verilog,
    };
    let mut wanted = Vec::new(alloc);
    wanted.push(description)?;
    wanted.push(ports)?;
    wanted.push(verilog)?;
    Ok(wanted)
}

/// The files of a task, in the order of its words: a trace comes first.
fn wanted_of(alloc: Global, task: &BlockTask) -> Result<Vec<Wanted>, AllocError>
    ensures { IfOk result (λ wanted. wanted.items ≡ wanted_of task.now) }
{
    let mut wanted = block_wanted(alloc, task)?;
    match &task.work {
        Work::Sample(_) => Ok(wanted),
        Work::Replay(trace) => {
            let first = Wanted {
                name: trace.copy(alloc)?,
                limit: TRACE_FILE_LIMIT,
                kind: Kind::Trace,
            };
            wanted.insert(0, first)?;
            Ok(wanted)
        }
    }
}

/// The report of what the files lack.
pub(crate) fn short_report(short: Shortfall) -> Report
    ensures { result ≡ short_report short }
{
    match short {
        Shortfall::Missing(name) => Report::Refused(Refusal::NoFile, name),
        Shortfall::Long(Kind::Description, name) => Report::Refused(Refusal::RdlSize, name),
        Shortfall::Long(Kind::Ports, name) => Report::Refused(Refusal::PortSize, name),
        Shortfall::Long(Kind::Verilog, name) => Report::Refused(Refusal::VlogSize, name),
        Shortfall::Long(Kind::Trace, name) => Report::Refused(Refusal::TraceSize, name),
    }
}

/// The name of the trace, where there is one, else this one.
fn trace_name<'a>(work: &'a Work, other: &'a Text) -> &'a Text
    ensures { result.now ≡ trace_name work.now other.now }
{
    match work {
        Work::Sample(_) => other,
        Work::Replay(trace) => trace,
    }
}

/// The name of a task's file of this kind.
fn name_of(task: &BlockTask, kind: Kind) -> &Text
    ensures { result.now ≡ name_of task.now kind }
{
    match kind {
        Kind::Description => &task.rdl,
        Kind::Ports => &task.ports,
        Kind::Verilog => &task.verilog,
        Kind::Trace => trace_name(&task.work, &task.rdl),
    }
}

/// The block of three texts, or the first of them, in the order description, Verilog, ports, that
/// isn't of the first form.
fn block_of(
    alloc: Global,
    rdl: &[u8],
    ports: &[u8],
    verilog: &[u8],
) -> Result<Result<Block, Kind>, AllocError>
    ensures { IfOk result (λ block. block ≡ block_of rdl.now ports.now verilog.now) }
{
    let Some(reset) = reset_of(alloc, rdl)? else {
        return Ok(Err(Kind::Description));
    };
    let Some(drivers) = drivers_of(alloc, verilog)? else {
        return Ok(Err(Kind::Verilog));
    };
    if ports != PORTS {
        return Ok(Err(Kind::Ports));
    }
    let block = Block::new(alloc, reset, drivers.read_data, drivers.next)?;
    Ok(Ok(block))
}

/// The text of the trace of a run, up to this edge.
fn cut_trace(alloc: Global, block: &Block, run: &Run, edge: usize) -> Result<Text, AllocError>
    requires inside { edge < length run.now.wires.items }
    requires legal { IsLegalTrace block.now (low_bits 8 run.now.register) (edges_from block.now (start_of block.now run.now.register) (take (edge + 1) run.now.wires.items)) }
    ensures { IfOk result (λ text. text ≡ cut_trace block.now run.now.register (take (edge + 1) run.now.wires.items)) }
{
    let trace = trace_of_run(alloc, block, run.register, &run.wires[..edge + 1])?;
    let text = write_trace(alloc, block, &trace)?;
    Ok(Text::from(text))
}

/// A copy of a name, where there is one.
fn copy_of(alloc: Global, name: &Option<Text>) -> Result<Option<Text>, AllocError>
    ensures { IfOk result (λ copy. copy ≡ name.now) }
{
    match name {
        Some(name) => Ok(Some(name.copy(alloc)?)),
        None => Ok(None),
    }
}

/// The report of a block's sampled run; its trace is for this file.
#[tactic(auto, unfolding(crate::specs::Answer::run_report, crate::specs::Sampled::sampled_trace))]
fn run_report(
    alloc: Global,
    block: &Block,
    seed: u64,
    file: &Option<Text>,
) -> Result<Report, AllocError>
    ensures report { IfOk result (λ report. report ≡ run_report block.now seed file.now) }
    ensures kind { IfOk result (IsAnswer file.now) }
{
    run_ends_there();
    let run = sampled_run(alloc, block, seed)?;
    match first_difference(alloc, block, run.register, &run.wires)? {
        Some((edge, difference)) => {
            let trace = cut_trace(alloc, block, &run, edge)?;
            Ok(Report::Refuted(edge, difference, trace, copy_of(alloc, file)?))
        }
        None => Ok(Report::Simulated),
    }
}

/// The report of a sampled run on three texts.
fn sample_report(
    alloc: Global,
    task: &BlockTask,
    seed: u64,
    rdl: &[u8],
    ports: &[u8],
    verilog: &[u8],
) -> Result<Report, AllocError>
    ensures report { IfOk result (λ report. report ≡ sample_report task.now seed (block_of rdl.now ports.now verilog.now)) }
    ensures kind { IfOk result (IsAnswer task.now.trace_file) }
{
    match block_of(alloc, rdl, ports, verilog)? {
        Ok(block) => run_report(alloc, &block, seed, &task.trace_file),
        Err(kind) => Ok(Report::Refused(Refusal::NotYet, name_of(task, kind).copy(alloc)?)),
    }
}

/// The report of a trace that is refused.
fn wrong_report(
    alloc: Global,
    name: &Text,
    code: TraceCode,
    line: u32,
) -> Result<Report, AllocError>
    ensures report { IfOk result (λ report. report ≡ wrong_report name.now code line) }
    ensures kind { (file : Option (List ℕ)) → IfOk result (IsAnswer file) }
{
    let name = name.copy(alloc)?;
    match code {
        TraceCode::TraceSize => Ok(Report::Refused(Refusal::TraceSize, name)),
        _ => Ok(Report::WrongTrace(code, line, name)),
    }
}

/// The report of a legal trace of a block.
fn trace_report(alloc: Global, block: &Block, trace: &Trace) -> Result<Report, AllocError>
    requires { IsLegalTrace block.now trace.now.start.items (lists_of trace.now.edges.items) }
    ensures report { IfOk result (λ report. report ≡ trace_report (length trace.now.edges.items) (trace_difference block.now trace.now.start.items (lists_of trace.now.edges.items))) }
    ensures kind { (file : Option (List ℕ)) → IfOk result (IsAnswer file) }
{
    let found = replay(alloc, block, trace)?;
    match found {
        Some((edge, difference)) => Ok(Report::Differs(edge, difference)),
        None => Ok(Report::Agrees(trace.edges.len())),
    }
}

/// The report of a trace text on a block.
fn replay_report(
    alloc: Global,
    block: &Block,
    name: &Text,
    text: &[u8],
) -> Result<Report, AllocError>
    ensures report { IfOk result (λ report. Replays block.now name.now text.now report) }
    ensures kind { (file : Option (List ℕ)) → IfOk result (IsAnswer file) }
{
    match read_trace(alloc, text, block) {
        Ok(trace) => trace_report(alloc, block, &trace),
        Err(TraceFault::NoMemory) => Err(AllocError),
        Err(TraceFault::At { code, line }) => wrong_report(alloc, name, code, line),
    }
}

/// The report of a trace on four texts.
fn replay_answer(
    alloc: Global,
    task: &BlockTask,
    name: &Text,
    text: &[u8],
    rdl: &[u8],
    ports: &[u8],
    verilog: &[u8],
) -> Result<Report, AllocError>
    ensures report { IfOk result (λ report. ReplayAnswer task.now name.now text.now (block_of rdl.now ports.now verilog.now) report) }
    ensures kind { IfOk result (IsAnswer task.now.trace_file) }
{
    let block = block_of(alloc, rdl, ports, verilog)?;
    match block {
        Ok(block) => replay_report(alloc, &block, name, text),
        Err(kind) => Ok(Report::Refused(Refusal::NotYet, name_of(task, kind).copy(alloc)?)),
    }
}

/// The report of a task on its texts.
fn texts_report(alloc: Global, task: &BlockTask, files: &[Vec<u8>]) -> Result<Report, AllocError>
    requires { length files.now ≡ length (wanted_of task.now) }
    ensures report { IfOk result (λ report. TextsAnswer task.now (contents files.now) report) }
    ensures kind { IfOk result (IsAnswer task.now.trace_file) }
{
    match &task.work {
        Work::Sample(seed) => sample_report(alloc, task, *seed, &files[0], &files[1], &files[2]),
        Work::Replay(trace) => replay_answer(
            alloc, task, trace, &files[0], &files[1], &files[2], &files[3],
        ),
    }
}

/// The report of a task: its files are fetched, and answered.
fn work_report<D: Depot>(
    alloc: Global,
    task: &BlockTask,
    depot: &mut D,
) -> Result<Report, AllocError>
    ensures files { D.files depot.new ≡ D.files depot.old }
    ensures answer { IfSome (D.files depot.old) (λ files. IfOk result (λ report. UnlessFault report (TaskAnswer files (Task.Block task.now) report))) }
    ensures usage { IfOk result (λ report. IsUsage report → ⊥) }
    ensures command { IfOk result (λ report. MayTask (Some (Task.Block task.now)) report) }
    ensures calls { ReadsOnly (names_of (wanted_of task.now)) (D.calls depot.old) (D.calls depot.new) (λ added. IfOk result (λ report. ComesAfter (names_of (wanted_of task.now)) task.now.trace_file report added)) }
    ensures count { D.faults depot.old ≤ D.faults depot.new }
    ensures rose { IfOk result (λ report. IfFault report (Rose (D.faults depot.old) (D.faults depot.new))) }
{
    let wanted = wanted_of(alloc, task)?;
    match fetch_all(alloc, depot, &wanted) {
        Ok(files) => texts_report(alloc, task, &files),
        Err(Halt::Short(short)) => Ok(short_report(short)),
        Err(Halt::Failed(name)) => Ok(Report::Fault {
            store: false,
            file: name,
        }),
        Err(Halt::NoMemory) => Err(AllocError),
    }
}

/// The report of these words.
pub(crate) fn plan<D: Depot>(
    alloc: Global,
    words: &[Text],
    depot: &mut D,
) -> Result<Report, AllocError>
    ensures files { D.files depot.new ≡ D.files depot.old }
    ensures answer { IfSome (D.files depot.old) (λ files. IfOk result (λ report. UnlessFault report (Answers files words.now report))) }
    ensures usage { IfOk result (λ report. IsUsage report ↔ (command_of words.now ≡ None)) }
    ensures command { IfOk result (λ report. MayCome words.now report) }
    ensures calls { ReadsOnly (names_asked words.now) (D.calls depot.old) (D.calls depot.new) (λ added. IfOk result (λ report. ComesAfter (names_asked words.now) (trace_file words.now) report added)) }
    ensures count { D.faults depot.old ≤ D.faults depot.new }
    ensures rose { IfOk result (λ report. IfFault report (Rose (D.faults depot.old) (D.faults depot.new))) }
{
    let Some(command) = command_of(alloc, words)? else {
        return Ok(Report::Usage);
    };
    let task = task_of(command);
    match task {
        Some(Task::Block(task)) => work_report(alloc, &task, depot),
        Some(Task::Describe(rdl)) => describe_report(alloc, &rdl, depot),
        None => Ok(Report::Refused(Refusal::NotYet, text_of(alloc, b"words".as_slice())?)),
    }
}
