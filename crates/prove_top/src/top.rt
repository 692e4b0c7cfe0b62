//! The top call.

ghost use Rattle.std.specs.Prelude.{◌≡◌, ◌≢◌, ◌^◌, ◌<◌, ◌≤◌, ◌↔◌, ◌⊎◌, ℕ, Bool, List, Some, None, IfOk, IfSome, IsSome};
ghost use Rattle.tool_edge.specs.Causes.{Rose};
ghost use Rattle.tool_edge.specs.Written.{after_put, AppendsPart};
ghost use Rattle.prove_top.specs.Allowed.{MayCome, PutsAllowed};
ghost use Rattle.prove_top.specs.Answer.{IfFault, IsUsage, TellsFailed, UnlessFault, names_asked, size_refusal};
ghost use Rattle.prove_top.specs.Clauses.{Added, DescriptionHasMap, PutsMap, FilesEnd, IsFaultOrMemory, OthersKept, PutsAgrees, PutsDiffers, PutsFault, PutsPart, PutsPartThenMemory, RefutedReplays, RefutedWritten, ReplayAgrees, ReplayDiffers, SampledAgrees, SampledDiffers, StoreAfterReads, WholeButTheLast};
ghost use Rattle.prove_top.specs.Ends.{Ends, EndsPut, PutsAnswer, Runs, UnlessFailed, UnlessStores};
ghost use Rattle.prove_top.specs.Reads.{AreCalls, Called, failed_of};
ghost use Rattle.prove_top.specs.Store.{Kept, Settles};
ghost use Rattle.prove_top.specs.Refusals.{IsNotYet, IsRefusal, IsTraceRefused, PutsIff, PutsRefusal, lacking, replayed};
ghost use Rattle.prove_top.specs.Report.{status_of, text_of, trace_of};
ghost use Rattle.prove_top.specs.Words.{command_of, description_asked, trace_file};
ghost use Rattle.prove_top.specs.declared.gather.Kind.{Kind};
ghost use Rattle.prove_top.specs.declared.gather.Shortfall.{Shortfall};
ghost use Rattle.trace_replay.specs.declared.fault.TraceCode.{TraceCode};

use crate::plan::plan;
use crate::report::{MEMORY_LINE, Refusal, Report, Status};
use crate::store::store_trace;
use bit_base::text::Text;
use map_report::law::reports_begin_with_addresses;
use rdl_report::law::one_answer;
use std::alloc::{AllocError, Global};
use tool_edge::depot::Depot;
use tool_edge::sink::{Sink, SinkFault};
use trace_replay::laws::{one_reading, run_ends_there};

/// What a command leaves to be kept beside its status.
#[derive(Clone, Copy)]
pub enum Evidence {
    Nothing,
}

/// How a command ended: its status, and its evidence.
#[derive(Clone, Copy)]
pub struct Ended {
    pub status: Status,
    pub evidence: Evidence,
}

/// Puts a report, its line first and then its trace, and gives the status under which the command
/// ends.
fn put_report<S: Sink>(alloc: Global, report: &Report, out: &mut S) -> Status
    ensures ends { Ends report.now (S.written out.old) (S.written out.new) (S.faults out.old) (S.faults out.new) result }
    ensures count { S.faults out.old ≤ S.faults out.new }
{
    let Ok(heading) = report.heading(alloc) else {
        return want_memory(alloc, out);
    };
    match out.put(alloc, &heading) {
        Ok(()) => put_trace(alloc, report, out),
        Err(SinkFault::Failed) => Status::Fault,
        Err(SinkFault::NoMemory) => want_memory(alloc, out),
    }
}

/// Puts the trace of a report, where it has one.
fn put_trace<S: Sink>(alloc: Global, report: &Report, out: &mut S) -> Status
    ensures ends { EndsPut (status_of report.now) (trace_of report.now) (S.written out.old) (S.written out.new) (S.faults out.old) (S.faults out.new) result }
    ensures count { S.faults out.old ≤ S.faults out.new }
{
    let trace = report.trace();
    if trace.is_empty() {
        return report.status();
    }
    match out.put(alloc, trace) {
        Ok(()) => report.status(),
        Err(SinkFault::Failed) => Status::Fault,
        Err(SinkFault::NoMemory) => want_memory(alloc, out),
    }
}

/// Puts the line of want of memory, whatever the put answers.
fn want_memory<S: Sink>(alloc: Global, out: &mut S) -> Status
    ensures status { result ≡ Status.NoMemory }
    ensures written { AppendsPart (S.written out.old) MEMORY_LINE.now (S.written out.new) }
    ensures count { S.faults out.old ≤ S.faults out.new }
{
    let _ = out.put(alloc, MEMORY_LINE);
    Status::NoMemory
}

/// What a command comes to: its report, after the store of its trace.
fn decide<D: Depot>(alloc: Global, words: &[Text], depot: &mut D) -> Result<Report, AllocError>
    ensures answer { IfSome (D.files depot.old) (λ files. IfOk result (λ report. UnlessFault report (Settles files words.now report (D.files depot.new)))) }
    ensures usage { IfOk result (λ report. IsUsage report ↔ (command_of words.now ≡ None)) }
    ensures command { IfOk result (λ report. MayCome words.now report) }
    ensures calls { Called (names_asked words.now) (trace_file words.now) (D.calls depot.old) (D.calls depot.new) (λ added. IfOk result (λ report. TellsFailed report (failed_of added)) × Kept (D.files depot.old) words.now added (D.files depot.new)) }
    ensures count { D.faults depot.old ≤ D.faults depot.new }
    ensures rose { IfOk result (λ report. IfFault report (Rose (D.faults depot.old) (D.faults depot.new))) }
{
    let report = plan(alloc, words, depot)?;
    store_trace(alloc, report, depot)
}

/// The top call, with what its end says of the report that was due.
fn run<D: Depot, S: Sink>(alloc: Global, words: &[Text], depot: &mut D, out: &mut S) -> Status
    ensures answer { IfSome (D.files depot.old) (λ files. UnlessFailed result (PutsAnswer files words.now (S.written out.old) (S.written out.new) (D.files depot.new) result)) }
    ensures allowed { UnlessFailed result (PutsAllowed words.now (S.written out.old) (S.written out.new) result) }
    ensures usage { UnlessFailed result ((result ≡ Status.Usage) ↔ (command_of words.now ≡ None)) }
    ensures fault { result ≡ Status.Fault → Rose (D.faults depot.old) (D.faults depot.new) ⊎ Rose (S.faults out.old) (S.faults out.new) }
    ensures calls { Called (names_asked words.now) (trace_file words.now) (D.calls depot.old) (D.calls depot.new) (Runs (D.files depot.old) (D.files depot.new) words.now (S.written out.old) (S.written out.new) (S.faults out.old) (S.faults out.new) result) }
    ensures depot_count { D.faults depot.old ≤ D.faults depot.new }
    ensures sink_count { S.faults out.old ≤ S.faults out.new }
{
    match decide(alloc, words, depot) {
        Ok(report) => put_report(alloc, &report, out),
        Err(_) => want_memory(alloc, out),
    }
}

/// Reads the words, fetches the files that they name from the depot, decides, stores the trace of a
/// difference where `--trace` names a file for it, and puts the report.
pub fn run_tool<D: Depot, S: Sink>(
    alloc: Global,
    words: &[Text],
    depot: &mut D,
    out: &mut S,
) -> Ended
    // The added calls are reads of the names of the words in their order, each once, none skipped, none
    // after one that isn't whole, and after whole reads of all of them at most one store, of the name of
    // `--trace`.
    ensures reads_in_order { Added (D.calls depot.old) (D.calls depot.new) (AreCalls (names_asked words.now) (trace_file words.now)) }
    ensures reads_stop { Added (D.calls depot.old) (D.calls depot.new) WholeButTheLast }
    ensures store_after_reads { Added (D.calls depot.old) (D.calls depot.new) (StoreAfterReads (names_asked words.now)) }

    // What is stored is the trace of the sampled run's difference, in the file of `--trace`, and no other
    // file changes; under status 0, 2, 3 and 4 none does.
    ensures store_is_due { Added (D.calls depot.old) (D.calls depot.new) (λ added. Kept (D.files depot.old) words.now added (D.files depot.new)) }
    ensures files_kept { UnlessStores result.status (D.files depot.new ≡ D.files depot.old) }
    ensures other_files_kept { OthersKept (trace_file words.now) (D.files depot.old) (D.files depot.new) }

    // Where the last added call failed.
    ensures last_failed_is_fault { Added (D.calls depot.old) (D.calls depot.new) (λ added. IsSome (failed_of added) → IsFaultOrMemory result.status) }
    ensures fault_report { Added (D.calls depot.old) (D.calls depot.new) (λ added. (store : Bool) (name : List ℕ) → failed_of added ≡ Some (store, name) → result.status ≡ Status.Fault → PutsFault store name (S.written out.old) (S.written out.new) (S.faults out.old) (S.faults out.new)) }
    ensures fault_without_failed_call { Added (D.calls depot.old) (D.calls depot.new) (λ added. failed_of added ≡ None → result.status ≡ Status.Fault → Rose (S.faults out.old) (S.faults out.new)) }

    // Status 5 has a cause, and under 5 and 6 a part of a report that the command may give is put.
    ensures fault_cause { result.status ≡ Status.Fault → Rose (D.faults depot.old) (D.faults depot.new) ⊎ Rose (S.faults out.old) (S.faults out.new) }
    ensures report_prefix { Added (D.calls depot.old) (D.calls depot.new) (λ added. result.status ≡ Status.Fault → PutsPart (D.files depot.old) words.now (failed_of added) (S.written out.old) (S.written out.new)) }
    ensures fault_file { IfSome (D.files depot.old) (λ files. Added (D.calls depot.old) (D.calls depot.new) (λ added. result.status ≡ Status.Fault → FilesEnd files words.now (failed_of added) (D.files depot.new))) }
    ensures no_memory_file { IfSome (D.files depot.old) (λ files. Added (D.calls depot.old) (D.calls depot.new) (λ added. result.status ≡ Status.NoMemory → FilesEnd files words.now (failed_of added) (D.files depot.new))) }
    ensures no_memory_bytes { Added (D.calls depot.old) (D.calls depot.new) (λ added. result.status ≡ Status.NoMemory → PutsPartThenMemory (D.files depot.old) words.now (failed_of added) (S.written out.old) (S.written out.new)) }

    // Under every other status, where the depot tells its files, the bytes put are exactly a report that
    // words and files give: its line, and under status 1 of `prove` the trace.
    ensures report_put { IfSome (D.files depot.old) (λ files. UnlessFailed result.status (PutsAnswer files words.now (S.written out.old) (S.written out.new) (D.files depot.new) result.status)) }

    // Whether or not the depot tells its files: the bytes put are exactly a report that the words' command
    // may give.
    ensures report_allowed { UnlessFailed result.status (PutsAllowed words.now (S.written out.old) (S.written out.new) result.status) }

    // When each of these statuses comes.
    ensures usage_iff { UnlessFailed result.status ((result.status ≡ Status.Usage) ↔ (command_of words.now ≡ None)) }
    ensures simulated_iff { IfSome (D.files depot.old) (λ files. UnlessFailed result.status ((result.status ≡ Status.Unknown) ↔ SampledAgrees files words.now)) }
    ensures agrees_iff { IfSome (D.files depot.old) (λ files. description_asked words.now ≡ None → UnlessFailed result.status ((result.status ≡ Status.Yes) ↔ ReplayAgrees files words.now)) }
    ensures map_iff { IfSome (D.files depot.old) (λ files. IsSome (description_asked words.now) → UnlessFailed result.status ((result.status ≡ Status.Yes) ↔ DescriptionHasMap files words.now)) }
    ensures refuted_sampled_iff { IfSome (D.files depot.old) (λ files. replayed words.now ≡ None → UnlessFailed result.status ((result.status ≡ Status.No) ↔ SampledDiffers files words.now)) }
    ensures differs_iff { IfSome (D.files depot.old) (λ files. IsSome (replayed words.now) → UnlessFailed result.status ((result.status ≡ Status.No) ↔ ReplayDiffers files words.now)) }

    // The line of `replay` has the edge and the difference, or the number of edges; those of `map` are the
    // register map of the description, field by field.
    ensures differs_report { IfSome (D.files depot.old) (λ files. result.status ≡ Status.No → IsSome (replayed words.now) → PutsDiffers files words.now (S.written out.old) (S.written out.new)) }
    ensures agrees_report { IfSome (D.files depot.old) (λ files. result.status ≡ Status.Yes → description_asked words.now ≡ None → PutsAgrees files words.now (S.written out.old) (S.written out.new)) }
    ensures map_report { IfSome (D.files depot.old) (λ files. result.status ≡ Status.Yes → IsSome (description_asked words.now) → PutsMap files words.now (S.written out.old) (S.written out.new)) }

    // The usage line alone is put for words outside the grammar, with no call.
    ensures usage_report { result.status ≡ Status.Usage → (S.written out.new ≡ after_put (S.written out.old) (text_of Report.Usage)) × (D.calls depot.new ≡ D.calls depot.old) }

    // Each refusal is put exactly where it is due: a file that isn't there or is too long, words or a file
    // that aren't answered yet, a trace or a description that is refused; and status 3 comes with one of
    // these.
    ensures no_file_iff { IfSome (D.files depot.old) (λ files. (file : List ℕ) → PutsIff (S.written out.old) (S.written out.new) result.status (Report.Refused Refusal.NoFile file) (lacking files words.now ≡ Some (Shortfall.Missing file))) }
    ensures long_file_iff { IfSome (D.files depot.old) (λ files. (kind : Kind) (file : List ℕ) → (kind ≡ Kind.Description → description_asked words.now ≡ None) → PutsIff (S.written out.old) (S.written out.new) result.status (Report.Refused (size_refusal kind) file) (lacking files words.now ≡ Some (Shortfall.Long kind file))) }
    ensures not_yet_iff { IfSome (D.files depot.old) (λ files. (file : List ℕ) → PutsIff (S.written out.old) (S.written out.new) result.status (Report.Refused Refusal.NotYet file) (IsNotYet files words.now file)) }
    ensures refused_iff { IfSome (D.files depot.old) (λ files. (code : TraceCode) (line : ℕ) (file : List ℕ) → code ≢ TraceCode.TraceSize → line < 2 ^ 64 → replayed words.now ≡ Some file → PutsIff (S.written out.old) (S.written out.new) result.status (Report.WrongTrace code line file) (IsTraceRefused files words.now code line)) }
    ensures refusal_put { IfSome (D.files depot.old) (λ files. (due : Report) → IsRefusal files words.now due → UnlessFailed result.status ((result.status ≡ Status.Refused) × (S.written out.new ≡ after_put (S.written out.old) (text_of due)))) }
    ensures refused_report { IfSome (D.files depot.old) (λ files. UnlessFailed result.status ((result.status ≡ Status.Refused) ↔ PutsRefusal files words.now (S.written out.old) (S.written out.new))) }

    // The trace of a refuted line follows it, or under `--trace` is stored and the line stands alone; and
    // it replays to the difference of that line.
    ensures refuted_written { IfSome (D.files depot.old) (λ files. result.status ≡ Status.No → SampledDiffers files words.now → RefutedWritten files words.now (D.files depot.new) (S.written out.old) (S.written out.new)) }
    ensures refuted_replays { IfSome (D.files depot.old) (λ files. result.status ≡ Status.No → SampledDiffers files words.now → RefutedReplays files words.now (D.files depot.new) (S.written out.old) (S.written out.new)) }

    // Nothing is kept beside the status, and neither count falls.
    ensures evidence_iff { result.evidence ≡ Evidence.Nothing }
    ensures counts_rise { (D.faults depot.old ≤ D.faults depot.new) × (S.faults out.old ≤ S.faults out.new) }
{
    run_ends_there();
    one_reading();
    one_answer();
    reports_begin_with_addresses();
    let status = run(alloc, words, depot, out);
    Ended {
        status,
        evidence: Evidence::Nothing,
    }
}
