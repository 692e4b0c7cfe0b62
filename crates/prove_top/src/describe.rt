//! What `map` comes to: the register map of a description, or what the description is refused for.

ghost use Rattle.std.specs.Prelude.{◌≡◌, ◌≤◌, None, length, IfOk, IfSome, Some};
ghost use Rattle.tool_edge.specs.Causes.{Rose};
ghost use Rattle.prove_top.specs.declared.words.Task.{Task};
ghost use Rattle.prove_top.specs.Gather.{contents, names_of};
ghost use Rattle.prove_top.specs.Reads.{ReadsOnly};
ghost use Rattle.prove_top.specs.Allowed.{MayTask};
ghost use Rattle.prove_top.specs.Answer.{description_wanted, DescriptionAnswer, TaskAnswer, UnlessFault, IfFault, ComesAfter, IsUsage, IsAnswer, text_at};

use crate::gather::{Halt, Kind, Wanted, fetch_all};
use crate::plan::{DESCRIPTION_LIMIT, short_report};
use crate::report::Report;
use bit_base::text::Text;
use rdl_report::describe::describe;
use rdl_tree::fault::RdlFault;
use std::alloc::{AllocError, Global};
use std::convert::From;
use std::vec::Vec;
use tool_edge::depot::Depot;

/// The file of a description.
fn description_wanted(alloc: Global, rdl: &Text) -> Result<Vec<Wanted>, AllocError>
    ensures { IfOk result (λ wanted. wanted.items ≡ description_wanted rdl.now) }
{
    let description = Wanted {
        name: rdl.copy(alloc)?,
        limit: DESCRIPTION_LIMIT,
        kind: Kind::Description,
    };
    let mut wanted = Vec::new(alloc);
    wanted.push(description)?;
    Ok(wanted)
}

/// The report of the text of a description.
fn text_report(alloc: Global, name: &Text, text: &[u8]) -> Result<Report, AllocError>
    ensures report { IfOk result (λ report. DescriptionAnswer name.now text.now report) }
    ensures kind { IfOk result (IsAnswer None) }
{
    match describe(alloc, text) {
        Ok(lines) => Ok(Report::Described(Text::from(lines))),
        Err(RdlFault::NoMemory) => Err(AllocError),
        Err(RdlFault::At { code, place }) => Ok(Report::WrongDescription(
            code,
            place,
            name.copy(alloc)?,
        )),
    }
}

/// The report of the description among the files.
fn first_report(alloc: Global, name: &Text, files: &[Vec<u8>]) -> Result<Report, AllocError>
    requires { length files.now ≡ length (description_wanted name.now) }
    ensures report { IfOk result (λ report. DescriptionAnswer name.now (text_at (contents files.now) 0) report) }
    ensures kind { IfOk result (IsAnswer None) }
{
    text_report(alloc, name, &files[0])
}

/// The report of the description of this name: it is fetched, and read.
pub(crate) fn describe_report<D: Depot>(
    alloc: Global,
    rdl: &Text,
    depot: &mut D,
) -> Result<Report, AllocError>
    ensures files { D.files depot.new ≡ D.files depot.old }
    ensures answer { IfSome (D.files depot.old) (λ files. IfOk result (λ report. UnlessFault report (TaskAnswer files (Task.Describe rdl.now) report))) }
    ensures usage { IfOk result (λ report. IsUsage report → ⊥) }
    ensures command { IfOk result (λ report. MayTask (Some (Task.Describe rdl.now)) report) }
    ensures calls { ReadsOnly (names_of (description_wanted rdl.now)) (D.calls depot.old) (D.calls depot.new) (λ added. IfOk result (λ report. ComesAfter (names_of (description_wanted rdl.now)) None report added)) }
    ensures count { D.faults depot.old ≤ D.faults depot.new }
    ensures rose { IfOk result (λ report. IfFault report (Rose (D.faults depot.old) (D.faults depot.new))) }
{
    let wanted = description_wanted(alloc, rdl)?;
    match fetch_all(alloc, depot, &wanted) {
        Ok(files) => first_report(alloc, rdl, &files),
        Err(Halt::Short(short)) => Ok(short_report(short)),
        Err(Halt::Failed(name)) => Ok(Report::Fault {
            store: false,
            file: name,
        }),
        Err(Halt::NoMemory) => Err(AllocError),
    }
}
