//! Storing the trace of a report.

ghost use Rattle.std.specs.Prelude.{◌≡◌, ◌≤◌, ◌⊎◌, IfOk};
ghost use Rattle.tool_edge.specs.Causes.{Rose};
ghost use Rattle.prove_top.specs.Report.{file_of, run_trace};
ghost use Rattle.prove_top.specs.Store.{StoreStep};

use crate::report::Report;
use std::alloc::{AllocError, Global};
use tool_edge::depot::{Depot, DepotFault};

/// Stores the trace of a report that has a file for it, and gives the report that is due then.
pub(crate) fn store_trace<D: Depot>(
    alloc: Global,
    report: Report,
    depot: &mut D,
) -> Result<Report, AllocError>
    ensures step { StoreStep (file_of report) (run_trace report) report result (D.files depot.old) (D.files depot.new) (D.calls depot.old) (D.calls depot.new) }
    ensures count { D.faults depot.old ≤ D.faults depot.new }
    ensures rose { IfOk result (λ said. (said ≡ report) ⊎ Rose (D.faults depot.old) (D.faults depot.new)) }
{
    let Some(file) = report.file() else {
        return Ok(report);
    };
    let name = file.copy(alloc)?;
    match depot.store(alloc, &name, report.run_trace()) {
        Ok(()) => Ok(report),
        Err(DepotFault::Failed) => Ok(Report::Fault {
            store: true,
            file: name,
        }),
        Err(DepotFault::NoMemory) => Err(AllocError),
    }
}
