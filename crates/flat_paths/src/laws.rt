//! The law of paths, as a function that does nothing: its contract is the law.

ghost use Rattle.flat_paths.specs.Paths.{PathLeaves, LeavesByPath};

/// Some path leaves a bit unassigned exactly where the flow of the statement says so: a path is evidence of it, and there is one.
pub fn paths_are_real()
    ensures path_leaves { PathLeaves }
    ensures leaves_by_path { LeavesByPath }
{}
