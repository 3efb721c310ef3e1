//! Two calls of the top: what the run of one has left on the shelf, and the run of another has made again. Each law is the contract of a
//! function that does nothing. It supposes of a call what `Theorem` promises, and no more.
ghost use Rattle.fk_run.specs.TwoCalls.{CallsGoOn, ReportsAreOfRuns, SavedGoesOnInAnotherCall};

/// A call of `run` or `play` that did what its words call for, over files that the shelf tells: its report is of a run of the scenario that
/// it read, with the images that the files have, and that run is transparent.
pub fn reports_are_of_runs()
    ensures { ReportsAreOfRuns }
{}

/// A run has left a checkpoint's image on the shelf, and a restore of another run has found these bytes there: what that has made has
/// exactly the further runs of what the checkpoint saved, with its ports bound.
pub fn saved_subtrees_go_on_in_another_call()
    ensures { SavedGoesOnInAnotherCall }
{}

/// A call of `run` has come to its end, and so has a later call of `run` or `play`: for their runs that law holds, where the second call
/// has found on its shelf, under the name of its restore, the file that the first has left under the name of its checkpoint.
pub fn calls_go_on<R, W, H, S, K, F>()
    ensures { CallsGoOn R W H S K F }
{}
