//! Runs that play again.
ghost use Rattle.fk_runs.specs.Runs.Runs.{RunPlaysAgain};

/// The trace of a run that went by itself plays to the same status, report and text.
pub fn a_run_plays_again()
    ensures { RunPlaysAgain }
{}
