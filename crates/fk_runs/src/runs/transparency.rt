//! What the report of a run says of the subtrees that its jobs save and make again.
ghost use Rattle.fk_runs.specs.Runs.Transparency.{ReportsAreTransparent};

/// All that the laws of jobs say of runs is so of the history in a report, and of its jobs as it tells their ends.
pub fn reports_are_transparent()
    ensures { ReportsAreTransparent }
{}
