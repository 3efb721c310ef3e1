//! Whole runs: cores, turns of users, native servers and jobs, one after the other, and what a run is for the jobs that
//! work in it and for the subtrees that it moves. Each law is the contract of a function that does nothing.
//!
//! It stands on `laws_subtrees::further`, on `laws_jobs`, and on `laws_seen` for the moves that a subtree sees up to the first other one.
//! It names no store: a core of code says in its own clauses which of these cores it stands for.
#![tactic(auto)]

ghost use Rattle.laws_runs.specs.Composed.{RunIsComposed, OneRun};
ghost use Rattle.laws_runs.specs.Turning.{JobsMoves, JobsMovesInHistory};
ghost use Rattle.laws_runs.specs.Transparency.{CheckpointsHold, RestoresHold, RestoredGoOn};
ghost use Rattle.laws_runs.specs.Onwards.{RunGoesOn, RestoredGoesOn, MovesAreSeenOnce};
ghost use Rattle.laws_runs.specs.Events.{HistoryIsEvents};
ghost use Rattle.laws_runs.specs.Ended.{EndsAreSo};
ghost use Rattle.laws_runs.specs.Placed.{EndsAreThere};

/// Whatever the moves of a run, each job's moves are its machine's among others' moves.
pub fn a_run_is_composed<J, S, A, V>()
    ensures { RunIsComposed J S A V }
{}

/// A move of a job is its machine's call at that moment, in a run in which the job has worked alone
/// among others.
pub fn a_jobs_move_is_its_call<J, S, A, V>()
    ensures { JobsMoves J S A V }
{}

/// Each move of a history that a job has made leads from the world before it to the world after it by a call of its machine.
pub fn a_historys_moves_are_calls<J, S, A, V>()
    ensures { JobsMovesInHistory J S A V }
{}

/// A history has one run: the core that it comes to is determined, and so is the world after each of
/// its moves.
pub fn a_history_has_one_run<J, S, A, V>()
    ensures { OneRun J S A V }
{}

/// A history is one event a move, each ready in the world that those before it leave, and these worlds are the run's.
pub fn a_history_is_its_events<J, S, A, V>()
    ensures { HistoryIsEvents J S A V }
{}

/// Each job of a run has ended by moves of its own, the first and the last of which stand at their places in the history, or
/// without any: exactly where it has no image, or for want of its nester.
pub fn jobs_have_ended_so<J, S, A, V>()
    ensures { EndsAreSo J S A V }
{}

/// One that has ended was at work at its places: what its machine did among others' moves are the run's moves from its first to
/// its last, and its own are those for which it asked there.
pub fn ended_jobs_were_at_work<J, S, A, V>()
    ensures { EndsAreThere J S A V }
{}

/// Ready moves, one after the other, are seen as a list of moves exactly where none of them is seen as other; and then as one list alone.
pub fn moves_are_seen_once()
    ensures { MovesAreSeenOnce }
{}

/// From any place of a run's history on where a subtree is plain, and up to the first move that it
/// sees as other, it sees the run's moves as one list of moves. That is a further run of its cut, and
/// ends in the cut that it has there.
pub fn a_run_goes_on<J, S, A, V>()
    ensures { RunGoesOn J S A V }
{}

/// A subtree whose cut is another's with other outward ports has exactly the further runs of the
/// other, with these ports.
pub fn a_restored_subtree_goes_on()
    ensures { RestoredGoesOn }
{}

/// A checkpoint that is done gives the picture of a closed subtree as it was at its first move, and
/// that stays the same up to after its last one.
pub fn a_checkpoint_holds<J, S, A, V>()
    ensures { CheckpointsHold J S A V }
{}

/// A restore that is done leaves a plain subtree whose cut is the picture, its ports bound.
pub fn a_restore_holds<J, S, A, V>()
    ensures { RestoresHold J S A V }
{}

/// What was restored has exactly the further runs of what was saved.
pub fn what_is_restored_goes_on<J, S, A, V>()
    ensures { RestoredGoOn J S A V }
{}
