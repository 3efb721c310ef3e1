//! Runs that come to the same by replays. Each law is the contract of a function that does nothing.
ghost use Rattle.fk_runs.specs.Recordings.Again.{ReplaysPlayAgain, RecordPlaysAgain};

/// With replays of the replies that a play by a scenario's own servers has noted, its trace comes to the same status, report and text.
pub fn replays_play_again()
    ensures { ReplaysPlayAgain }
{}

/// A run that was recorded, with an observer of all notes or of the replies, comes to the same by its trace and its record.
pub fn a_record_plays_again()
    ensures { RecordPlaysAgain }
{}
