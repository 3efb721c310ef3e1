//! A run that is recorded, and the run that is replayed from the record. The law is the contract of a function that does nothing.
//!
//! It stands on `laws_trace` for runs with replays, on `fk_record_text` for what is read of a record, and on `fk_trace` for the posts of a run that is
//! replayed. It promises that the replies that are read of the record of a run, as an observer of all notes or of the replies has it, make the same moves
//! a run, by the same worlds, with the same words printed (`specs/Pair.antt`).
#![tactic(auto)]

ghost use Rattle.laws_pair.specs.Pair.{RecordReplays};

/// With replays of the replies that are read of the record of a run in place of its servers but the consoles, the same moves are a run, by the same
/// worlds, with the same words printed.
pub fn a_record_replays<J, S, A, V>()
    ensures { RecordReplays J S A V }
{}
