//! The laws of the machine, each the contract of a function that does nothing.
//!
//! It stands on `fk_model`, whose definitions the laws are about, and on `rows` for what moves list: calls and records
//! are read back as they were written, a move changes only what its row lists, and a fit move keeps a world valid.

ghost use Rattle.laws_moves.specs.Machine.Frame.{MoveKeepsBodies, MoveKeepsPages};
ghost use Rattle.laws_moves.specs.Machine.Laws.{WordsReadBack, TodoWritesBack, WordsKeepLength, RecordIsFull, RecordIsTaken, RecordSetsNothing, RecordChangesNothing};
ghost use Rattle.laws_moves.specs.Machine.Laws.{StepKeepsValid};

/// The registers of a calling thread show the stages that were written into them, and the rest.
pub fn words_read_back()
    ensures { WordsReadBack }
{}

/// Registers that show a call's stages are what these stages and the rest write.
pub fn todo_writes_back()
    ensures { TodoWritesBack }
{}

/// Stages are written into as many registers as there are.
#[tactic(auto, using(fk_model::proofs::calls::CallLaws::words_keep_length_lem))]
pub fn words_keep_length()
    ensures { WordsKeepLength }
{}

/// The record of an object fills a record.
#[tactic(auto, using(crate::proofs::InMachine::Records::record_is_full_lem))]
pub fn record_is_full()
    ensures { RecordIsFull }
{}

/// An object takes the record that it shows.
#[tactic(auto, using(crate::proofs::InMachine::Records::record_is_taken_lem))]
pub fn record_is_taken()
    ensures { RecordIsTaken }
{}

/// An object that is set to the record that it shows stays as it is.
#[tactic(auto, using(crate::proofs::InMachine::Records::record_sets_nothing_lem))]
pub fn record_sets_nothing()
    ensures { RecordSetsNothing }
{}

/// A world in which an object is set to the record that it shows stays as it is.
#[tactic(auto, using(crate::proofs::InMachine::Records::record_changes_nothing_lem))]
pub fn record_changes_nothing()
    ensures { RecordChangesNothing }
{}

/// A move changes only the bodies and the pages that its row lists.
#[tactic(auto, using(crate::proofs::InMachine::Frame::move_keeps_bodies, crate::proofs::InMachine::Frame::move_keeps_pages))]
pub fn a_move_changes_only_what_it_lists()
    ensures bodies { MoveKeepsBodies }
    ensures pages { MoveKeepsPages }
{}

/// A fit move keeps a world valid.
pub fn a_fit_move_keeps_a_valid_world()
    ensures { StepKeepsValid }
{}
