//! What can be saved stays so: the premise of checkpointers is kept by every proper move, each law the contract of a
//! function that does nothing. Users and native servers owe nothing for it; a porter's call owes little, so that a job's
//! proof can give it.
//!
//! It stands on `fk_model`, whose definitions the laws are about, on `machine`, `frozen` and `whole`.

ghost use Rattle.laws_moves.specs.Savable.Savable.{ProperMoveKeepsSavable, RunKeepsSavable, UsersMoveKeepsSavable};

/// A proper move keeps a whole world savable, where a porter's call gives what it owes: users'
/// objects in users' slots, references in scratch of its own space or of one that it holds there, and
/// none left where the hold is given up; and a holder outside of what it is to hold.
pub fn a_proper_move_keeps_a_savable_world()
    ensures { ProperMoveKeepsSavable }
{}

/// Every move of a user or a native server keeps one savable, where what the server gives is words.
pub fn a_users_move_keeps_a_savable_world()
    ensures { UsersMoveKeepsSavable }
{}

/// A run of such moves ends in a world that is whole and savable, where it begins in one with a birth
/// number left for each of its moves.
pub fn a_run_keeps_a_savable_world()
    ensures { RunKeepsSavable }
{}
