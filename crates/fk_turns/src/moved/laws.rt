//! What is told of a move is enough for the lists of who waits. Each law is the contract of a function that does nothing.
ghost use Rattle.fk_turns.specs.Moved.Told.{ToldMovesLeave, ToldNames, ToldQuiet};

/// A fit move of which all is told that it changes, makes and takes from its place leaves of a store's user threads what the lists want.
pub fn told_moves_leave()
    ensures { ToldMovesLeave }
{}

/// An instruction after which the thread runs on leaves the reasons of all others, but of whom any change may free.
#[tactic(auto, using(crate::proofs::InMoved::Quiet::told_quiet))]
pub fn told_quiet()
    ensures { ToldQuiet }
{}

/// The name of who moved, as it is told, is that which the move leaves it.
#[tactic(auto, using(crate::proofs::InMoved::Told::told_names))]
pub fn told_names()
    ensures { ToldNames }
{}
