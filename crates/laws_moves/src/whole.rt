//! What a world keeps while a machine runs, each law the contract of a function that does nothing.
//!
//! It stands on `fk_model`, whose definitions the laws are about, on `rows` for what moves list, and on `machine`.
//! The premise of the laws of subtrees is kept by each move that a machine may make, so that a run supplies it from its first
//! world alone.

ghost use Rattle.laws_moves.specs.Whole.Runnable.{ProperMoveGivesOneNumber, ProperMoveKeepsRunnable, RunKeepsRunnable, SavableIsRunnable, OnlySpacesAreNumbered};
ghost use Rattle.laws_moves.specs.Whole.Runnable.{FitMoveKeepsYounger};

/// A proper move gives out one birth number at most.
pub fn a_proper_move_gives_one_number()
    ensures { ProperMoveGivesOneNumber }
{}

/// A proper move keeps a world valid, its pages full and each thread's registers 16, where a
/// birth number is left.
pub fn a_proper_move_keeps_a_runnable_world()
    ensures { ProperMoveKeepsRunnable }
{}

/// A run of such moves does, where it begins so, with a birth number left for each of its moves.
pub fn a_run_keeps_a_runnable_world()
    ensures { RunKeepsRunnable }
{}

/// A whole world that can be saved is runnable.
pub fn what_can_be_saved_is_runnable()
    ensures { SavableIsRunnable }
{}

/// A move that makes no space leaves the next birth number.
pub fn only_spaces_are_numbered()
    ensures { OnlySpacesAreNumbered }
{}

/// After every fit move a space is younger than the one in which it lies, if it was so before.
pub fn a_fit_move_keeps_spaces_younger()
    ensures { FitMoveKeepsYounger }
{}
