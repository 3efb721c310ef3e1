//! What joins the laws of subtrees: over runs, from closed to plain, and what the outside is told. Each law is the contract
//! of a function that does nothing.
//!
//! It stands on `cut` and `laws_moves::whole`, and on what these stand on.

ghost use Rattle.laws_subtrees.specs.Further.ClosedLaws.{ClosedIsPlain};
ghost use Rattle.laws_subtrees.specs.Further.Strangers.{StrangersMoveUnseen, StrangersActUnseen};
ghost use Rattle.laws_subtrees.specs.Further.Told.{EndsAreTold, FaultsAreTold, RenamesTellNoEnds, WordsAreTold, OversAreTold, TouchesTellNothing};
ghost use Rattle.laws_subtrees.specs.Further.Runs.{ProperRunKeepsCut, CutIsCutWorld, FurtherStaysCutWorld};

/// Whatever a machine does, where it begins in a runnable world and no move is seen as other: the
/// subtree stays plain, and its cut does the moves as which these are seen, and ends where they end.
pub fn a_run_from_its_start_keeps_the_cut()
    ensures { ProperRunKeepsCut }
{}

/// The cut of a plain subtree is a world that shows nothing but what lies in it.
pub fn a_cut_shows_itself()
    ensures { CutIsCutWorld }
{}

/// What a further run of a subtree seen alone ends in is a world that shows nothing but what lies in it.
pub fn further_runs_show_themselves()
    ensures { FurtherStaysCutWorld }
{}

/// A closed subtree is plain, where it has no porter and no served port.
pub fn a_closed_subtree_is_plain()
    ensures { ClosedIsPlain }
{}

/// The outside is told of an end exactly for each talk at a port there that was and is no more, also
/// where its thread died.
pub fn ends_are_told()
    ensures { EndsAreTold }
{}

/// It is told of a fault exactly where a thread that had none has raised one there.
pub fn faults_are_told()
    ensures { FaultsAreTold }
{}

/// Where an object gets another slot no end and no fault is told.
pub fn a_rename_tells_no_end()
    ensures { RenamesTellNoEnds }
{}

/// It is told of words and of an Over exactly as the move says them.
pub fn words_and_overs_are_told()
    ensures words { WordsAreTold }
    ensures overs { OversAreTold }
{}

/// Of what it does itself it is told nothing.
pub fn touches_tell_nothing()
    ensures { TouchesTellNothing }
{}

/// A move of a stranger isn't seen, where no mapping outside leads to a region inside.
pub fn a_strangers_move_is_unseen()
    ensures { StrangersMoveUnseen }
{}

/// An act of a native server whose port is a stranger's isn't seen.
pub fn a_strangers_act_is_unseen()
    ensures { StrangersActUnseen }
{}
