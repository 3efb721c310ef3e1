//! Isolation of a subtree, in the field's terms: integrity and noninterference. Each law is the contract of a function that does
//! nothing.
//!
//! It stands on `laws_subtrees`, whose laws of the cut and of strangers it joins, on `laws_moves` for what a run keeps, and on
//! `fk_model`.
#![tactic(auto)]

ghost use Rattle.laws_isolation.specs.Integrity.{StrangersLeaveTheCut, StrangersRunsLeaveTheCut, StrangersLeaveASubtreeToItself};
ghost use Rattle.laws_isolation.specs.Noninterference.{IsOneWay, Noninterference};

/// Integrity: a ready move of a stranger isn't seen by a plain subtree, which stays plain, and its cut stays as it was. No mapping
/// outside may lead to a region inside.
pub fn integrity()
    ensures { StrangersLeaveTheCut }
{}

/// Integrity over a list of moves: after strangers' moves alone the subtree is plain, and its cut is what it was.
pub fn integrity_over_strangers_moves()
    ensures { StrangersRunsLeaveTheCut }
{}

/// Integrity over a list of moves, where the subtree moves too: if each move of others is a stranger's, the moves that the subtree
/// sees are its own, and these are a further run of its cut, which ends where the world's run does.
pub fn integrity_of_a_subtrees_own_run()
    ensures { StrangersLeaveASubtreeToItself }
{}

/// From one cut, one list of moves tells one thing and ends in one cut.
pub fn a_further_run_is_one()
    ensures { IsOneWay }
{}

/// Noninterference: if two plain subtrees, of two worlds or of one, have the same cut, and see the same moves, they tell the outside the same
/// and end in the same cut, whatever else goes on in their worlds.
pub fn noninterference()
    ensures { Noninterference }
{}
