//! Which moves leave a reason.
ghost use Rattle.fk_turns.specs.Whys.Staying.{ReasonsStay};

/// A reason stays where a move takes no object from its place and changes neither the thread nor what else the reason reads.
#[tactic(auto, using(crate::proofs::InWhys::Apart::reasons_stay_lem))]
pub fn reasons_stay()
    ensures { ReasonsStay }
{}
