//! The house of checkpoints and restores: a scenario's jobs, their one machine, and what a run in which they work is. Each law is
//! the contract of a function that does nothing.
//!
//! It stands on `laws_runs`, `laws_checkpoint` and `laws_restore::rooms`.
#![tactic(auto)]

ghost use Rattle.laws_house.specs.Laws.{JobsMeetTheirContract, RunStaysUncut, CheckpointsAreBrief, RestoresAreBrief, CheckpointsLeaveTheRest};
ghost use Rattle.laws_house.specs.Laws.{CheckpointsEndAsItWas};
ghost use Rattle.laws_house.specs.Laws.{CheckpointsSave, RestoresMake, SavedGoesOn};
ghost use Rattle.laws_house.specs.Moves.{RestoresLeaveTheRest, JobsAreReady, JobsAskFitly, RestoresEndSo, LastCallIsKnown, GoneLeavesAll};
ghost use Rattle.laws_house.specs.Parts.{PartsWork, PartsMeetTheContract};
ghost use Rattle.laws_house.specs.Transparency.{JobsNameUsersSlots, RunsAreTransparent};
ghost use Rattle.laws_house.specs.Places.{CheckpointsMoveSo, RestoresMoveSo, JobsEndClean, CheckpointsRelease, RestoresWantAnImage, RestoresWantTheirMaker};
ghost use Rattle.laws_house.specs.Places.{GoneAtOnce, OccupiedAtOnce};

/// A machine that is a part of another one is at work where that one is in this part, with as many calls.
pub fn a_part_works<S, A, T, B>()
    ensures { PartsWork S A T B }
{}

/// A machine that meets a job's contract by itself meets it as a part.
pub fn a_part_meets_the_contract<S, A, T, B>()
    ensures { PartsMeetTheContract S A T B }
{}

/// Jobs that name users' slots, as the reader of scenarios asks, are such as a run wants them.
pub fn jobs_meet_their_contract<V>()
    ensures { JobsMeetTheirContract V }
{}

/// Each world of a run that begins in a world that is nobody's cut is nobody's cut.
pub fn a_run_stays_uncut<V>()
    ensures { RunStaysUncut V }
{}

/// Ended or not, a checkpoint of a run has made at most 100 (n + 1) (d + 1) of its moves, where its subtree had n bodies and pages,
/// none deeper than d.
pub fn checkpoints_are_brief<V>()
    ensures { CheckpointsAreBrief V }
{}

/// Ended or not, a restore of a run has made at most 40 (n + 1) (d + 1) of its moves, where its image has n bodies and pages, none deeper than d.
pub fn restores_are_brief<V>()
    ensures { RestoresAreBrief V }
{}

/// Each move of a checkpoint leaves every page, and every object but its nester's scratch and who holds the subtree's root.
pub fn checkpoints_leave_the_rest<V>()
    ensures { CheckpointsLeaveTheRest V }
{}

/// A checkpoint of a run ends as its subtree was at its first move: no space in the slot; not closed, and the first place that says
/// so; or closed.
pub fn checkpoints_end_as_it_was<V>()
    ensures { CheckpointsEndAsItWas V }
{}

/// One that is done began at a closed subtree; its image is valid, and its picture is that subtree's cut, which was the same from its
/// first move to behind its last.
pub fn checkpoints_save<V>()
    ensures { CheckpointsSave V }
{}

/// A restore that is done leaves a plain subtree, which is its image's picture with its ports bound.
pub fn restores_make<V>()
    ensures { RestoresMake V }
{}

/// What a checkpoint of a run has saved and a restore of it has made again has exactly the further runs that it had, with its ports
/// bound.
pub fn saved_subtrees_go_on<V>()
    ensures { SavedGoesOn V }
{}

/// Each move of a restore leaves all but the new space and its nester's scratch, also where it destroys the new space again.
pub fn restores_leave_the_rest<V>()
    ensures { RestoresLeaveTheRest V }
{}

/// At each moment of a run the next move of the job that is at work is ready wherever nothing outside its subtree is held.
pub fn jobs_are_ready<V>()
    ensures { JobsAreReady V }
{}

/// What a job asks for in the last core of a run is fit there, and picks nobody.
pub fn jobs_ask_fitly<V>()
    ensures { JobsAskFitly V }
{}

/// A restore of a run ends so: its subtree stands where nothing stood; its slot was taken, which it is told exactly there, and
/// nothing is changed; or a port was missing, which it is told exactly where it led to a slot without one, and nothing stands in
/// the slot.
pub fn restores_end_so<V>()
    ensures { RestoresEndSo V }
{}

/// A checkpoint's last call is its release, but for one that found no space.
pub fn a_checkpoints_last_call_is_known()
    ensures { LastCallIsKnown }
{}

/// That one leaves all as it was.
pub fn a_checkpoint_without_a_space_leaves_all()
    ensures { GoneLeavesAll }
{}

/// The first move of a checkpoint that has ended is its hold, and its last one its release, but for one that found no space.
pub fn checkpoints_move_so<V>()
    ensures { CheckpointsMoveSo V }
{}

/// One that found no space has made its hold alone.
pub fn checkpoints_without_a_space_end_at_once<V>()
    ensures { GoneAtOnce V }
{}

/// The first move of a restore that has ended makes its space, held, and its last one is its release, a stage of destroying that
/// space, or the first move itself.
pub fn restores_move_so<V>()
    ensures { RestoresMoveSo V }
{}

/// One whose slot was taken has made that first move alone.
pub fn restores_of_a_taken_slot_end_at_once<V>()
    ensures { OccupiedAtOnce V }
{}

/// Behind a job's last move no scratch stands.
pub fn jobs_end_clean<V>()
    ensures { JobsEndClean V }
{}

/// Behind a checkpoint's last move nobody holds the space that it looked at.
pub fn checkpoints_release<V>()
    ensures { CheckpointsRelease V }
{}

/// A restore has no image exactly where its source gives none that can be made again.
pub fn restores_want_an_image<V>()
    ensures { RestoresWantAnImage V }
{}

/// Where a checkpoint is to make the image of a restore, there is none exactly where that checkpoint isn't done.
pub fn restores_want_their_maker<V>()
    ensures { RestoresWantTheirMaker V }
{}

/// The jobs of a scenario name users' slots where its reader has seen that they do.
pub fn jobs_name_users_slots()
    ensures { JobsNameUsersSlots }
{}

/// All together, over any run from a first world that is grounded: its history is legal; each checkpoint and each restore ends as
/// it should, by its own moves, at their places, and leaves the rest; and what was saved and made again goes on exactly as it would
/// have.
pub fn runs_are_transparent<V>()
    ensures { RunsAreTransparent V }
{}
