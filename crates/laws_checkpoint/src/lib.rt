//! The checkpoint: a job that holds a subtree, tells where it isn't closed or gathers its image, and releases it, as a machine
//! over the answers to its calls; and its law over every interleaving with others' moves. Each law is the contract of a
//! function that does nothing.
//!
//! It stands on `laws_jobs`, and on what that stands on.
#![tactic(auto)]

ghost use Rattle.laws_checkpoint.specs.Gather.{PointersAreGathered};
ghost use Rattle.laws_checkpoint.specs.Laws.{CheckpointMeetsContract, CheckpointKeepsCut, CheckpointEndsAsItWas, CheckpointImagesSubtree, CheckpointSaves};
ghost use Rattle.laws_checkpoint.specs.Laws.{CheckpointIsReady, CheckpointLeavesRest};
ghost use Rattle.laws_checkpoint.specs.Bounded.{CheckpointIsBounded};
ghost use Rattle.laws_checkpoint.specs.Walk.{ObjectsAreMet};
ghost use Rattle.laws_checkpoint.specs.Contents.{SpacesAreRead};
ghost use Rattle.laws_checkpoint.specs.Foreign.{ForeignIsExact, ForeignIsBounded, SeekerIsReady, SeekingKeepsOpenPlace, PointerIsTold};

/// Whatever others do between its calls, a seeker that comes to its end has found the first place at
/// which the subtree isn't closed, as it was at the beginning.
pub fn a_seeker_finds_the_first_place()
    ensures { ForeignIsExact }
{}

/// A seeker makes three calls for each field, one for each step down, and one for each object.
pub fn a_seeker_is_bounded()
    ensures { ForeignIsBounded }
{}

/// A seeker's next call is ready wherever nothing outside the subtree is held.
pub fn a_seekers_next_call_is_ready()
    ensures { SeekerIsReady }
{}

/// While a seeker works the subtree is closed, or not, as it was.
pub fn seeking_keeps_the_open_place()
    ensures { SeekingKeepsOpenPlace }
{}

/// The way inside, and what the nester answers, tell the pointer as the cut shows it.
pub fn a_pointer_is_told()
    ensures { PointerIsTold }
{}

/// Whatever others do between its calls, a gatherer that comes to its end has where the fields of
/// objects inside lead, as the subtree saw it at the beginning.
pub fn the_pointers_are_gathered()
    ensures { PointersAreGathered }
{}

/// Whatever others do between its calls, a walker that comes to its end has met every object inside,
/// in preorder.
pub fn the_objects_are_met()
    ensures { ObjectsAreMet }
{}

/// Whatever others do between its calls, a reader that comes to its end has the records and the pages
/// of each space, as they were at the beginning.
pub fn the_spaces_are_read()
    ensures { SpacesAreRead }
{}

/// What a run wants of a checkpoint: its calls are owed, its porter stays while it has any to make, and
/// no scratch is left at its end.
pub fn a_checkpoint_meets_the_contract()
    ensures { CheckpointMeetsContract }
{}

/// While a checkpoint works, and behind its release, the subtree's cut is what it was.
pub fn a_checkpoint_keeps_the_cut()
    ensures { CheckpointKeepsCut }
{}

/// A checkpoint ends as the subtree was when it began: no space in the slot; not closed, and the first
/// place that says so; or closed.
pub fn a_checkpoint_ends_as_it_was()
    ensures { CheckpointEndsAsItWas }
{}

/// The image with which a checkpoint is done is valid, and its picture is the subtree as it was when
/// the checkpoint began.
pub fn a_checkpoint_images_its_subtree()
    ensures { CheckpointImagesSubtree }
{}

/// A checkpoint that is done saves its subtree, as a run wants of it.
pub fn a_checkpoint_saves()
    ensures { CheckpointSaves }
{}

/// The next call of a checkpoint is ready wherever nothing outside its subtree is held.
pub fn a_checkpoints_next_call_is_ready()
    ensures { CheckpointIsReady }
{}

/// Each call of a checkpoint leaves all but its scratch and who holds the subtree's root, and at its end
/// nobody holds that.
pub fn a_checkpoint_leaves_the_rest()
    ensures { CheckpointLeavesRest }
{}

/// Ended or not, a checkpoint has made at most 100 (n + 1) (d + 1) calls, where its subtree has n bodies and pages, none deeper
/// than d.
pub fn a_checkpoint_is_bounded()
    ensures { CheckpointIsBounded }
{}
