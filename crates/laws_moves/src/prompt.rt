//! Laws of state and holds, each the contract of a function that does nothing: what a thread is shown of an object is the
//! object's record, whatever the object does; a space is held whatever is done beneath it; and every move does little.
//!
//! It stands on `fk_model`, whose definitions the laws are about, on `rows` for what moves list, on `machine` and
//! on `whole`.

ghost use Rattle.laws_moves.specs.Prompt.Brief.{MovesAreBrief, UsersDestroyOne, PortersDestroyOne};
ghost use Rattle.laws_moves.specs.Prompt.Correct.{GetStateShows, GetStateAnswers, SetStateOfItself, PortersSetStateOfItself};
ghost use Rattle.laws_moves.specs.Prompt.Events.{PromptIsReady, StepsAreCorrect};
ghost use Rattle.laws_moves.specs.Prompt.Prompt.{GetStateIsPrompt, PortersGetStateIsPrompt, GetStateFaults, SpaceHoldIsPrompt, PortersSpaceHoldIsPrompt};

/// A `get_state` that is done leaves the object's record in its caller's page.
pub fn a_state_that_is_got_is_the_record()
    ensures { GetStateShows }
{}

/// A porter is answered the object's record.
pub fn a_porter_is_answered_the_record()
    ensures { GetStateAnswers }
{}

/// A `set_state` of the record that the object shows changes nothing but the end of its caller's
/// call; a porter's changes nothing at all.
pub fn a_record_that_is_set_again_changes_nothing()
    ensures user { SetStateOfItself }
    ensures porter { PortersSetStateOfItself }
{}

/// A free caller gets an object's state whatever the object does, and whoever holds it: only the
/// page of its own address can bar it.
pub fn a_state_is_got_at_once()
    ensures user { GetStateIsPrompt }
    ensures porter { PortersGetStateIsPrompt }
{}

/// Where the page of its address is missing and somebody keeps it, the caller's own fault is the
/// move.
pub fn a_missing_page_is_the_callers_fault()
    ensures { GetStateFaults }
{}

/// A free caller holds a space whatever the threads beneath it do, where no hold bars it.
pub fn a_space_is_held_at_once()
    ensures user { SpaceHoldIsPrompt }
    ensures porter { PortersSpaceHoldIsPrompt }
{}

/// A move writes at most one page, counts at most 64 words as moved, and makes, destroys or renames
/// at most one object.
pub fn a_move_does_little()
    ensures { MovesAreBrief }
{}

/// A stage of `destroy` that goes removes exactly one object, one that is refused none, and neither
/// brings one.
pub fn a_stage_of_destroy_removes_one_object()
    ensures user { UsersDestroyOne }
    ensures porter { PortersDestroyOne }
{}

/// A move of a free caller that gets a state or holds a space, which no hold bars, is ready.
pub fn a_prompt_move_is_ready()
    ensures { PromptIsReady }
{}

/// Every step from a runnable world, whose threads are well shaped, is correct and brief: it does what the laws of states, records
/// and destruction say.
pub fn a_step_is_correct()
    ensures { StepsAreCorrect }
{}
