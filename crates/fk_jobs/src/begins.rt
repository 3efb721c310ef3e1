//! How jobs begin.
ghost use Rattle.std.specs.Prelude.{◌≡◌, ◌≤◌, true, IfOk, OnErr, map, length, option_map, is_some};
ghost use Rattle.std.specs.List.{slice_get};
ghost use Rattle.laws_house.specs.Houses.{valid_one, sourced, image_made, begins};
ghost use Rattle.laws_house.specs.Houses.State.{Restoring};
ghost use Rattle.laws_house.specs.Laws.{NamesUsersSlots, NameUsersSlots};
ghost use Rattle.laws_restore.specs.Restore.Restore.State.{Makes};
ghost use Rattle.fk_model.specs.declared.limits.TheConstants.{LAST_USER_SLOT};
ghost use Rattle.fk_model.specs.Sound.{are_user_pairs};
ghost use Rattle.laws_jobs.specs.Machines.{no_words};
ghost use Rattle.fk_jobs.specs.Ended.{shown_ends};
ghost use Rattle.fk_jobs.specs.Jobs.{job_of, source_of, task_of, call_with, asked_by, first_of, grows_by};

use crate::ended::Ended;
use crate::job_machine::JobMachine;
use crate::plan::{PlannedJob, Source, Task};
use fk_finish::ValidImage;
use fk_model::limits::OWN_SPACE;
use fk_model::{List, NoMemory, Stage};
use std::alloc::Global;

/// The image that the job with a place has made.
fn image_made(ends: &[Ended], job: usize) -> Option<&ValidImage>
    ensures { option_map (λ image. image.now) result ≡ image_made (slice_get (shown_ends ends.now) job) }
{
    ends.get(job)?.image()
}

/// It is valid.
fn seen(image: Option<&ValidImage>) -> Option<&ValidImage>
    ensures same { option_map (λ image. image.now) result ≡ option_map (λ image. image.now) image.entry }
    ensures valid { valid_one (option_map (λ image. image.now) image.entry) ≡ option_map (λ image. image.now) image.entry }
{
    if let Some(image) = image {
        let _seen = image.get();
    }
    image
}

/// The image that comes from a source.
fn sourced<'a>(ends: &'a [Ended], source: &'a Source) -> Option<&'a ValidImage>
    ensures { option_map (λ image. image.now) result ≡ valid_one (sourced (shown_ends ends.now) (source_of source.now)) }
{
    match source {
        Source::Given(image) => seen(image.as_ref()),
        Source::MadeBy(job) => seen(image_made(ends, *job)),
    }
}

/// Whether a job can begin that is planned so.
fn can_begin_so(plan: &PlannedJob, ends: &[Ended]) -> bool
    ensures { result ≡ is_some (begins (job_of plan.now) (shown_ends ends.now)) }
{
    match &plan.task {
        Task::Checkpoint { .. } => true,
        Task::Restore { source, .. } => sourced(ends, source).is_some(),
    }
}

/// What is planned of the job whose turn it is.
fn planned<'a>(plans: &'a [PlannedJob], ends: &[Ended]) -> Option<&'a PlannedJob>
    ensures { option_map (λ plan. job_of plan.now) result ≡ slice_get (map job_of plans.now) (length (shown_ends ends.now)) }
{
    plans.get(ends.len())
}

/// Whether the job can begin whose turn it is.
pub fn can_begin(plans: &[PlannedJob], ends: &[Ended]) -> bool
    ensures { result ≡ is_some (first_of (shown_ends ends.now) (slice_get (map job_of plans.now) (length (shown_ends ends.now)))) }
{
    match plans.get(ends.len()) {
        Some(plan) => can_begin_so(plan, ends),
        None => false,
    }
}

/// The first call of a job that is planned so. It goes with no words.
fn first_call_so(plan: &PlannedJob, ends: &[Ended]) -> Option<Stage>
    ensures { call_with result no_words ≡ asked_by (begins (job_of plan.now) (shown_ends ends.now)) }
{
    match &plan.task {
        Task::Checkpoint { slot } => Some(Stage::SpaceHold {
            s: OWN_SPACE,
            x: u64::from(*slot),
        }),
        Task::Restore { slot, source, .. } => {
            let _image = sourced(ends, source)?;
            Some(Stage::SpaceMakeHeld {
                x: u64::from(*slot),
            })
        }
    }
}

/// The first call of the job whose turn it is. It goes with no words.
pub fn first_call(plans: &[PlannedJob], ends: &[Ended]) -> Option<Stage>
    ensures { call_with result no_words
        ≡ asked_by (first_of (shown_ends ends.now) (slice_get (map job_of plans.now) (length (shown_ends ends.now)))) }
{
    first_call_so(plans.get(ends.len())?, ends)
}

/// A restore that is about to begin, of an image that is shared.
fn restore<W: JobMachine>(
    slot: u8,
    image: &ValidImage,
    pairs: &List<(u8, u8)>,
) -> Result<W, NoMemory>
    requires low { slot ≤ LAST_USER_SLOT }
    requires users { are_user_pairs pairs.now ≡ true }
    ensures { IfOk result (λ made. W.state made ≡ Restoring slot pairs.now image.now Makes) }
{
    let _valid = image.get();
    Ok(W::restore(slot, image.share()?, pairs.copy()?))
}

/// The machine of a job that is planned so, where it can begin.
fn make_so<W: JobMachine + Drop>(
    alloc: Global,
    plan: &PlannedJob,
    ends: &[Ended],
) -> Result<Option<W>, NoMemory>
    requires { NamesUsersSlots (task_of plan.now.task) }
    ensures made { IfOk result (λ made. option_map W.state made ≡ begins (job_of plan.now) (shown_ends ends.now)) }
    ensures grows { OnErr result (grows_by (begins (job_of plan.now) (shown_ends ends.now)) ≡ true) }
{
    match &plan.task {
        Task::Checkpoint { slot } => Ok(Some(W::checkpoint(alloc, *slot))),
        Task::Restore {
            slot,
            pairs,
            source,
        } => match sourced(ends, source) {
            Some(image) => Ok(Some(restore(*slot, image, pairs)?)),
            None => Ok(None),
        },
    }
}

/// The machine of the job whose turn it is, where it can begin.
///
/// # Errors
///
/// There is no memory for it.
pub fn make<W: JobMachine + Drop>(
    alloc: Global,
    plans: &[PlannedJob],
    ends: &[Ended],
) -> Result<Option<W>, NoMemory>
    requires { NameUsersSlots (map job_of plans.now) }
    ensures made { IfOk result (λ made. option_map W.state made
        ≡ first_of (shown_ends ends.now) (slice_get (map job_of plans.now) (length (shown_ends ends.now)))) }
    ensures grows { OnErr result (grows_by
        (first_of (shown_ends ends.now) (slice_get (map job_of plans.now) (length (shown_ends ends.now)))) ≡ true) }
{
    match planned(plans, ends) {
        Some(plan) => make_so(alloc, plan, ends),
        None => Ok(None),
    }
}
