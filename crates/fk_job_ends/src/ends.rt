//! How the jobs of a run have ended.
ghost use Rattle.std.specs.Prelude.{◌≡◌, ◌++◌, ◌-◌, Some, None, IfOk, OnOk, map, length, replicate};
ghost use Rattle.fk_checkpoint.specs.Checkpoint.Checkpoints as checkpoints;
ghost use Rattle.fk_jobs.specs.Ended.{finish_of, shown_end, shown_ends};
ghost use Rattle.fk_restore.specs.Restore.Restores as restores;
ghost use Rattle.fk_job_ends.specs.Ends as definitions;

use fk_checkpoint::CheckpointEnd;
use fk_jobs::{Ended, Finish, Unmoved};
use fk_model::{JobSpec, List as Items, NoMemory, Text};
use fk_report::JobEnd;
use fk_restore::RestoreEnd;
use std::alloc::Global;

/// How a checkpoint has ended by its own moves, of which these are the first and the last.
#[tactic(auto, using(crate::proofs::Fills::told_place))]
fn told_check(end: CheckpointEnd, hold: u64, release: u64) -> JobEnd
    ensures { result ≡ definitions.told_check (checkpoints.end_of end) hold release }
{
    match end {
        CheckpointEnd::Done(image) => JobEnd::Checkpointed {
            hold,
            release,
            image,
        },
        CheckpointEnd::Foreign(place) => JobEnd::Foreign {
            place,
            hold,
            release,
        },
        CheckpointEnd::Gone => JobEnd::Dead,
    }
}

/// How a restore has ended by its own moves, of which these are the first and the last.
fn told_restore(end: RestoreEnd, make: u64, release: u64) -> JobEnd
    ensures { result ≡ definitions.told_restore (restores.end_of end) make release }
{
    match end {
        RestoreEnd::Done => JobEnd::Restored { make, release },
        RestoreEnd::Occupied => JobEnd::Occupied,
        RestoreEnd::NoPort(port) => JobEnd::NoPort {
            port,
            make,
            release,
        },
    }
}

/// How a job has ended by its own moves, of which these are the first and the last.
fn told_work(finish: Finish, begun: u64, last: u64) -> JobEnd
    ensures { result ≡ definitions.told_work (finish_of finish) begun last }
{
    match finish {
        Finish::Checkpoint(end) => told_check(end, begun, last),
        Finish::Restore(end) => told_restore(end, begun, last),
    }
}

/// How a job has ended.
fn told_of(end: Ended) -> JobEnd
    ensures { result ≡ definitions.told_of (shown_end end) }
{
    match end {
        Ended::Worked {
            finish,
            begun,
            last,
        } => told_work(finish, begun, last),
        Ended::Idle(Unmoved::NoImage) => JobEnd::NoImage,
        Ended::Idle(Unmoved::Dead) => JobEnd::Dead,
    }
}

/// How those have ended that have.
fn told_ended(alloc: Global, ends: Vec<Ended>) -> Result<Items<Option<JobEnd>>, NoMemory>
    ensures { IfOk result (λ told. told ≡ map (λ e. Some (definitions.told_of e)) (shown_ends ends.items)) }
{
    let mut told = Items::new(alloc);
    for end in ends {
        told.push(Some(told_of(end)))?;
    }
    Ok(told)
}

/// Adds that there are so many jobs.
#[tactic(auto, using(crate::proofs::Fills::fill_more))]
fn fill(told: &mut Items<Option<JobEnd>>, count: usize) -> Result<(), NoMemory>
    ensures { OnOk result (told.new ≡ told.old ++ replicate (count - length told.old) None) }
{
    while told.len() < count {
        told.push(None)?;
    }
    Ok(())
}

/// How so many jobs have ended, where they have.
///
/// # Errors
///
/// There is no memory for what is told.
pub fn told_in(
    alloc: Global,
    count: usize,
    ends: Vec<Ended>,
) -> Result<Items<Option<JobEnd>>, NoMemory>
    ensures { IfOk result (λ told. told ≡ definitions.told_in count (shown_ends ends.items)) }
{
    let mut told = told_ended(alloc, ends)?;
    fill(&mut told, count)?;
    Ok(told)
}

/// The name of a job's image.
fn image_of(job: &JobSpec) -> Result<Text, NoMemory>
    ensures { IfOk result (λ image. image ≡ definitions.image_of job.now) }
{
    match job {
        JobSpec::Checkpoint { image, .. } => image.copy(),
        JobSpec::Restore { image, .. } => image.copy(),
    }
}

/// The names of jobs' images, in the order of the jobs.
///
/// # Errors
///
/// There is no memory for the names.
pub fn images_of(alloc: Global, jobs: &[JobSpec]) -> Result<Items<Text>, NoMemory>
    ensures { IfOk result (λ images. images ≡ map definitions.image_of jobs.now) }
{
    let mut images = Items::new(alloc);
    for job in jobs {
        images.push(image_of(job)?)?;
    }
    Ok(images)
}
