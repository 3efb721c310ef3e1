//! What is planned of a scenario's jobs.
ghost use Rattle.std.specs.Prelude.{◌≡◌, IfOk, map, drop};
ghost use Rattle.fk_jobs.specs.Jobs.{job_of, source_of};
ghost use Rattle.laws_house.specs.Houses as houses;

use fk_finish::ValidImage;
use fk_jobs::{PlannedJob, Source, Task};
use fk_model::{JobSpec, NoMemory};
use fk_scenario::makes_image;
use std::alloc::Global;

/// The place of the first of some jobs that makes an image.
#[tactic(auto, unfolding(laws_house::specs::Houses::maker_from))]
pub fn maker_of(jobs: &[JobSpec], image: &str) -> Option<usize>
    ensures { result ≡ houses.maker_from 0 jobs.now image.now }
{
    let mut place: usize = 0;
    while let Some(job) = jobs.get(place) {
        if makes_image(image, job) {
            return Some(place);
        }
        place += 1;
    }
    None
}

/// Where a job's image comes from that stands behind these jobs: from the one that makes it, else it was given.
fn source_of(before: &[JobSpec], image: &str, given: Option<ValidImage>) -> Source
    ensures { source_of result ≡ houses.source_of (houses.maker_from 0 before.now image.now) given }
{
    match maker_of(before, image) {
        Some(job) => Source::MadeBy(job),
        None => Source::Given(given),
    }
}

/// What is planned of a job that stands behind others, for which an image was given or none.
fn plan_of(
    before: &[JobSpec],
    job: &JobSpec,
    given: Option<ValidImage>,
) -> Result<PlannedJob, NoMemory>
    ensures { IfOk result (λ plan. job_of plan ≡ houses.job_of before.now job.now given) }
{
    match job {
        JobSpec::Checkpoint {
            at,
            nester,
            slot,
            ..
        } => Ok(PlannedJob {
            nester: *nester,
            at: *at,
            task: Task::Checkpoint { slot: *slot },
        }),
        JobSpec::Restore {
            at,
            nester,
            slot,
            image,
            bind,
        } => {
            let source = source_of(before, image.as_str(), given);
            Ok(PlannedJob {
                nester: *nester,
                at: *at,
                task: Task::Restore {
                    slot: *slot,
                    pairs: bind.copy()?,
                    source,
                },
            })
        }
    }
}

/// The image that was given for the job at a place.
fn given_at(images: &[Option<ValidImage>], place: usize) -> Result<Option<ValidImage>, NoMemory>
    ensures { IfOk result (λ given. given ≡ houses.given_first (drop place images.now)) }
{
    match images.get(place) {
        Some(Some(image)) => Ok(Some(image.share()?)),
        Some(None) => Ok(None),
        None => Ok(None),
    }
}

/// What is planned of jobs, in their order. An image is given for each, or none: one that an earlier job makes needs none.
///
/// # Errors
///
/// There is no memory for the plans.
pub fn plans_of(
    alloc: Global,
    jobs: &[JobSpec],
    images: &[Option<ValidImage>],
) -> Result<Vec<PlannedJob>, NoMemory>
    ensures { IfOk result (λ plans. map job_of plans.items ≡ houses.jobs_of jobs.now images.now) }
{
    let mut plans = Vec::new(alloc);
    while let Some(job) = jobs.get(plans.len()) {
        let place = plans.len();
        let given = given_at(images, place)?;
        plans.push(plan_of(&jobs[..place], job, given)?)?;
    }
    Ok(plans)
}
