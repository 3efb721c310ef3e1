//! The jobs of a document, among its spaces and servers.
ghost use Rattle.std.specs.Prelude.{◌≡◌, ◌++◌, ◌∷◌, [], IfOk};
ghost use Rattle.fk_scenario.specs.Fields.Gives.{Gives, Answers};
ghost use Rattle.fk_scenario.specs.Scenario.Jobs as definitions;

use crate::entries::{JobEntry, JobKind, ServerEntry, SpaceEntry};
use crate::fields::{Fail, ScenarioFail, enclosing, index_at, rule, unless};
use fk_model::{JobSpec, List, NoMemory};
use std::alloc::Global;

const SECTION: u8 = 6;

/// The number of the first space: the root is 0, and the first besides it 1.
fn first_number(spaces: &[SpaceEntry]) -> u32
    ensures { result ≡ definitions.first_number spaces.now }
{
    match spaces {
        [first, ..] if first.path.len() == 0 => 0,
        _ => 1,
    }
}

/// The number of the nester with a path, if there is one.
#[tactic(auto, unfolding(crate::specs::Scenario::Jobs::nester_from))]
fn nester_at(spaces: &[SpaceEntry], path: &[u8]) -> Result<Option<u32>, NoMemory>
    ensures { IfOk result (λ birth. birth ≡ definitions.nester_from (definitions.first_number spaces.now) spaces.now path.now) }
{
    let mut birth = first_number(spaces);
    for space in spaces {
        if space.path.as_slice() == path && space.nester {
            return Ok(Some(birth));
        }
        birth = match birth.checked_add(1) {
            Some(birth) => birth,
            None => return Err(NoMemory),
        };
    }
    Ok(None)
}

fn is_beneath(space: &[u8], path: &[u8]) -> bool
    ensures { result ≡ definitions.is_beneath space.now path.now }
{
    path.starts_with(space)
}

fn has_nester(spaces: &[SpaceEntry], subtree: &[u8]) -> bool
    ensures { result ≡ definitions.has_nester spaces.now subtree.now }
{
    spaces.iter().any(|space| space.nester && is_beneath(subtree, space.path.as_slice()))
}

fn has_server(servers: &[ServerEntry], subtree: &[u8]) -> bool
    ensures { result ≡ definitions.has_server servers.now subtree.now }
{
    servers.iter().any(|server| is_beneath(subtree, enclosing(server.port.as_slice())))
}

/// Whether a job makes the image with this name.
pub fn makes_image(image: &str, job: &JobSpec) -> bool
    ensures { result ≡ definitions.makes_image image.now job.now }
{
    match job {
        JobSpec::Checkpoint { image: made, .. } => made.as_str() == image,
        JobSpec::Restore { .. } => false,
    }
}

fn is_made(done: &[JobSpec], image: &str) -> bool
    ensures { result ≡ definitions.is_made done.now image.now }
{
    done.iter().any(|job| makes_image(image, job))
}

/// The path of a job's subtree.
fn subtree_of(alloc: Global, job: &JobEntry) -> Result<Vec<u8>, NoMemory>
    ensures { IfOk result (λ path. path.items ≡ definitions.subtree_of job.now) }
{
    let mut path = Vec::from_slice(alloc, job.nester.as_slice())?;
    path.push(job.slot)?;
    Ok(path)
}

fn may_be_done(
    alloc: Global,
    spaces: &[SpaceEntry],
    servers: &[ServerEntry],
    done: &[JobSpec],
    job: &JobEntry,
) -> Result<bool, NoMemory>
    ensures { IfOk result (λ may. may ≡ definitions.may_be_done spaces.now servers.now done.now job.now job.now.kind) }
{
    match &job.kind {
        JobKind::Checkpoint => {
            let subtree = subtree_of(alloc, job)?;
            Ok(
                !has_nester(spaces, &subtree)
                    && !has_server(servers, &subtree)
                    && !is_made(done, job.image.as_str()),
            )
        }
        JobKind::Restore { .. } => Ok(true),
    }
}

/// What a job is, whose nester has this number.
fn job_spec(birth: u32, job: &JobEntry) -> Result<JobSpec, NoMemory>
    ensures { IfOk result (λ spec. spec ≡ definitions.job_spec birth job.now job.now.kind) }
{
    let image = job.image.copy()?;
    match &job.kind {
        JobKind::Checkpoint => Ok(JobSpec::Checkpoint {
            at: job.moment,
            nester: birth,
            path: job.nester.copy()?,
            slot: job.slot,
            image,
        }),
        JobKind::Restore { bind } => Ok(JobSpec::Restore {
            at: job.moment,
            nester: birth,
            slot: job.slot,
            image,
            bind: bind.copy()?,
        }),
    }
}

#[tactic(auto, unfolding(crate::specs::Scenario::Jobs::job_after))]
fn job_after(
    alloc: Global,
    spaces: &[SpaceEntry],
    servers: &[ServerEntry],
    done: &[JobSpec],
    job: &JobEntry,
) -> Result<JobSpec, Fail>
    ensures { Gives (λ x. x) result (definitions.job_after spaces.now servers.now done.now job.now) }
{
    let Some(birth) = nester_at(spaces, job.nester.as_slice())? else {
        return Err(Fail::Rule(rule::JOBS));
    };
    let may = may_be_done(alloc, spaces, servers, done, job)?;
    unless(rule::JOBS, may)?;
    Ok(job_spec(birth, job)?)
}

/// The jobs, each after those before it.
///
/// # Errors
///
/// `Scenario`: the refusal of the first job that may not work. `NoMemory`: there is none for the jobs.
#[tactic(auto, unfolding(crate::specs::Scenario::Jobs::jobs_from))]
pub fn jobs_of(
    alloc: Global,
    spaces: &[SpaceEntry],
    servers: &[ServerEntry],
    entries: &[JobEntry],
) -> Result<List<JobSpec>, ScenarioFail>
    ensures { Answers result (definitions.jobs_from spaces.now servers.now [] entries.now) }
{
    let mut jobs = List::new(alloc);
    for entry in entries {
        let index = index_at(jobs.len())?;
        match job_after(alloc, spaces, servers, jobs.as_slice(), entry) {
            Ok(job) => jobs.push(job)?,
            Err(fail) => return Err(fail.at(SECTION, index)),
        }
    }
    Ok(jobs)
}
