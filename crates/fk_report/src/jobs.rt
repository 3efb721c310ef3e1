//! The lines of jobs.
ghost use Rattle.std.specs.Prelude.{◌≡◌, ◌++◌, OnOk, IfOk, option_map, string_bytes};
ghost use Rattle.std.specs.List.{slice_get};
ghost use Rattle.fk_report.specs.Jobs as definitions;

use crate::job_end::JobEnd;
use crate::paths::push_down;
use fk_decimal::push_number;
use fk_finish::Place;
use fk_model::{JobSpec, NoMemory};
use std::alloc::AllocError;

/// Appends the places of a job's first move and its last.
fn push_moves(text: &mut String, first: &str, begun: u64, last: u64) -> Result<(), AllocError>
    ensures { OnOk result (string_bytes text.new ≡ string_bytes text.old ++ definitions.moves_text first.now begun last) }
{
    text.push_str(first)?;
    push_number(text, begun)?;
    text.push_str(" release ")?;
    push_number(text, last)
}

/// Appends where a subtree of a nester with this path isn't closed.
fn push_place(text: &mut String, nester: &[u8], place: &Place) -> Result<(), AllocError>
    ensures { OnOk result (string_bytes text.new ≡ string_bytes text.old ++ definitions.place_text nester.now place.now) }
{
    text.push_str(" foreign ")?;
    push_down(text, nester)?;
    push_down(text, place.path.as_slice())?;
    text.push_str(" ")?;
    push_number(text, u64::from(place.field))
}

/// The path of a job's nester, from the root down, where its line may show it.
fn nester_of(job: &JobSpec) -> &[u8]
    ensures { result.now ≡ definitions.nester_of job.now }
{
    match job {
        JobSpec::Checkpoint { path, .. } => path.as_slice(),
        JobSpec::Restore { .. } => &[],
    }
}

/// The word for what a job does.
fn kind_word(job: &JobSpec) -> &'static str
    ensures { result.now ≡ definitions.kind_word job.now }
{
    match job {
        JobSpec::Checkpoint { .. } => "checkpoint",
        JobSpec::Restore { .. } => "restore",
    }
}

/// Appends how a job has ended, whose nester has this path.
fn push_end(text: &mut String, nester: &[u8], end: &JobEnd) -> Result<(), AllocError>
    ensures { OnOk result (string_bytes text.new ≡ string_bytes text.old ++ definitions.end_text nester.now end.now) }
{
    match end {
        JobEnd::Checkpointed { hold, release, .. } => {
            push_moves(text, " done hold ", *hold, *release)
        }
        JobEnd::Foreign {
            place,
            hold,
            release,
        } => {
            push_place(text, nester, place)?;
            push_moves(text, " hold ", *hold, *release)
        }
        JobEnd::Dead => text.push_str(" dead"),
        JobEnd::Restored { make, release } => push_moves(text, " done make ", *make, *release),
        JobEnd::NoImage => text.push_str(" noimage"),
        JobEnd::Occupied => text.push_str(" occupied"),
        JobEnd::NoPort {
            port,
            make,
            release,
        } => {
            text.push_str(" noport ")?;
            push_number(text, u64::from(*port))?;
            push_moves(text, " make ", *make, *release)
        }
    }
}

/// Appends what has become of a job.
fn push_fate(text: &mut String, job: &JobSpec, end: Option<&JobEnd>) -> Result<(), AllocError>
    ensures { OnOk result (string_bytes text.new ≡ string_bytes text.old ++ definitions.fate_text job.now (option_map (λ e. e.now) end.entry)) }
{
    match end {
        None => text.push_str(" waiting\n"),
        Some(end) => {
            text.push_str(" ")?;
            text.push_str(kind_word(job))?;
            push_end(text, nester_of(job), end)?;
            text.push_str("\n")
        }
    }
}

/// How the job at a place has ended, if it has.
pub fn end_at(ends: &[Option<JobEnd>], place: usize) -> Option<&JobEnd>
    ensures { option_map (λ e. e.now) result ≡ definitions.end_in (slice_get ends.now place) }
{
    match ends.get(place) {
        Some(Some(end)) => Some(end),
        Some(None) => None,
        None => None,
    }
}

/// Appends the line of the job at a place.
fn push_job(
    text: &mut String,
    place: usize,
    job: &JobSpec,
    ends: &[Option<JobEnd>],
) -> Result<(), AllocError>
    ensures { OnOk result (string_bytes text.new ≡ string_bytes text.old ++ definitions.job_line ends.now place job.now) }
{
    text.push_str("job ")?;
    push_number(text, place as u64)?;
    push_fate(text, job, end_at(ends, place))
}

/// Appends the lines of jobs, of which so many have ended so.
///
/// # Errors
///
/// There is no memory for the lines.
#[tactic(auto, unfolding(crate::specs::Jobs::lines_from))]
pub fn push_jobs(
    text: &mut String,
    jobs: &[JobSpec],
    ends: &[Option<JobEnd>],
) -> Result<(), AllocError>
    ensures { OnOk result (string_bytes text.new ≡ string_bytes text.old ++ definitions.lines_from ends.now 0 jobs.now) }
{
    let mut place = 0usize;
    for job in jobs {
        push_job(text, place, job, ends)?;
        place = match place.checked_add(1) {
            Some(place) => place,
            None => return Err(AllocError),
        };
    }
    Ok(())
}

/// Whether a job was refused.
fn is_refused(end: &Option<JobEnd>) -> bool
    ensures { result ≡ definitions.is_refused end.now }
{
    match end {
        None | Some(JobEnd::Checkpointed { .. }) | Some(JobEnd::Restored { .. }) => false,
        Some(_) => true,
    }
}

/// The place of the first job that was refused.
///
/// # Errors
///
/// Its place is above what a number of 32 bits can count, which counts as want of memory.
#[tactic(auto, unfolding(crate::specs::Jobs::refused_from))]
pub fn first_refused(ends: &[Option<JobEnd>]) -> Result<Option<u32>, NoMemory>
    ensures { IfOk result (λ place. place ≡ definitions.refused_from 0 ends.now) }
{
    let mut place = 0u32;
    for end in ends {
        if is_refused(end) {
            return Ok(Some(place));
        }
        place = match place.checked_add(1) {
            Some(place) => place,
            None => return Err(NoMemory),
        };
    }
    Ok(None)
}
