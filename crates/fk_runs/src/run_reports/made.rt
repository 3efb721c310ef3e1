//! What is prepared of a run that has come to a core.
ghost use Rattle.std.specs.Prelude.{◌≡◌, ◌≤◌, [], Some, None, length, map, string_bytes, IfOk};
ghost use Rattle.fk_commands.specs.Status.{progress_of, Finished};
ghost use Rattle.fk_first.specs.Cores.{run_core};
ghost use Rattle.fk_job_ends.specs.Ends as definitions;
ghost use Rattle.fk_report.specs.Jobs.{refused_from};
ghost use Rattle.fk_report.specs.Report.{outs_text};
ghost use Rattle.fk_report.specs.Threads.{AreThreads};
ghost use Rattle.fk_runs.specs.RunReports.Made.{IsEnd, IsMade, IsText, IsLine, status_of_end, status_of_refused};
ghost use Rattle.laws_house.specs.Houses.{jobs_of};

use fk_commands::{Prepared, Report, Status};
use fk_finish::ValidImage;
use fk_first::Core;
use fk_history::Moves;
use fk_job_ends::{images_of, told_in};
use fk_jobs::JobMachine;
use fk_model::{JobSpec, List as Items, NoMemory};
use fk_natives::Service;
use fk_report::{End, JobEnd, ThreadState, first_refused, outs_text, run_text, threads_of};
use fk_soak::soak_line;
use std::alloc::Global;

/// How a run ends that has come to a core: as the core has ended, or with the list that was played.
fn end_of<S: Service + Drop, W: JobMachine + Drop>(core: &Core<S, W>) -> End
    requires within { core.now.events ≤ core.now.budget }
    ensures { IsEnd core.now.jobs.jobs core.now.budget (run_core core.now) result }
{
    match core.ended() {
        Some(end) => end,
        None => End::Listed,
    }
}

/// The status that tells of the first job that was refused, if one was.
fn status_of_refused(jobs: &[Option<JobEnd>]) -> Result<Status, NoMemory>
    ensures status { IfOk result (λ status. status ≡ status_of_refused (refused_from 0 jobs.now)) }
    ensures finished { IfOk result (λ status. progress_of status ≡ Finished) }
{
    match first_refused(jobs)? {
        Some(job) => Ok(Status::JobRefused { job }),
        None => Ok(Status::Ok),
    }
}

/// The status of a run that ended so.
fn status_of(end: End, budget: u64, jobs: &[Option<JobEnd>]) -> Result<Status, NoMemory>
    ensures status { IfOk result (λ status. status ≡ status_of_end budget jobs.now end) }
    ensures finished { IfOk result (λ status. progress_of status ≡ Finished) }
{
    match end {
        End::Budget => Ok(Status::Budget { budget }),
        End::Halted | End::Quiet | End::Listed => status_of_refused(jobs),
    }
}

/// What is prepared of a run that has ended so, as its jobs have, with what is to be written.
fn concluded(
    alloc: Global,
    specs: &[JobSpec],
    history: Moves,
    jobs: Items<Option<JobEnd>>,
    end: End,
    budget: u64,
    output: String,
) -> Result<Prepared, NoMemory>
    ensures status { IfOk result (λ made. made.status ≡ status_of_end budget jobs end) }
    ensures finished { IfOk result (λ made. progress_of made.status ≡ Finished) }
    ensures report { IfOk result (λ made. made.report
        ≡ Some (record { history = history; jobs = jobs; images = map definitions.image_of specs.now; end = end; recorded = None })) }
    ensures output { IfOk result (λ made. string_bytes made.output ≡ string_bytes output) }
{
    let status = status_of(end, budget, jobs.as_slice())?;
    let images = images_of(alloc, specs)?;
    Ok(Prepared {
        status,
        report: Some(Report {
            history,
            jobs,
            images,
            end,
            recorded: None,
        }),
        output,
    })
}

/// The user threads of a core, and the lines of its consoles and of these.
fn outs_of<S: Service + Drop, W: JobMachine + Drop>(
    alloc: Global,
    core: &Core<S, W>,
) -> Result<(Items<ThreadState>, String), NoMemory>
    ensures threads { IfOk result (λ shown. AreThreads (run_core core.now).world shown.0) }
    ensures outs { IfOk result (λ shown. string_bytes shown.1 ≡ outs_text (map (λ e. e.1) (run_core core.now).servers) shown.0) }
{
    let threads = threads_of(alloc, core.kernel().store())?;
    let outs = outs_text(alloc, core.services(), threads.as_slice())?;
    Ok((threads, outs))
}

/// The report and the text of a run of jobs that has come to a core.
///
/// # Errors
///
/// There is no memory for the report or the text.
pub fn prepared<S: Service + Drop, W: JobMachine + Drop>(
    alloc: Global,
    core: Core<S, W>,
    specs: &[JobSpec],
    images: &[Option<ValidImage>],
    history: Moves,
) -> Result<Prepared, NoMemory>
    requires jobs { core.jobs.jobs ≡ jobs_of specs.now images.now }
    requires within { core.events ≤ core.budget }
    requires few { length history ≤ core.budget }
    ensures { IfOk result (λ made. IsMade (IsText specs.now) specs.now images.now (run_core core) core.budget history made) }
{
    let end = end_of(&core);
    let budget = core.budget();
    let found = outs_of(alloc, &core);
    // The core ends here, before memory may lack, so that it is let go at one place alone.
    let told = told_in(alloc, specs.len(), core.into_jobs().into_ends());
    let shown = found?;
    let jobs = told?;
    let events = history.len();
    let output = run_text(alloc, events, end, specs, jobs.as_slice(), shown.1.as_str())?;
    Ok(concluded(alloc, specs, history, jobs, end, budget, output)?)
}

/// The report of a run of jobs without images, and the line of `soak` in place of its text: so many servers are counted.
///
/// # Errors
///
/// There is no memory for the report or the line.
pub fn soaked<S: Service + Drop, W: JobMachine + Drop>(
    alloc: Global,
    count: u32,
    core: Core<S, W>,
    specs: &[JobSpec],
    history: Moves,
) -> Result<Prepared, NoMemory>
    requires jobs { core.jobs.jobs ≡ jobs_of specs.now [] }
    requires within { core.events ≤ core.budget }
    requires few { length history ≤ core.budget }
    ensures { IfOk result (λ made. IsMade (IsLine count) specs.now [] (run_core core) core.budget history made) }
{
    let end = end_of(&core);
    let budget = core.budget();
    let line = soak_line(alloc, count, end, core.services());
    let told = told_in(alloc, specs.len(), core.into_jobs().into_ends());
    let output = line?;
    let jobs = told?;
    Ok(concluded(alloc, specs, history, jobs, end, budget, output)?)
}
