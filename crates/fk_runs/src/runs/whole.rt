//! Whole runs, from their first core to what is written of them.
ghost use Rattle.std.specs.Prelude.{◌≡◌, ◌≤◌, [], map, IfOk, IfErr};
ghost use Rattle.fk_commands.specs.Prepared.{ComesTo, IsRefusal};
ghost use Rattle.fk_first.specs.Cores.{run_core};
ghost use Rattle.fk_first.specs.Goings.{IsReachable};
ghost use Rattle.fk_runs.specs.RunReports.Made.{IsMade, IsText, IsLine};
ghost use Rattle.fk_runs.specs.Runs.Runs.{IsPlayed, IsAlone};
ghost use Rattle.fk_workers.specs.Workers.Served.{AllFit};
ghost use Rattle.laws_house.specs.Houses.{jobs_of};

use crate::run_reports::{prepared, soaked};
use fk_causes::Gate;
use fk_commands::{Prepared, Status};
use fk_finish::ValidImage;
use fk_first::Core;
use fk_jobs::Porter;
use fk_model::{JobSpec, NoMemory};
use fk_natives::Service;
use fk_responders::Table;
use fk_workers::{Book, PlayFail, play_all, run_all};
use std::alloc::Global;
use std::sync::Wait;
use std::thread::Threads;

/// The report and the text of the run in a book.
fn prepared_of<S: Service + Drop>(
    alloc: Global,
    book: Book<Core<S, Porter>>,
    specs: &[JobSpec],
    images: &[Option<ValidImage>],
) -> Result<Prepared, NoMemory>
    requires jobs { book.boot.jobs.jobs ≡ jobs_of specs.now images.now }
    ensures { IfOk result (λ made. IsMade (IsText specs.now) specs.now images.now (run_core book.core) book.boot.budget book.history made) }
{
    let (core, history) = book.into_parts();
    Ok(prepared(alloc, core, specs, images, history)?)
}

/// The report of the run in a book, with the line of `soak` as its text: so many servers are counted.
fn soaked_of<S: Service + Drop>(
    alloc: Global,
    count: u32,
    book: Book<Core<S, Porter>>,
    specs: &[JobSpec],
) -> Result<Prepared, NoMemory>
    requires jobs { book.boot.jobs.jobs ≡ jobs_of specs.now [] }
    ensures { IfOk result (λ made. IsMade (IsLine count) specs.now [] (run_core book.core) book.boot.budget book.history made) }
{
    let (core, history) = book.into_parts();
    Ok(soaked(alloc, count, core, specs, history)?)
}

/// Plays a trace from a first core with its jobs, and prepares the report.
///
/// # Errors
///
/// `BadTrace` with the index of the first bad line of the trace; `NoMemory`.
pub fn play_core<S: Service + Drop>(
    alloc: Global,
    core: Core<S, Porter>,
    specs: &[JobSpec],
    images: &[Option<ValidImage>],
    table: &Table,
    trace: &[u8],
) -> Result<Prepared, Status>
    requires fits { AllFit (map (λ r. r.rule) table.now.list.items) core.services.list }
    requires first { core.events ≡ 0 }
    requires come { IsReachable core }
    requires jobs { core.jobs.jobs ≡ jobs_of specs.now images.now }
    ensures comes { ComesTo (λ outcome. IsPlayed specs.now images.now (run_core core) core.budget trace.now
        outcome.status outcome.report) result }
    ensures refusal { IfErr result (IsRefusal ⊥ ⊥) }
{
    let book = match play_all(alloc, core, table, trace) {
        Ok(book) => book,
        Err(PlayFail::Trace { index }) => return Err(Status::BadTrace { index }),
        Err(PlayFail::NoMemory) => return Err(Status::NoMemory),
    };
    Ok(prepared_of(alloc, book, specs, images)?)
}

/// Runs a first core with its jobs by so many workers, one to eight, and prepares the report. Each passes the gate before its turns.
///
/// # Errors
///
/// `NoMemory`.
pub fn run_core<R: Threads + Wait + Sync, G: Gate + Sync, S: Service + Drop + Send>(
    rt: &R,
    alloc: Global,
    core: Core<S, Porter>,
    specs: &[JobSpec],
    images: &[Option<ValidImage>],
    workers: u32,
    table: &Table,
    gate: &G,
) -> Result<Prepared, Status>
    requires workers { (1 ≤ workers) × (workers ≤ 8) }
    requires fits { AllFit (map (λ r. r.rule) table.now.list.items) core.services.list }
    requires first { core.events ≡ 0 }
    requires come { IsReachable core }
    requires jobs { core.jobs.jobs ≡ jobs_of specs.now images.now }
    ensures comes { ComesTo (λ outcome. IsAlone (IsText specs.now) specs.now images.now (run_core core) core.budget
        outcome.status outcome.report) result }
    ensures refusal { IfErr result (IsRefusal ⊥ ⊥) }
{
    let book = run_all(rt, alloc, core, workers, table, gate)?;
    Ok(prepared_of(alloc, book, specs, images)?)
}

/// Runs a first core with its jobs, which need no images, in the same way, and prepares the line of `soak`: so many servers are counted.
///
/// # Errors
///
/// `NoMemory`.
pub fn soak_core<R: Threads + Wait + Sync, G: Gate + Sync, S: Service + Drop + Send>(
    rt: &R,
    alloc: Global,
    count: u32,
    core: Core<S, Porter>,
    specs: &[JobSpec],
    workers: u32,
    table: &Table,
    gate: &G,
) -> Result<Prepared, Status>
    requires workers { (1 ≤ workers) × (workers ≤ 8) }
    requires fits { AllFit (map (λ r. r.rule) table.now.list.items) core.services.list }
    requires first { core.events ≡ 0 }
    requires come { IsReachable core }
    requires jobs { core.jobs.jobs ≡ jobs_of specs.now [] }
    ensures comes { ComesTo (λ outcome. IsAlone (IsLine count) specs.now [] (run_core core) core.budget
        outcome.status outcome.report) result }
    ensures refusal { IfErr result (IsRefusal ⊥ ⊥) }
{
    let book = run_all(rt, alloc, core, workers, table, gate)?;
    Ok(soaked_of(alloc, count, book, specs)?)
}
