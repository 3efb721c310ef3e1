//! A run that is recorded, from a scenario on.
ghost use Rattle.std.specs.Prelude.{◌≡◌, ◌≤◌, map, IfOk, IfErr, OnOk};
ghost use Rattle.fk_commands.specs.Prepared.{ComesTo, IsRefusal};
ghost use Rattle.fk_first.specs.Cores.{run_core};
ghost use Rattle.fk_first.specs.Goings.{IsReachable};
ghost use Rattle.fk_first.specs.Served.{AllFit};
ghost use Rattle.fk_runs.specs.Recordings.Recording.{watch_place, IsRecordedFrom};
ghost use Rattle.fk_runs.specs.Recordings.Ports as definitions;
ghost use Rattle.fk_runs.specs.Recordings.Told.{IsTold, recorded_by, shown};
ghost use Rattle.fk_runs.specs.Recordings.Written.{written_of, AreSmallTaps};
ghost use Rattle.fk_scenario.specs.Scenario.Kept.{KeepsScenario, HasRules};
ghost use Rattle.fk_workers.specs.Books.Shown.{HasRun, HasEnded};
ghost use Rattle.laws_house.specs.Houses.{jobs_of};

use crate::recordings::ports::ports_of;
use crate::recordings::texts::record_text;
use crate::run_reports::prepared;
use fk_commands::{Prepared, Report, Status};
use fk_finish::ValidImage;
use fk_first::{Core, tapped_core};
use fk_jobs::Porter;
use fk_model::{NoMemory, Text};
use fk_responders::{Table, Watch};
use fk_scenario::Scenario;
use fk_trace::Post;
use fk_workers::Book;
use std::alloc::Global;

/// The place of an observer in a table.
fn place_of(watch: Watch) -> u8
    ensures place { result ≡ watch_place watch }
    ensures within { result ≤ 2 }
{
    match watch {
        Watch::All => 0,
        Watch::Replies => 1,
        Watch::Said => 2,
    }
}

/// The book of a run that has gone on until no move is left.
fn finished(
    alloc: Global,
    core: Core<Post, Porter>,
    table: &Table,
) -> Result<Book<Core<Post, Porter>>, NoMemory>
    requires fits { AllFit (map (λ r. r.rule) table.now.list.items) core.services.list }
    requires first { core.events ≡ 0 }
    requires come { IsReachable core }
    ensures boot { IfOk result (λ book. book.boot ≡ core) }
    ensures kept { IfOk result (λ book. HasRun (shown book.boot) book.history (shown book.core)) }
    ensures ended { IfOk result (λ book. HasEnded (shown book.core)) }
{
    let mut book = Book::of(alloc, core)?;
    book.finish(table)?;
    book.keeps();
    Ok(book)
}

/// What is prepared of a run, with its record.
fn with_record(made: Prepared, told: Text) -> Prepared
    ensures { result ≡ recorded_by told made }
{
    let Prepared {
        status,
        report,
        output,
    } = made;
    let report = match report {
        Some(report) => Some(Report {
            history: report.history,
            jobs: report.jobs,
            images: report.images,
            end: report.end,
            recorded: Some(told),
        }),
        None => None,
    };
    Prepared {
        status,
        report,
        output,
    }
}

/// The record of what the taps of a core have noted, by the ports of its scenario.
fn record_of(
    alloc: Global,
    core: &Core<Post, Porter>,
    scenario: &Scenario,
) -> Result<Text, NoMemory>
    ensures text { IfOk result (λ text. text ≡ written_of (definitions.ports_of scenario.now.servers) (run_core core.now).servers) }
    ensures small { OnOk result (AreSmallTaps (run_core core.now).servers) }
{
    let ports = ports_of(alloc, scenario.servers.as_slice())?;
    let text = record_text(alloc, ports.as_slice(), core.services())?;
    Text::of(alloc, text.as_str())
}

/// The report and the text of the run in a book, with its record.
fn recorded_of(
    alloc: Global,
    book: Book<Core<Post, Porter>>,
    scenario: &Scenario,
    images: &[Option<ValidImage>],
) -> Result<Prepared, NoMemory>
    requires jobs { book.boot.jobs.jobs ≡ jobs_of scenario.now.jobs images.now }
    ensures { IfOk result (λ made. IsTold scenario.now images.now (run_core book.core) book.boot.budget book.history made) }
{
    let (core, history) = book.into_parts();
    let told = record_of(alloc, &core, scenario)?;
    let made = prepared(alloc, core, scenario.jobs.as_slice(), images, history)?;
    Ok(with_record(made, told))
}

/// Runs the first core of a scenario that was read by the rules of a table, by itself, with images for its jobs and a tap of each server that is no
/// console, and prepares the report with the record of what the observer sees.
///
/// # Errors
///
/// `NoMemory`.
pub fn record_first(
    alloc: Global,
    table: &Table,
    scenario: &Scenario,
    images: &[Option<ValidImage>],
    watch: Watch,
) -> Result<Prepared, Status>
    requires keeps { KeepsScenario scenario.now }
    requires rules { HasRules (map (λ r. r.rule) table.now.list.items) scenario.now }
    ensures comes { ComesTo (IsRecordedFrom (watch_place watch) scenario.now images.now) result }
    ensures refusal { IfErr result (IsRefusal ⊥ ⊥) }
{
    let core = tapped_core(alloc, scenario, images, place_of(watch))?;
    let book = finished(alloc, core, table)?;
    let made = recorded_of(alloc, book, scenario, images)?;
    Ok(made)
}
