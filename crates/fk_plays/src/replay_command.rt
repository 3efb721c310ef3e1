//! The command `replay`: a scenario is run by the moves of a trace, and its native servers reply what a record says.
ghost use Rattle.std.specs.Prelude.{◌≡◌, ◌≤◌, ⊤, List, Some, IfOk, IfErr, map};
ghost use Rattle.fk_causes.specs.Causes.{Rose, StandsUnless};
ghost use Rattle.fk_causes.specs.Shelf.{HasAt};
ghost use Rattle.fk_commands.specs.Files.{record_name, trace_name};
ghost use Rattle.fk_commands.specs.Prepared.{ComesTo, IsRefusal, IsFileFail};
ghost use Rattle.fk_commands.specs.Status.{is_shelf_fault};
ghost use Rattle.fk_commands.specs.Tables.{rules_of};
ghost use Rattle.fk_model.specs.declared.moves.Move.{Move};
ghost use Rattle.fk_plays.specs.Play.{IsScenario};
ghost use Rattle.fk_plays.specs.Recorded.{IsReplay, IsReplayedWith, IsTraceFail};
ghost use Rattle.fk_scenario.specs.Scenario.Kept.{KeepsScenario, HasRules};
ghost use Rattle.fk_scenario.specs.Scenario.Reading.{scenario_reading};
ghost use Rattle.fk_trace_text.specs.Trace as traces;

use crate::images::images_for;
use crate::play::trace_of;
use fk_causes::Shelf;
use fk_commands::{Prepared, Status, file_of, scenario_in};
use fk_finish::ValidImage;
use fk_responders::Table;
use fk_runs::replay_first;
use fk_scenario::Scenario;
use fk_trace_text::misspelled;
use std::alloc::Global;

/// The trace that the shelf has under a name, each line of which is spelled.
fn spelled_trace<H: Shelf>(alloc: Global, shelf: &mut H, name: &str) -> Result<Vec<u8>, Status>
    ensures found { IfOk result (λ trace. HasAt (H.files shelf.old) (trace_name name.now) (Some trace.items)
        × ((moves : List Move) × traces.Spells (λ _ _. ⊤) trace.items moves)) }
    ensures fail { IfErr result (IsTraceFail name.now (H.files shelf.old) (H.failed_gets shelf.old) (H.failed_gets shelf.new)) }
    ensures later { H.failed_gets shelf.old ≤ H.failed_gets shelf.new }
    ensures kept_gets { StandsUnless is_shelf_fault (H.failed_gets shelf.old) (H.failed_gets shelf.new) result }
    ensures same_files { H.files shelf.new ≡ H.files shelf.old }
    ensures same_puts { H.failed_puts shelf.new ≡ H.failed_puts shelf.old }
{
    let trace = trace_of(alloc, shelf, name)?;
    match misspelled(&trace) {
        Some(index) => Err(Status::BadTrace { index }),
        None => Ok(trace),
    }
}

/// The record that the shelf has under a name.
fn record_of<H: Shelf>(alloc: Global, shelf: &mut H, name: &str) -> Result<Vec<u8>, Status>
    ensures found { IfOk result (λ bytes. HasAt (H.files shelf.old) (record_name name.now) (Some bytes.items)) }
    ensures fail { IfErr result (IsFileFail (record_name name.now) name.now (H.files shelf.old) (H.failed_gets shelf.old) (H.failed_gets shelf.new)) }
    ensures kept_gets { StandsUnless is_shelf_fault (H.failed_gets shelf.old) (H.failed_gets shelf.new) result }
    ensures same_files { H.files shelf.new ≡ H.files shelf.old }
    ensures same_puts { H.failed_puts shelf.new ≡ H.failed_puts shelf.old }
{
    let file = format!(in alloc; "{name}.rec")?;
    file_of(alloc, shelf, file.as_str(), name)
}

/// Plays the trace with this name by the record with this name, which the shelf has, from the first core of a scenario, with images for its jobs.
fn replay_with<H: Shelf>(
    alloc: Global,
    table: &Table,
    name: &str,
    scenario: &Scenario,
    images: &[Option<ValidImage>],
    shelf: &mut H,
) -> Result<Prepared, Status>
    requires keeps { KeepsScenario scenario.now }
    requires rules { HasRules (map (λ r. r.rule) table.now.list.items) scenario.now }
    ensures comes { ComesTo (IsReplayedWith name.now (H.files shelf.old) scenario.now images.now) result }
    ensures refusal { IfErr result (IsRefusal ⊥ (Rose (H.failed_gets shelf.old) (H.failed_gets shelf.new))) }
    ensures kept_gets { StandsUnless is_shelf_fault (H.failed_gets shelf.old) (H.failed_gets shelf.new) result }
    ensures same_files { H.files shelf.new ≡ H.files shelf.old }
    ensures same_puts { H.failed_puts shelf.new ≡ H.failed_puts shelf.old }
{
    let trace = spelled_trace(alloc, shelf, name)?;
    let told = record_of(alloc, shelf, name)?;
    replay_first(alloc, table, scenario, images, &trace, &told)
}

/// Plays the trace with this name, which the shelf has, from the first core of the scenario that a text is, with the images of the shelf that its
/// jobs need, and with a replay of the record with this name in the place of each server that is no console.
///
/// # Errors
///
/// `BadScenario` for a text that is no scenario by the rules of the table. `Absent` and `BadImage` of the first image that is needed and
/// isn't there or isn't spelled; then `Absent` where the shelf has no such trace, `BadTrace` with the index of its first line that is misspelled;
/// then `Absent` where it has no such record, `BadRecord` with the number of its first line that is bad; and `ShelfFault` where a get of these
/// failed, all of them only for a text that is a scenario. `BadTrace` with the index of the first move that isn't ready or stands at the budget.
/// `NoMemory` where there is no memory for any of it.
pub fn replay_command<H: Shelf>(
    alloc: Global,
    table: &Table,
    name: &str,
    text: &[u8],
    shelf: &mut H,
) -> Result<Prepared, Status>
    ensures comes { ComesTo (IsReplay name.now (H.files shelf.old) (scenario_reading (rules_of table.now) text.now)) result }
    ensures refusal { IfErr result (IsRefusal ⊥ (Rose (H.failed_gets shelf.old) (H.failed_gets shelf.new)
        × IsScenario (scenario_reading (rules_of table.now) text.now))) }
    ensures kept_gets { StandsUnless is_shelf_fault (H.failed_gets shelf.old) (H.failed_gets shelf.new) result }
    ensures same_files { H.files shelf.new ≡ H.files shelf.old }
    ensures same_puts { H.failed_puts shelf.new ≡ H.failed_puts shelf.old }
{
    let scenario = scenario_in(alloc, table, text)?;
    let images = images_for(alloc, shelf, scenario.jobs.as_slice())?;
    replay_with(alloc, table, name, &scenario, images.as_slice(), shelf)
}
