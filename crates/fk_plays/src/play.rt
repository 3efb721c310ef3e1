//! The command `play`: a scenario is run by the moves of a trace.
ghost use Rattle.std.specs.Prelude.{◌≡◌, ◌≤◌, Some, IfOk, IfErr, map};
ghost use Rattle.fk_causes.specs.Causes.{Rose, StandsUnless};
ghost use Rattle.fk_causes.specs.Shelf.{HasAt};
ghost use Rattle.fk_commands.specs.Files.{trace_name};
ghost use Rattle.fk_commands.specs.Prepared.{ComesTo, IsRefusal, IsFileFail};
ghost use Rattle.fk_commands.specs.Status.{is_shelf_fault};
ghost use Rattle.fk_commands.specs.Tables.{rules_of};
ghost use Rattle.fk_plays.specs.Play.{IsPlay, IsPlayedBy, IsScenario};
ghost use Rattle.fk_scenario.specs.Scenario.Kept.{KeepsScenario, HasRules};
ghost use Rattle.fk_scenario.specs.Scenario.Reading.{scenario_reading};

use crate::images::images_for;
use fk_causes::Shelf;
use fk_commands::{Prepared, Status, file_of, scenario_in};
use fk_finish::ValidImage;
use fk_responders::Table;
use fk_runs::play_first;
use fk_scenario::Scenario;
use std::alloc::Global;

/// The trace that the shelf has under a name.
///
/// # Errors
///
/// `Absent` with the name where the shelf has no such trace, `ShelfFault` where the get of it failed, and `NoMemory` where there is none for its
/// bytes.
pub fn trace_of<H: Shelf>(alloc: Global, shelf: &mut H, name: &str) -> Result<Vec<u8>, Status>
    ensures found { IfOk result (λ trace. HasAt (H.files shelf.old) (trace_name name.now) (Some trace.items)) }
    ensures fail { IfErr result (IsFileFail (trace_name name.now) name.now (H.files shelf.old) (H.failed_gets shelf.old) (H.failed_gets shelf.new)) }
    ensures kept_gets { StandsUnless is_shelf_fault (H.failed_gets shelf.old) (H.failed_gets shelf.new) result }
    ensures later { H.failed_gets shelf.old ≤ H.failed_gets shelf.new }
    ensures same_files { H.files shelf.new ≡ H.files shelf.old }
    ensures same_puts { H.failed_puts shelf.new ≡ H.failed_puts shelf.old }
{
    let file = format!(in alloc; "{name}.trc")?;
    file_of(alloc, shelf, file.as_str(), name)
}

/// Plays the trace with this name, which the shelf has, from the first core of a scenario, with images for its jobs.
fn play_with<H: Shelf>(
    alloc: Global,
    table: &Table,
    name: &str,
    scenario: &Scenario,
    images: &[Option<ValidImage>],
    shelf: &mut H,
) -> Result<Prepared, Status>
    requires keeps { KeepsScenario scenario.now }
    requires rules { HasRules (map (λ r. r.rule) table.now.list.items) scenario.now }
    ensures comes { ComesTo (IsPlayedBy name.now (H.files shelf.old) scenario.now images.now) result }
    ensures refusal { IfErr result (IsRefusal ⊥ (Rose (H.failed_gets shelf.old) (H.failed_gets shelf.new))) }
    ensures kept_gets { StandsUnless is_shelf_fault (H.failed_gets shelf.old) (H.failed_gets shelf.new) result }
    ensures same_files { H.files shelf.new ≡ H.files shelf.old }
    ensures same_puts { H.failed_puts shelf.new ≡ H.failed_puts shelf.old }
{
    let trace = trace_of(alloc, shelf, name)?;
    play_first(alloc, table, scenario, images, &trace)
}

/// Plays the trace with this name, which the shelf has, from the first core of the scenario that a
/// text is, with the images of the shelf that its jobs need.
///
/// # Errors
///
/// `BadScenario` for a text that is no scenario by the rules of the table. `Absent` and `BadImage` of the first image that is needed and
/// isn't there or isn't spelled; then `Absent` where the shelf has no such trace; and `ShelfFault` where a get of these failed,
/// all of them only for a text that is one. `BadTrace` with the index of its first bad line.
/// `NoMemory` where there is no memory for any of it.
pub fn play<H: Shelf>(
    alloc: Global,
    table: &Table,
    name: &str,
    text: &[u8],
    shelf: &mut H,
) -> Result<Prepared, Status>
    ensures comes { ComesTo (IsPlay name.now (H.files shelf.old) (scenario_reading (rules_of table.now) text.now)) result }
    ensures refusal { IfErr result (IsRefusal ⊥ (Rose (H.failed_gets shelf.old) (H.failed_gets shelf.new)
        × IsScenario (scenario_reading (rules_of table.now) text.now))) }
    ensures kept_gets { StandsUnless is_shelf_fault (H.failed_gets shelf.old) (H.failed_gets shelf.new) result }
    ensures same_files { H.files shelf.new ≡ H.files shelf.old }
    ensures same_puts { H.failed_puts shelf.new ≡ H.failed_puts shelf.old }
{
    let scenario = scenario_in(alloc, table, text)?;
    let images = images_for(alloc, shelf, scenario.jobs.as_slice())?;
    play_with(alloc, table, name, &scenario, images.as_slice(), shelf)
}
