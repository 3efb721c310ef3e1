//! The command `record`: a scenario runs by itself, and what passes at its native servers is recorded.
ghost use Rattle.std.specs.Prelude.{◌≡◌, IfErr};
ghost use Rattle.fk_causes.specs.Causes.{Rose, StandsUnless};
ghost use Rattle.fk_commands.specs.Prepared.{ComesTo, IsRefusal};
ghost use Rattle.fk_commands.specs.Status.{is_shelf_fault};
ghost use Rattle.fk_commands.specs.Tables.{rules_of};
ghost use Rattle.fk_plays.specs.Play.{IsScenarioWithImages};
ghost use Rattle.fk_runs.specs.Recordings.Recording.{watch_place};
ghost use Rattle.fk_plays.specs.Recorded.{IsWholeRecord};
ghost use Rattle.fk_scenario.specs.Scenario.Reading.{scenario_reading};

use crate::images::images_for;
use fk_causes::Shelf;
use fk_commands::{Prepared, Status, scenario_in};
use fk_responders::{Table, Watch};
use fk_runs::record_first;
use std::alloc::Global;

/// Runs the scenario that a text is, by itself, with the images of the shelf that its jobs need, and with the record of what the observer sees.
///
/// # Errors
///
/// `BadScenario` for a text that is no scenario by the rules of the table. `Absent` and `BadImage` of the first image that is needed and
/// isn't there or isn't spelled, and `ShelfFault` where the get of one failed. `NoMemory` where there is no memory for any of it.
pub fn record_command<H: Shelf>(
    alloc: Global,
    table: &Table,
    watch: Watch,
    text: &[u8],
    shelf: &mut H,
) -> Result<Prepared, Status>
    ensures comes { ComesTo (IsWholeRecord (watch_place watch) (H.files shelf.old) (scenario_reading (rules_of table.now) text.now)) result }
    ensures refusal { IfErr result (IsRefusal ⊥ (Rose (H.failed_gets shelf.old) (H.failed_gets shelf.new)
        × IsScenarioWithImages (scenario_reading (rules_of table.now) text.now))) }
    ensures kept_gets { StandsUnless is_shelf_fault (H.failed_gets shelf.old) (H.failed_gets shelf.new) result }
    ensures same_files { H.files shelf.new ≡ H.files shelf.old }
    ensures same_puts { H.failed_puts shelf.new ≡ H.failed_puts shelf.old }
{
    let scenario = scenario_in(alloc, table, text)?;
    let images = images_for(alloc, shelf, scenario.jobs.as_slice())?;
    record_first(alloc, table, &scenario, images.as_slice(), watch)
}
