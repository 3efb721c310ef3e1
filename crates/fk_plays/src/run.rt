//! The command `run`: a scenario runs by itself.
ghost use Rattle.std.specs.Prelude.{◌≡◌, IfErr};
ghost use Rattle.fk_causes.specs.Causes.{Rose, StandsUnless};
ghost use Rattle.fk_commands.specs.Prepared.{ComesTo, IsRefusal};
ghost use Rattle.fk_commands.specs.Status.{is_shelf_fault};
ghost use Rattle.fk_commands.specs.Tables.{rules_of};
ghost use Rattle.fk_plays.specs.Play.{IsScenarioWithImages, IsWholeRun};
ghost use Rattle.fk_scenario.specs.Scenario.Reading.{scenario_reading};

use crate::images::images_for;
use fk_causes::{Gate, Shelf};
use fk_commands::{Prepared, Status, scenario_in};
use fk_responders::Table;
use fk_runs::run_first;
use std::alloc::Global;
use std::sync::Wait;
use std::thread::Threads;

/// Runs the scenario that a text is, by itself, by as many workers as it says, with the images of the shelf that its jobs need. Each worker
/// passes the gate before its turns.
///
/// # Errors
///
/// `BadScenario` for a text that is no scenario by the rules of the table. `Absent` and `BadImage` of the first image that is needed and
/// isn't there or isn't spelled, and `ShelfFault` where the get of one failed. `NoMemory` where there is no memory for any of it.
pub fn run<R: Threads + Wait + Sync, G: Gate + Sync, H: Shelf>(
    rt: &R,
    alloc: Global,
    table: &Table,
    text: &[u8],
    shelf: &mut H,
    gate: &G,
) -> Result<Prepared, Status>
    ensures comes { ComesTo (IsWholeRun (H.files shelf.old) (scenario_reading (rules_of table.now) text.now)) result }
    ensures refusal { IfErr result (IsRefusal ⊥ (Rose (H.failed_gets shelf.old) (H.failed_gets shelf.new)
        × IsScenarioWithImages (scenario_reading (rules_of table.now) text.now))) }
    ensures kept_gets { StandsUnless is_shelf_fault (H.failed_gets shelf.old) (H.failed_gets shelf.new) result }
    ensures same_files { H.files shelf.new ≡ H.files shelf.old }
    ensures same_puts { H.failed_puts shelf.new ≡ H.failed_puts shelf.old }
{
    let scenario = scenario_in(alloc, table, text)?;
    let images = images_for(alloc, shelf, scenario.jobs.as_slice())?;
    run_first(rt, alloc, table, &scenario, images.as_slice(), gate)
}
