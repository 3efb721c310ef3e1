//! The command `page`: from a text to its status, its run and its output.
ghost use Rattle.std.specs.Prelude.{◌≡◌, ◌≤◌, IfErr};
ghost use Rattle.fk_commands.specs.Prepared.{IsRefusal};
ghost use Rattle.fk_commands.specs.Status.{progress_of, Finished};
ghost use Rattle.fk_commands.specs.Tables.{rules_of};
ghost use Rattle.fk_run.specs.PageCommand.{IsDone};
ghost use Rattle.fk_run.specs.PageCommand as words;
ghost use Rattle.fk_scenario.specs.Scenario.Reading.{scenario_reading};

use fk_commands::{Prepared, Status, scenario_in};
use fk_extras::Extra;
use fk_pager::page_scenario;
use fk_report::End;
use fk_responders::Table;
use std::alloc::Global;

/// How a run with a pager ends the call.
fn status_of(end: End, budget: u64) -> Status
    ensures status { result ≡ words.status_of end budget }
    ensures finished { progress_of result ≡ Finished }
{
    match end {
        End::Budget => Status::Budget { budget },
        End::Halted | End::Quiet | End::Listed => Status::Ok,
    }
}

/// Reads the scenario that a text is, runs it with a pager of the subtree in a slot of its root, and tells the run.
///
/// # Errors
///
/// `BadScenario` for a text that is no scenario. `NotPaged` where the scenario has jobs or that subtree may not be paged. `NoMemory`.
pub fn page_command(
    alloc: Global,
    table: &Table,
    slot: u8,
    room: u16,
    text: &[u8],
) -> Result<(Prepared, Extra), Status>
    requires low { slot ≤ 239 }
    requires some { 2 ≤ room }
    requires most { room ≤ 256 }
    ensures done { IsDone slot room (scenario_reading (rules_of table.now) text.now) result }
    ensures refusal { IfErr result (IsRefusal ⊥ ⊥) }
{
    let scenario = scenario_in(alloc, table, text)?;
    match page_scenario(alloc, table, slot, room, &scenario)? {
        None => Err(Status::NotPaged),
        Some(made) => {
            let prepared = Prepared {
                status: status_of(made.paged.end, scenario.budget),
                report: None,
                output: made.text,
            };
            Ok((prepared, Extra::Paged(made.paged)))
        }
    }
}
