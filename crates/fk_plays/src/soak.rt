//! The command `soak`: a scenario that is made from a number runs by itself.
ghost use Rattle.std.specs.Prelude.{◌≤◌, IfErr};
ghost use Rattle.fk_commands.specs.Prepared.{ComesTo, IsRefusal};
ghost use Rattle.fk_commands.specs.Tables.{rules_of};
ghost use Rattle.fk_gen.specs.Soak.{scenario};
ghost use Rattle.fk_plays.specs.Play.{IsSoak};
ghost use Rattle.fk_scenario.specs.Scenario.Reading.{scenario_reading};

use fk_causes::Gate;
use fk_commands::{Prepared, Status, scenario_in};
use fk_gen::scenario_of;
use fk_responders::Table;
use fk_runs::soak_first;
use std::alloc::Global;
use std::sync::Wait;
use std::thread::Threads;

/// Runs the scenario with so many processes, 1 to 100, by itself and by as many workers as it says, and prepares its line. Each worker passes the
/// gate before its turns.
///
/// # Errors
///
/// `BadScenario` where its text were no scenario by the rules of the table. `NoMemory` where there is no memory for any of it.
pub fn soak<R: Threads + Wait + Sync, G: Gate + Sync>(
    rt: &R,
    alloc: Global,
    table: &Table,
    count: u32,
    gate: &G,
) -> Result<Prepared, Status>
    requires one { 1 ≤ count }
    requires most { count ≤ 100 }
    ensures comes { ComesTo (IsSoak count (scenario_reading (rules_of table.now) (scenario count))) result }
    ensures refusal { IfErr result (IsRefusal ⊥ ⊥) }
{
    let text = scenario_of(alloc, count)?;
    let scenario = scenario_in(alloc, table, &text)?;
    soak_first(rt, alloc, table, count, &scenario, gate)
}
