//! The scenario that a text is, which several commands begin with.
ghost use Rattle.std.specs.Prelude.{◌≡◌, Ok, IfOk, IfErr, map};
ghost use Rattle.fk_scenario.specs.Scenario.Kept.{KeepsScenario, HasRules};
ghost use Rattle.fk_scenario.specs.Scenario.Reading.{scenario_reading};
ghost use Rattle.fk_commands.specs.Prepared.{IsScenarioFail};
ghost use Rattle.fk_commands.specs.Tables.{rules_of};

use crate::status::Status;
use fk_responders::Table;
use fk_scenario::{Scenario, ScenarioFail, read_scenario};
use std::alloc::Global;

/// The scenario that a text is, by the rules that a table has for native servers.
///
/// # Errors
///
/// `BadScenario` for a text that is no scenario. `NoMemory` where there is no memory for it.
pub fn scenario_in(alloc: Global, table: &Table, text: &[u8]) -> Result<Scenario, Status>
    ensures read { IfOk result (λ scenario. scenario_reading (rules_of table.now) text.now ≡ Ok scenario) }
    ensures keeps { IfOk result KeepsScenario }
    ensures rules { IfOk result (HasRules (map (λ r. r.rule) table.now.list.items)) }
    ensures fail { IfErr result (IsScenarioFail (scenario_reading (rules_of table.now) text.now)) }
{
    let rules = table.rules(alloc)?;
    match read_scenario(alloc, text, &rules) {
        Ok(scenario) => Ok(scenario),
        Err(ScenarioFail::Scenario(error)) => Err(Status::BadScenario {
            rule: error.rule,
            section: error.section,
            index: error.index,
        }),
        Err(ScenarioFail::NoMemory) => Err(Status::NoMemory),
    }
}
