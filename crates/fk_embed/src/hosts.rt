//! A host of a scenario.
ghost use Rattle.std.specs.Prelude.{◌≡◌, IfErr, IfOk, List, Ok, map, string_bytes};
ghost use Rattle.fk_embed.specs.Hosts.{IsFirst, IsRefused};
ghost use Rattle.fk_model.specs.declared.moves.Rule.{Rule};
ghost use Rattle.fk_scenario.specs.declared.scenario.scenario.Scenario.{Scenario};
ghost use Rattle.fk_scenario.specs.Scenario.Kept.{HasRules, KeepsScenario};
ghost use Rattle.fk_scenario.specs.Scenario.Reading.{scenario_reading};
ghost use Rattle.fk_served.specs.Served.{AllFit};

use fk_boot::boot;
use fk_host::Host;
use fk_model::NoMemory;
use fk_natives::Native;
use fk_responders::Table;
use fk_scenario::{Scenario, ScenarioFail, read_scenario};
use std::alloc::Global;

/// The scenario that a text is, by the rules that a table has for native servers.
fn scenario_of(alloc: Global, table: &Table, text: &[u8]) -> Result<Scenario, ScenarioFail>
    ensures read { IfOk result (λ scenario. scenario_reading (map (λ r. (string_bytes r.name, r.rule)) table.now.list.items) text.now ≡ Ok scenario) }
    ensures keeps { IfOk result KeepsScenario }
    ensures rules { IfOk result (HasRules (map (λ r. r.rule) table.now.list.items)) }
    ensures refused { IfErr result (IsRefused (scenario_reading (map (λ r. (string_bytes r.name, r.rule)) table.now.list.items) text.now)) }
{
    match table.rules(alloc) {
        Ok(rules) => read_scenario(alloc, text, &rules),
        Err(_) => Err(ScenarioFail::NoMemory),
    }
}

/// A kernel of the first world of a scenario, with its native servers. Its jobs, its budget and its workers are left aside: whoever has the host says who
/// moves, and when something is saved.
fn first_host(alloc: Global, scenario: &Scenario) -> Result<Host<Native>, NoMemory>
    requires { KeepsScenario scenario.now }
    ensures first { IfOk result (λ host. IsFirst scenario.now host.kernel host.services.list) }
    ensures fits { (rules : List Rule) → HasRules rules scenario.now → IfOk result (λ host. AllFit rules host.services.list) }
{
    let first = boot(alloc, scenario)?;
    let host = Host::new(first.kernel, first.services)?;
    Ok(host)
}

/// A host of the scenario that a text is, by the rules that a table has for native servers: a kernel of its first world, and its servers. The scenario's jobs,
/// its budget and its workers are left aside: whoever has the host says who moves, and when something is saved.
///
/// # Errors
///
/// `Scenario`: the text is no scenario; its first refusal. `NoMemory`: there is none for the scenario or the host.
pub fn boot_host(alloc: Global, table: &Table, text: &[u8]) -> Result<Host<Native>, ScenarioFail>
    ensures first { IfOk result (λ host. (scenario : Scenario)
        × (scenario_reading (map (λ r. (string_bytes r.name, r.rule)) table.now.list.items) text.now ≡ Ok scenario)
        × IsFirst scenario host.kernel host.services.list) }
    ensures fits { IfOk result (λ host. AllFit (map (λ r. r.rule) table.now.list.items) host.services.list) }
    ensures refused { IfErr result (IsRefused (scenario_reading (map (λ r. (string_bytes r.name, r.rule)) table.now.list.items) text.now)) }
{
    let scenario = scenario_of(alloc, table, text)?;
    match first_host(alloc, &scenario) {
        Ok(host) => Ok(host),
        Err(_) => Err(ScenarioFail::NoMemory),
    }
}
