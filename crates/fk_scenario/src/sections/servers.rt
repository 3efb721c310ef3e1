//! The servers of a document.
ghost use Rattle.std.specs.Prelude.{[], option_map, unwrap_or};
ghost use Rattle.toml.specs.Data.{no_items};
ghost use Rattle.toml.specs.View.{array_view};
ghost use Rattle.fk_scenario.specs.Fields.Gives.{Answers};
ghost use Rattle.fk_scenario.specs.Entries.Servers.{rules_view};
ghost use Rattle.fk_scenario.specs.Sections.Servers as definitions;

use crate::entries::{ServerEntry, server_in};
use crate::fields::{ScenarioFail, index_at};
use fk_model::{List, Rule};
use std::alloc::Global;
use toml::value::Array;

const SECTION: u8 = 5;

#[tactic(auto, unfolding(crate::specs::Sections::Servers::servers_from))]
fn servers_of(
    alloc: Global,
    rules: &[(String, Rule)],
    array: &Array,
) -> Result<List<ServerEntry>, ScenarioFail>
    ensures { Answers result (definitions.servers_from (rules_view rules.now) [] (array_view array.now)) }
{
    let mut servers = List::new(alloc);
    for value in array {
        let index = index_at(servers.len())?;
        match server_in(alloc, rules, value) {
            Ok(server) => servers.push(server)?,
            Err(fail) => return Err(fail.at(SECTION, index)),
        }
    }
    Ok(servers)
}

/// The servers of the section, if it is there, each by itself.
///
/// # Errors
///
/// `Scenario`: the refusal of the first entry that is refused. `NoMemory`: there is none for the entries.
#[tactic(auto, unfolding(crate::specs::Sections::Servers::servers_from))]
pub fn servers_in(
    alloc: Global,
    rules: &[(String, Rule)],
    array: Option<&Array>,
) -> Result<List<ServerEntry>, ScenarioFail>
    ensures { Answers result (definitions.servers_from (rules_view rules.now) [] (unwrap_or (option_map (λ a. array_view a.now) array.entry) no_items)) }
{
    match array {
        Some(array) => servers_of(alloc, rules, array),
        None => Ok(List::new(alloc)),
    }
}
