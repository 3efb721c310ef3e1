//! Servers.
ghost use Rattle.std.specs.Prelude.{◌≡◌, IfOk};
ghost use Rattle.toml.specs.View.{view, table_view};
ghost use Rattle.fk_scenario.specs.Fields.Gives.{Gives};
ghost use Rattle.fk_scenario.specs.Entries.Servers as definitions;

use crate::entries::types::{ServerEntry, ServiceSpec};
use crate::fields::{
    Fail, integers_in, is_name, known, needed_text, parse_path, rule, unless, words_of,
};
use fk_model::{NoMemory, Rule, Text};
use std::alloc::Global;
use toml::{Table, Value};

/// The first rule with a name, and its index.
fn rule_at(rules: &[(String, Rule)], name: &str) -> Result<Option<(u32, Rule)>, NoMemory>
    ensures { IfOk result (λ found. found ≡ definitions.rule_from 0 (definitions.rules_view rules.now) name.now) }
{
    let mut index = 0u32;
    for (rule_name, rule) in rules {
        if rule_name.as_str() == name {
            return Ok(Some((index, *rule)));
        }
        index = match index.checked_add(1) {
            Some(index) => index,
            None => return Err(NoMemory),
        };
    }
    Ok(None)
}

#[tactic(auto, unfolding(crate::specs::Entries::Servers::console_of))]
fn console_of(alloc: Global, table: &Table) -> Result<ServiceSpec, Fail>
    ensures { Gives (λ x. x) result (definitions.console_of (table_view table.now)) }
{
    known(&["port", "rule", "alias"], table)?;
    let alias = needed_text(table, "alias")?;
    unless(rule::FORMS, is_name(alias))?;
    Ok(ServiceSpec::Console {
        alias: Text::of(alloc, alias)?,
    })
}

#[tactic(auto, unfolding(crate::specs::Entries::Servers::listed_of))]
fn listed_of(
    alloc: Global,
    rules: &[(String, Rule)],
    name: &str,
    table: &Table,
) -> Result<ServiceSpec, Fail>
    ensures { Gives (λ x. x) result (definitions.listed_of (definitions.rules_view rules.now) name.now (table_view table.now)) }
{
    known(&["port", "rule", "config"], table)?;
    let config = integers_in(alloc, table, "config")?;
    let config = words_of(alloc, config.as_slice())?;
    match rule_at(rules, name)? {
        Some((index, rule)) => Ok(ServiceSpec::Listed {
            index,
            rule,
            config,
        }),
        None => Err(Fail::Rule(rule::FORMS)),
    }
}

fn service_of(
    alloc: Global,
    rules: &[(String, Rule)],
    name: &str,
    table: &Table,
) -> Result<ServiceSpec, Fail>
    ensures { Gives (λ x. x) result (definitions.service_of (definitions.rules_view rules.now) name.now (table_view table.now)) }
{
    if name == "console" {
        console_of(alloc, table)
    } else {
        listed_of(alloc, rules, name, table)
    }
}

#[tactic(auto, unfolding(crate::specs::Entries::Servers::server_of))]
fn server_of(alloc: Global, rules: &[(String, Rule)], table: &Table) -> Result<ServerEntry, Fail>
    ensures { Gives (λ x. x) result (definitions.server_of (definitions.rules_view rules.now) (table_view table.now)) }
{
    let port = needed_text(table, "port")?;
    let rule = needed_text(table, "rule")?;
    let service = service_of(alloc, rules, rule, table)?;
    let port = parse_path(alloc, port)?;
    Ok(ServerEntry { port, service })
}

/// The server of an entry. Its rule is `console` or one of `rules`, by name.
///
/// # Errors
///
/// `Rule`: the first rule that the entry breaks. `NoMemory`: there is none for the server.
#[tactic(auto, unfolding(crate::specs::Entries::Servers::server_in))]
pub fn server_in(
    alloc: Global,
    rules: &[(String, Rule)],
    value: &Value,
) -> Result<ServerEntry, Fail>
    ensures { Gives (λ x. x) result (definitions.server_in (definitions.rules_view rules.now) (view value.now)) }
{
    match value.as_table() {
        Some(table) => server_of(alloc, rules, table),
        None => Err(Fail::Rule(rule::KEYS)),
    }
}
