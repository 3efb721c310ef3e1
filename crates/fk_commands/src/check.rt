//! The command `check`: the counts of a scenario are told.
ghost use Rattle.std.specs.Prelude.{◌≡◌, ◌+◌, IfOk, IfErr, string_bytes};
ghost use Rattle.fk_scenario.specs.Scenario.Reading.{scenario_reading};
ghost use Rattle.fk_commands.specs.Check as words;
ghost use Rattle.fk_commands.specs.Check.{IsCheck};
ghost use Rattle.fk_commands.specs.Prepared.{ComesTo, IsRefusal};
ghost use Rattle.fk_commands.specs.Tables.{rules_of};

use crate::prepared::Prepared;
use crate::scenario::scenario_in;
use crate::status::Status;
use fk_model::NoMemory;
use fk_responders::Table;
use fk_scenario::entries::SpaceEntry;
use std::alloc::{AllocError, Global};

/// How many spaces the entries declare. More than a number can count don't fit in memory.
fn space_count(entries: &[SpaceEntry]) -> Result<u64, NoMemory>
    ensures { IfOk result (λ count. count ≡ words.space_count entries.now) }
{
    let mut count = 0u64;
    for entry in entries {
        count = plus(count, spaces_of(entry.path.as_slice()))?;
    }
    Ok(count)
}

fn spaces_of(path: &[u8]) -> u64
    ensures { result ≡ words.spaces_of path.now }
{
    match path {
        [] => 0,
        [_, ..] => 1,
    }
}

fn plus(count: u64, more: u64) -> Result<u64, NoMemory>
    ensures { IfOk result (λ sum. sum ≡ count + more) }
{
    match count.checked_add(more) {
        Some(sum) => Ok(sum),
        None => Err(NoMemory),
    }
}

fn counts_text(
    alloc: Global,
    spaces: u64,
    objects: usize,
    servers: usize,
    jobs: usize,
) -> Result<String, AllocError>
    ensures { IfOk result (λ text. string_bytes text ≡ words.counts spaces objects servers jobs) }
{
    format!(in alloc; "ok spaces {spaces} objects {objects} servers {servers} jobs {jobs}\n")
}

/// Reads the scenario that a text is, and tells its counts.
///
/// # Errors
///
/// `BadScenario` for a text that is no scenario. `NoMemory` where there is no memory for it.
pub fn check(alloc: Global, table: &Table, text: &[u8]) -> Result<Prepared, Status>
    ensures comes { ComesTo (IsCheck (scenario_reading (rules_of table.now) text.now)) result }
    ensures refusal { IfErr result (IsRefusal ⊥ ⊥) }
{
    let scenario = scenario_in(alloc, table, text)?;
    let spaces = plus(1, space_count(scenario.spaces.as_slice())?)?;
    let output = counts_text(
        alloc,
        spaces,
        scenario.objects.len(),
        scenario.servers.len(),
        scenario.jobs.len(),
    )?;
    Ok(Prepared {
        status: Status::Ok,
        report: None,
        output,
    })
}
