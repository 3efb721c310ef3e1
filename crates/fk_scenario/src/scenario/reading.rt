//! A whole document.
ghost use Rattle.std.specs.Prelude.{◌≡◌, ◌≤◌, option_map, IfOk, IfErr};
ghost use Rattle.toml.specs.View.{table_view};
ghost use Rattle.fk_scenario.specs.Fields.Gives.{Gives, Answers};
ghost use Rattle.fk_scenario.specs.Entries.Servers.{rules_view};
ghost use Rattle.fk_scenario.specs.Scenario.Kept.{KeepsScenario, HasRules, rules_of};
ghost use Rattle.fk_scenario.specs.Scenario.Reading as definitions;

use crate::entries::{JobEntry, ObjectEntry, Program, ServerEntry, SpaceEntry};
use crate::fields::{
    Entries, Fail, ScenarioError, ScenarioFail, array_in, integer_in, known, needed_integer,
    ranged, rule, table_in,
};
use crate::scenario::aims::check_aims;
use crate::scenario::jobs::jobs_of;
use crate::scenario::scenario::Scenario;
use crate::scenario::servers::check_servers;
use crate::sections::{entries_in, objects_in, programs_in, servers_in, spaces_in};
use fk_model::{List, Rule};
use std::alloc::Global;
use toml::Table;
use toml::value::Array;

/// The bytes are no TOML document.
const NO_DOCUMENT: ScenarioFail = ScenarioFail::Scenario(ScenarioError {
    rule: rule::DOCUMENT,
    section: 0,
    index: 0,
});

const SECTION: u8 = 1;

/// The sections as they stand in the document.
#[derive(Clone, Copy)]
struct Sections<'a> {
    programs: Option<&'a Table>,
    spaces: Option<&'a Array>,
    objects: Option<&'a Array>,
    servers: Option<&'a Array>,
    jobs: Option<&'a Array>,
}

#[tactic(auto, unfolding(crate::specs::Scenario::Reading::sections_of))]
fn sections_of<'a>(table: &'a Table) -> Result<Sections<'a>, Fail>
    ensures { Gives definitions.sections_view result (definitions.sections_of (table_view table.now)) }
{
    let programs = table_in(table, "programs")?;
    let spaces = array_in(table, "space")?;
    let objects = array_in(table, "object")?;
    let servers = array_in(table, "server")?;
    let jobs = array_in(table, "job")?;
    Ok(Sections {
        programs,
        spaces,
        objects,
        servers,
        jobs,
    })
}

/// What the top keys have.
#[derive(Clone, Copy)]
struct Top<'a> {
    budget: u64,
    workers: u64,
    sections: Sections<'a>,
}

#[tactic(auto, unfolding(crate::specs::Scenario::Reading::top_of))]
fn top_of<'a>(table: &'a Table) -> Result<Top<'a>, Fail>
    ensures top { Gives definitions.top_view result (definitions.top_of (table_view table.now)) }
    ensures workers { IfOk result (λ top. top.workers ≤ 8) }
{
    known(
        &[
            "budget", "workers", "programs", "space", "object", "server", "job",
        ],
        table,
    )?;
    let budget = needed_integer(table, "budget")?;
    let workers = integer_in(table, "workers")?;
    let sections = sections_of(table)?;
    let budget = ranged(1, 1_000_000, budget)?;
    let workers = ranged(1, 8, workers.unwrap_or(1))?;
    Ok(Top {
        budget,
        workers,
        sections,
    })
}

/// What is there: programs, spaces and objects.
#[derive(Drop)]
struct Places {
    programs: Entries<Program>,
    spaces: Entries<SpaceEntry>,
    objects: Entries<ObjectEntry>,
}

/// The programs, spaces and objects, each after those before it.
#[tactic(auto, unfolding(crate::specs::Scenario::Reading::places_of))]
fn places_of(alloc: Global, sections: Sections<'_>) -> Result<Places, ScenarioFail>
    ensures { Answers result (definitions.places_of (definitions.sections_view sections.entry)) }
{
    let programs = programs_in(alloc, sections.programs)?;
    let spaces = spaces_in(alloc, &programs, sections.spaces)?;
    let objects = objects_in(alloc, &spaces, sections.objects)?;
    Ok(Places {
        programs,
        spaces,
        objects,
    })
}

/// The entries of all sections, each after those before it.
#[derive(Drop)]
struct Round {
    programs: Entries<Program>,
    spaces: Entries<SpaceEntry>,
    objects: Entries<ObjectEntry>,
    servers: List<ServerEntry>,
    jobs: List<JobEntry>,
}

#[tactic(auto, unfolding(crate::specs::Scenario::Reading::first_round))]
fn first_round(
    alloc: Global,
    rules: &[(String, Rule)],
    sections: Sections<'_>,
) -> Result<Round, ScenarioFail>
    ensures { Answers result (definitions.first_round (rules_view rules.now) (definitions.sections_view sections.entry)) }
{
    let places = places_of(alloc, sections)?;
    let servers = servers_in(alloc, rules, sections.servers)?;
    let jobs = entries_in(alloc, sections.jobs)?;
    Ok(Round {
        programs: places.programs,
        spaces: places.spaces,
        objects: places.objects,
        servers,
        jobs,
    })
}

#[tactic(auto, unfolding(crate::specs::Scenario::Reading::second_round))]
fn second_round(
    alloc: Global,
    budget: u64,
    workers: u32,
    round: Round,
) -> Result<Scenario, ScenarioFail>
    ensures { Answers result (definitions.second_round budget workers round) }
{
    check_aims(alloc, &round.spaces, &round.objects)?;
    check_servers(alloc, &round.objects, round.servers.as_slice())?;
    let jobs = jobs_of(
        alloc,
        round.spaces.as_slice(),
        round.servers.as_slice(),
        round.jobs.as_slice(),
    )?;
    Ok(Scenario {
        budget,
        workers,
        programs: round.programs.into_list(),
        spaces: round.spaces.into_list(),
        objects: round.objects.into_list(),
        servers: round.servers,
        jobs,
    })
}

/// The scenario of a document, or its first refusal.
#[tactic(auto, unfolding(crate::specs::Scenario::Reading::scenario_of))]
fn scenario_of(
    alloc: Global,
    rules: &[(String, Rule)],
    table: &Table,
) -> Result<Scenario, ScenarioFail>
    ensures { Answers result (definitions.scenario_of (rules_view rules.now) (table_view table.now)) }
{
    let top = match top_of(table) {
        Ok(top) => top,
        Err(fail) => return Err(fail.at(SECTION, 0)),
    };
    let round = first_round(alloc, rules, top.sections)?;
    second_round(alloc, top.budget, top.workers as u32, round)
}

/// The table of a document, where the bytes are one.
fn tree_of(alloc: Global, bytes: &[u8]) -> Result<Option<Table>, ScenarioFail>
    ensures found { IfOk result (λ table. option_map table_view table ≡ definitions.tree_of bytes.now) }
    ensures memory { IfErr result (λ fail. fail ≡ ScenarioFail.NoMemory) }
{
    match toml::table_from_slice(alloc, bytes) {
        Ok(table) => Ok(Some(table)),
        Err(error) => {
            if error.is_memory() {
                Err(ScenarioFail::NoMemory)
            } else {
                Ok(None)
            }
        }
    }
}

/// Reads a scenario from the bytes of a TOML document.
///
/// `rules` are the rules that native servers may have, by name. Of equal names the first counts, and
/// `console` is the console whatever stands here.
///
/// # Errors
///
/// `Scenario` exactly where the bytes are refused, with the first refusal: its rule, its section, and the
/// index of the entry in its section. `NoMemory` where there is no memory for the document or the scenario.
#[tactic(auto, unfolding(crate::specs::Scenario::Reading::scenario_reading))]
pub fn read_scenario(
    alloc: Global,
    bytes: &[u8],
    rules: &[(String, Rule)],
) -> Result<Scenario, ScenarioFail>
    ensures exact { Answers result (definitions.scenario_reading (rules_view rules.now) bytes.now) }
    ensures keeps { IfOk result KeepsScenario }
    ensures rules { IfOk result (HasRules (rules_of (rules_view rules.now))) }
{
    let Some(table) = tree_of(alloc, bytes)? else {
        return Err(NO_DOCUMENT);
    };
    let scenario = scenario_of(alloc, rules, &table)?;
    Ok(scenario)
}
