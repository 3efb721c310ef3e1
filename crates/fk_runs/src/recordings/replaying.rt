//! A trace that is played with replays in the place of servers, from a scenario on.
ghost use Rattle.std.specs.Prelude.{◌≡◌, List, map, IfOk, IfErr};
ghost use Rattle.fk_commands.specs.Prepared.{ComesTo, IsRefusal};
ghost use Rattle.fk_record_text.specs.Record.{Entry as Noted, Spells};
ghost use Rattle.fk_runs.specs.Recordings.Ports as definitions;
ghost use Rattle.fk_runs.specs.Recordings.Replaying.{replies_by, IsReplayedBy, IsRecordFail};
ghost use Rattle.fk_scenario.specs.Scenario.Kept.{KeepsScenario, HasRules};
ghost use Rattle.fk_trace.specs.Posts.{words_of_all};

use crate::recordings::ports::ports_of;
use crate::runs::play_core;
use fk_commands::{Prepared, Status};
use fk_finish::ValidImage;
use fk_first::replaying_core;
use fk_model::Reply;
use fk_record_text::{Entry, RecordFail, read_record};
use fk_recorded::lists_of;
use fk_responders::Table;
use fk_scenario::Scenario;
use std::alloc::Global;

/// The replies that a record has for each server of a scenario that is no console, in the order of the file.
///
/// # Errors
///
/// `BadRecord` with the number of the first line that is bad, counted from 1; `NoMemory`.
fn replies_in(alloc: Global, scenario: &Scenario, told: &[u8]) -> Result<Vec<Vec<Reply>>, Status>
    ensures found { IfOk result (λ lists. (entries : List Noted) × Spells (definitions.ports_of scenario.now.servers) told.now entries
        × (words_of_all lists.items ≡ replies_by scenario.now entries)) }
    ensures fail { IfErr result (IsRecordFail (definitions.ports_of scenario.now.servers) told.now) }
{
    let ports = ports_of(alloc, scenario.servers.as_slice())?;
    let entries: Vec<Entry> = match read_record(alloc, ports.as_slice(), told) {
        Ok(entries) => entries,
        Err(RecordFail::Record { line }) => return Err(Status::BadRecord { line }),
        Err(RecordFail::NoMemory) => return Err(Status::NoMemory),
    };
    Ok(lists_of(alloc, &entries, ports.len())?)
}

/// Plays a trace from the first core of a scenario, with images for its jobs and a replay of the record's replies in the place of each server that is
/// no console, and prepares the report.
///
/// # Errors
///
/// `BadRecord` with the number of the first line of the record that is bad, before any move is made; `BadTrace` with the index of the first bad
/// line of the trace; `NoMemory`.
pub fn replay_first(
    alloc: Global,
    table: &Table,
    scenario: &Scenario,
    images: &[Option<ValidImage>],
    trace: &[u8],
    told: &[u8],
) -> Result<Prepared, Status>
    requires keeps { KeepsScenario scenario.now }
    requires rules { HasRules (map (λ r. r.rule) table.now.list.items) scenario.now }
    ensures comes { ComesTo (IsReplayedBy scenario.now images.now trace.now told.now) result }
    ensures refusal { IfErr result (IsRefusal ⊥ ⊥) }
{
    let lists = replies_in(alloc, scenario, told)?;
    let core = replaying_core(alloc, scenario, images, lists)?;
    play_core(alloc, core, scenario.jobs.as_slice(), images, table, trace)
}
