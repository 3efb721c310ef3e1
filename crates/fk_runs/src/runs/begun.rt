//! Whole runs from the first core of a scenario.
ghost use Rattle.std.specs.Prelude.{IfErr, map};
ghost use Rattle.fk_commands.specs.Prepared.{ComesTo, IsRefusal};
ghost use Rattle.fk_runs.specs.Runs.Runs.{IsPlayedFrom, IsRunFrom, IsSoakFrom};
ghost use Rattle.fk_scenario.specs.Scenario.Kept.{KeepsScenario, HasRules};

use crate::runs::whole::{play_core, run_core, soak_core};
use fk_causes::Gate;
use fk_commands::{Prepared, Status};
use fk_finish::ValidImage;
use fk_first::first_core;
use fk_responders::Table;
use fk_scenario::Scenario;
use std::alloc::Global;
use std::sync::Wait;
use std::thread::Threads;

/// Plays a trace from the first core of a scenario that was read by the rules of a table, with images for its jobs, and prepares the
/// report.
///
/// # Errors
///
/// `BadTrace` with the index of the first bad line of the trace; `NoMemory`.
pub fn play_first(
    alloc: Global,
    table: &Table,
    scenario: &Scenario,
    images: &[Option<ValidImage>],
    trace: &[u8],
) -> Result<Prepared, Status>
    requires keeps { KeepsScenario scenario.now }
    requires rules { HasRules (map (λ r. r.rule) table.now.list.items) scenario.now }
    ensures comes { ComesTo (IsPlayedFrom scenario.now images.now trace.now) result }
    ensures refusal { IfErr result (IsRefusal ⊥ ⊥) }
{
    let core = first_core(alloc, scenario, images)?;
    play_core(alloc, core, scenario.jobs.as_slice(), images, table, trace)
}

/// Runs the first core of a scenario that was read by the rules of a table, by as many workers as it says and with images for its jobs, and
/// prepares the report. Each worker passes the gate before its turns.
///
/// # Errors
///
/// `NoMemory`.
pub fn run_first<R: Threads + Wait + Sync, G: Gate + Sync>(
    rt: &R,
    alloc: Global,
    table: &Table,
    scenario: &Scenario,
    images: &[Option<ValidImage>],
    gate: &G,
) -> Result<Prepared, Status>
    requires keeps { KeepsScenario scenario.now }
    requires rules { HasRules (map (λ r. r.rule) table.now.list.items) scenario.now }
    ensures comes { ComesTo (IsRunFrom scenario.now images.now) result }
    ensures refusal { IfErr result (IsRefusal ⊥ ⊥) }
{
    let core = first_core(alloc, scenario, images)?;
    run_core(
        rt,
        alloc,
        core,
        scenario.jobs.as_slice(),
        images,
        scenario.workers,
        table,
        gate,
    )
}

/// Runs the first core of a scenario as `run_first` does, without images for its jobs, and prepares the line of `soak`: so many servers are counted.
///
/// # Errors
///
/// `NoMemory`.
pub fn soak_first<R: Threads + Wait + Sync, G: Gate + Sync>(
    rt: &R,
    alloc: Global,
    table: &Table,
    count: u32,
    scenario: &Scenario,
    gate: &G,
) -> Result<Prepared, Status>
    requires keeps { KeepsScenario scenario.now }
    requires rules { HasRules (map (λ r. r.rule) table.now.list.items) scenario.now }
    ensures comes { ComesTo (IsSoakFrom count scenario.now) result }
    ensures refusal { IfErr result (IsRefusal ⊥ ⊥) }
{
    let core = first_core(alloc, scenario, &[])?;
    soak_core(
        rt,
        alloc,
        count,
        core,
        scenario.jobs.as_slice(),
        scenario.workers,
        table,
        gate,
    )
}
